//! Houses over any disk that are asked several commands in one call.

ghost use Rattle.outside.specs.Disk.{IsSettled};

use crate::house_lives::{Party, Said, Step, Told, name_of, told_of, what_of};
use crate::houses::{day, three_dealers};
use command_types::{Ask, Entry, MOST_TOGETHER, Moment, Reply};
use house::House;
use outside::Disk;
use std::alloc::Global;
use std::process::Abort;
use std::test::Fail;

/// What a call leaves: the replies, whether the house is stopped, and its disk.
#[derive(Drop)]
pub struct Left<D: Disk> {
    pub replies: Vec<Reply>,
    pub is_stopped: bool,
    pub disk: D,
}

/// What is said, as the commands of seat 1.
fn commands_of(rt: &impl Abort, alloc: Global, steps: &[Step]) -> Result<Vec<Entry>, Fail> {
    let mut commands = Vec::with_capacity(alloc, steps.len())?;
    for (party, said, _, _) in steps {
        let Some(what) = what_of(rt, alloc, *party, *said) else {
            return Err(Fail::new("no memory for a command"));
        };
        let by = Some(name_of(*party));
        let moment = Moment::new(1_774_958_400);
        commands.push(Entry {
            seat: 1,
            ask: Ask { by, what, moment },
        })?;
    }
    Ok(commands)
}

/// What a house that runs answers in one call.
fn answered<D: Disk>(
    alloc: Global,
    house: &mut House<D>,
    commands: &[Entry],
) -> Result<Vec<Reply>, Fail> {
    let mut replies = Vec::with_capacity(alloc, commands.len())?;
    if house.is_stopped() || commands.len() > MOST_TOGETHER {
        return Err(Fail::new("these are not for one call"));
    }
    house.call_all(commands, &mut replies);
    Ok(replies)
}

/// The end of a house that is asked these in one call.
fn asked<D: Disk>(
    alloc: Global,
    house: House<D>,
    commands: &[Entry],
) -> (Result<Vec<Reply>, Fail>, bool, D) {
    let mut house = house;
    let replies = answered(alloc, &mut house, commands);
    let is_stopped = house.is_stopped();
    (replies, is_stopped, house.end())
}

/// What a house on a disk leaves that is asked all of these in one call, if it is opened.
pub fn left_by<D: Disk>(
    rt: &impl Abort,
    alloc: Global,
    disk: D,
    steps: &[Step],
) -> Result<Option<Left<D>>, Fail>
    requires { IsSettled (D.history disk) }
{
    let commands = commands_of(rt, alloc, steps)?;
    let roster = three_dealers(alloc, day(rt, b"2031-06-30"))?;
    match House::new(alloc, roster, disk) {
        Ok(house) => {
            let (replies, is_stopped, disk) = asked(alloc, house, &commands);
            Ok(Some(Left {
                replies: replies?,
                is_stopped,
                disk,
            }))
        }
        Err(_) => Ok(None),
    }
}

/// Whether these are the replies that the steps say.
pub fn are_told(replies: &[Reply], steps: &[Step]) -> bool {
    if replies.len() != steps.len() {
        return false;
    }
    for (reply, (_, _, at, told)) in replies.iter().zip(steps.iter()) {
        if reply.at != *at || told_of(&reply.answer) != *told {
            return false;
        }
    }
    true
}

/// Whether a house on this disk has so many entries, and this gross.
pub fn is_found_on<D: Disk>(
    rt: &impl Abort,
    alloc: Global,
    disk: D,
    found: (u64, u64),
) -> Result<bool, Fail>
    requires { IsSettled (D.history disk) }
{
    let steps = [(Party::Operator, Said::Nets, found.0, Told::Gross(found.1))];
    match left_by(rt, alloc, disk, &steps)? {
        Some(left) => Ok(!left.is_stopped && are_told(&left.replies, &steps)),
        None => Ok(false),
    }
}
