//! Two seats of a service that each wait for the replies of the other.

ghost use Rattle.std.specs.Prelude.{◌≡◌, IfOk};

use crate::paced::{MANY_LOOKS, PacedSource, Piece, Steps};
use crate::program::so;
use crate::served::{FIRST, FIRST_REPLIES, SECOND, SECOND_REPLIES, SERVICE};
use doors::{Door, Listener};
use outside::{Failed, MemorySink, Sink, Source, Trouble};
use std::alloc::{AllocError, AllocGlobal, Global};
use std::sync::{Arc, Wait};
use std::test::Fail;
use std::thread::Threads;

// The first seat's input ends once the second has replied, whose lines come once the first has replied.
const BEGINS: &[Piece] = &[(0, FIRST)];

const WAITS_FOR_SECOND: &[Piece] = &[(7, "")];

const WAITS_FOR_FIRST: &[Piece] = &[(5, SECOND)];

const ENDS: &[Piece] = &[];

// What a seat has to do with the other: it goes first, it waits for the first, or nobody comes to it.
#[derive(Clone, Copy, PartialEq, Eq)]
enum Part {
    First,
    Second,
    Nobody,
}

// Gives one piece after another, each with the step that it waits for. It shares the word.
#[derive(Drop)]
struct SharedSource {
    part: Part,
    next: usize,
    steps: Arc<Steps, Global>,
}

impl Source for SharedSource {
    ghost use Rattle.std.specs.Prelude.{None};

    ghost flow = { λ _. None };

    ghost faults = { λ _. 0 };

    fn read(&mut self, into: &mut [u8]) -> Result<usize, Failed> {
        let pieces = match (self.part, self.next) {
            (Part::First, 0) => BEGINS,
            (Part::First, 1) => WAITS_FOR_SECOND,
            (Part::Second, 0) => WAITS_FOR_FIRST,
            _ => ENDS,
        };
        let n = PacedSource::new(pieces, &*self.steps, MANY_LOOKS).read(into)?;
        self.next = self.next.saturating_add(1);
        Ok(n)
    }
}

// Keeps what it takes, and counts its lines. It shares the word.
#[derive(Drop)]
struct SharedSink {
    sink: MemorySink,
    steps: Arc<Steps, Global>,
}

impl Sink for SharedSink {
    ghost use Rattle.std.specs.Prelude.{None};

    ghost taken = { λ _. None };

    ghost faults = { λ s. s.sink.faults };

    fn write(&mut self, bytes: &[u8]) -> Result<usize, Failed> {
        let n = self.sink.write(bytes)?;
        self.steps.add_lines(&bytes[..n]);
        Ok(n)
    }
}

// New streams, which gave and took nothing.
fn shared_streams(
    alloc: Global,
    part: Part,
    steps: &Arc<Steps, Global>,
) -> Result<(SharedSource, SharedSink), AllocError>
    ensures { IfOk result (λ c. c.1.sink.faults ≡ 0) }
{
    let input = SharedSource {
        part,
        next: 0,
        steps: Arc::try_clone(steps)?,
    };
    let output = SharedSink {
        sink: MemorySink::new(alloc, 4096)?,
        steps: Arc::try_clone(steps)?,
    };
    Ok((input, output))
}

// A door with one connection, which keeps step with others, or with none.
#[derive(Drop)]
struct PacedDoor {
    part: Part,
    is_over: bool,
    back: Option<SharedSink>,
    steps: Arc<Steps, Global>,
    alloc: Global,
}

impl PacedDoor {
    fn new(alloc: Global, part: Part, steps: &Arc<Steps, Global>) -> Result<PacedDoor, AllocError> {
        Ok(PacedDoor {
            part,
            is_over: matches!(part, Part::Nobody),
            back: None,
            steps: Arc::try_clone(steps)?,
            alloc,
        })
    }

    // Whether its connection took the replies that are due.
    fn is_answered(&self) -> bool {
        let replies = match self.part {
            Part::First => FIRST_REPLIES,
            Part::Second => SECOND_REPLIES,
            Part::Nobody => return self.back.is_none(),
        };
        match &self.back {
            Some(output) => output.sink.bytes() == replies.as_bytes(),
            None => false,
        }
    }
}

impl Door for PacedDoor {
    ghost use Rattle.std.specs.Prelude.{None};

    type In = SharedSource;

    type Out = SharedSink;

    ghost visits = { λ _. None };

    ghost faults = { λ _. 0 };

    fn accept(&mut self) -> Result<Option<(SharedSource, SharedSink)>, Trouble> {
        if self.is_over {
            return Ok(None);
        }
        self.is_over = true;
        match shared_streams(self.alloc, self.part, &self.steps) {
            Ok(streams) => Ok(Some(streams)),
            Err(_) => Err(Trouble::Memory),
        }
    }

    fn give_back(&mut self, _input: SharedSource, output: SharedSink) {
        self.back = Some(output);
    }
}

// Hands out the doors of two connections that wait for one another, and then doors to which nobody comes. It counts those that it
// takes back with the replies that are due.
#[derive(Drop)]
struct PacedListener {
    handed: u64,
    answered: u64,
    steps: Arc<Steps, Global>,
    idle: Option<u64>,
    alloc: Global,
}

impl Listener for PacedListener {
    ghost use Rattle.std.specs.Prelude.{None};

    type Door = PacedDoor;

    ghost doors = { λ _. None };

    ghost faults = { λ _. 0 };

    ghost idle = { λ listener. listener.idle };

    fn bind(&mut self, _address: &str) -> Result<(), Trouble> {
        Ok(())
    }

    fn door(&mut self) -> Result<PacedDoor, Trouble> {
        let part = match self.handed {
            0 => Part::First,
            1 => Part::Second,
            _ => Part::Nobody,
        };
        self.handed = self.handed.saturating_add(1);
        match PacedDoor::new(self.alloc, part, &self.steps) {
            Ok(door) => Ok(door),
            Err(_) => Err(Trouble::Memory),
        }
    }

    fn take_back(&mut self, door: PacedDoor) {
        if door.is_answered() {
            self.answered = self.answered.saturating_add(1);
        }
    }

    fn set_idle(&mut self, seconds: Option<u64>) {
        self.idle = seconds;
    }
}

fn wait_in_a_service<R: Threads + Wait + Sync + AllocGlobal>(rt: &R) -> Result<(), Fail> {
    let steps = Arc::new(rt.alloc(), Steps::new())?;
    let mut listener = PacedListener {
        handed: 0,
        answered: 0,
        steps: Arc::try_clone(&steps)?,
        idle: None,
        alloc: rt.alloc(),
    };
    let _left = SERVICE.left_at(rt, &mut listener)?;
    let waited = listener.answered == 4 && steps.are(7);
    so(waited, "the seats are answered otherwise")
}

#[test]
fn two_seats_of_a_service_wait_for_the_replies_of_one_another(rt: HostRuntime) -> Result<(), Fail> {
    wait_in_a_service(&rt)
}
