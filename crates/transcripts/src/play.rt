//! Plays a transcript: the program is given its lines, and what is then seen has to be the transcript.

ghost use Rattle.std.specs.Prelude.{Some, IfOk};
ghost use Rattle.outside.specs.Disk.{IsSettled};

use crate::difference::first_difference;
use crate::flaw::Flaw;
use crate::screen::{Display, Keyboard, Pace, Screen};
use crate::transcript::{Run, runs_of};
use doors::MemoryListener;
use outside::{MemoryClock, MemoryDisk, OpenGate, SystemFiles};
use std::alloc::{AllocError, AllocGlobal};
use std::fs;
use std::rt::Files;
use std::sync::Wait;
use std::thread::Threads;

// Noon of 31 March 2026, at which all is asked.
const NOON: u64 = 1_774_958_400;

// What is seen of the program in a run over this disk, its status if that is not 0, and the disk that a crash leaves then.
fn seen<R: Threads + Wait + Sync + Files + AllocGlobal>(
    rt: &R,
    run: &Run<'_>,
    pace: Pace,
    disk: MemoryDisk,
) -> Result<(Vec<u8>, MemoryDisk), AllocError>
    requires { IsSettled (Some disk.history) }
    ensures { IfOk result (λ r. IsSettled (Some r.1.history)) }
{
    let alloc = rt.alloc();
    let words = run.words(alloc)?;
    let input = run.input(alloc)?;
    let screen = Screen::new(alloc);
    let (status, disk) = compress_server::run(
        rt,
        alloc,
        &words,
        &mut SystemFiles::new(rt),
        &mut Keyboard::new(&input, pace, &screen),
        &mut Display::new(&screen),
        &mut Display::new(&screen),
        disk,
        &mut MemoryListener::new(alloc),
        &OpenGate,
        &MemoryClock::new(NOON),
    );
    let mut shown = screen.into_bytes();
    if status != 0 {
        let line = format!(in alloc; "status {status}\n")?;
        shown.extend_from_slice(line.as_bytes())?;
    }
    Ok((shown, disk.crash()))
}

// Plays the runs one after another, each over what a crash leaves of the disk of the one before it.
fn play_at<R: Threads + Wait + Sync + Files + AllocGlobal>(
    rt: &R,
    runs: &[Run<'_>],
    pace: Pace,
) -> Result<(), Flaw> {
    let mut disk = MemoryDisk::new(rt.alloc(), 1 << 20, 16384)?;
    for run in runs {
        let (shown, left) = seen(rt, run, pace, disk)?;
        if let Some(difference) = first_difference(run, pace, &shown) {
            return Err(difference.told(rt.alloc(), pace)?);
        }
        disk = left;
    }
    Ok(())
}

/// Plays the transcript of this name, twice: its lines typed one by one, and given at once. The error is what is wrong with
/// it, where it can't be read or the program answers otherwise.
pub fn play<R: Threads + Wait + Sync + Files + AllocGlobal>(
    rt: &R,
    name: &str,
) -> Result<(), Flaw> {
    let text = fs::read_to_string(rt, name)?;
    let runs = runs_of(rt.alloc(), &text)?;
    play_at(rt, &runs, Pace::Typed)?;
    play_at(rt, &runs, Pace::Piped)
}
