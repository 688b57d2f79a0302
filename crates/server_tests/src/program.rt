//! The program over memory: what a run of it is given, how it is to end, and what it leaves.

use crate::memory::{Images, disk_of, files_of, images_of, sink_of, words_of};
use crate::sources::Input;
use compress_server::run;
use doors::{Listener, MemoryListener};
use outside::{Disk, Gate, MemoryClock, MemorySink, OpenGate, Sink, Source};
use std::alloc::{AllocGlobal, Global};
use std::sync::Wait;
use std::test::Fail;
use std::thread::Threads;

/// Dealers A, B and C, an operator and a product.
pub const ROSTER: &[u8] =
    b"name,role,key\nA,dealer,KA\nB,dealer,KB\nC,dealer,KC\nOPS,operator,KO\nP,product,2031-06-30\n";

/// Noon of 31 March 2026, at which all is asked.
pub const NOON: u64 = 1_774_958_400;

/// That something holds; else the test fails, and says what is otherwise.
pub fn so(holds: bool, what: &str) -> Result<(), Fail> {
    if holds {
        return Ok(());
    }
    Err(Fail::new(what))
}

/// What an output is to be.
#[derive(Clone, Copy)]
pub enum Text<'a> {
    Is(&'a [u8]),
    Ends(&'a [u8]),
}

impl Text<'_> {
    /// Whether these bytes are so.
    pub fn is(&self, bytes: &[u8]) -> bool {
        match self {
            Text::Is(text) => bytes == *text,
            Text::Ends(end) => bytes.ends_with(end),
        }
    }
}

/// A trial of the program: what it is given, and how it is to end. Calls are counted from 1, and the call 0 is none.
#[derive(Clone, Copy)]
pub struct Trial<'a> {
    pub words: &'a [&'a str],
    /// The files' bytes, by their names.
    pub files: &'a [(&'a str, &'a [u8])],
    pub input: &'a [u8],
    /// How many bytes a read gives at most.
    pub most: usize,
    /// What the disk holds.
    pub disk: &'a [u8],
    /// The room of the output.
    pub room: usize,
    pub failing_read: u64,
    pub failing_write: u64,
    /// The call of the disk that fails.
    pub failing_call: u64,
    pub status: u8,
    pub output: Text<'a>,
    pub errors: &'a [u8],
}

/// A script over no journal that is told nothing.
pub const SCRIPT: Trial<'static> = Trial {
    words: &["script", "T", "j"],
    files: &[("T", ROSTER)],
    input: b"",
    most: 65536,
    disk: b"",
    room: 65536,
    failing_read: 0,
    failing_write: 0,
    failing_call: 0,
    status: 0,
    output: Text::Is(b""),
    errors: b"",
};

/// What a run left: its output, what its disk holds, and what a crash leaves of that which loses what no sync followed.
#[derive(Drop)]
pub struct Left {
    pub output: Vec<u8>,
    pub written: Vec<u8>,
    pub synced: Vec<u8>,
}

impl Left {
    /// That the next script of these lines finds these replies: behind that crash, and where all is kept.
    pub fn goes_on<R: Threads + Wait + Sync + AllocGlobal>(
        &self,
        rt: &R,
        lines: &[u8],
        replies: (&[u8], &[u8]),
    ) -> Result<(), Fail> {
        finds(rt, &self.synced, lines, replies.0)?;
        finds(rt, &self.written, lines, replies.1)
    }
}

/// That a script of these lines over a disk with these bytes gets these replies.
pub fn finds<'a, R: Threads + Wait + Sync + AllocGlobal>(
    rt: &R,
    disk: &'a [u8],
    lines: &'a [u8],
    replies: &'a [u8],
) -> Result<(), Fail> {
    let script = Trial {
        input: lines,
        disk,
        output: Text::Is(replies),
        ..SCRIPT
    };
    script.ends(rt)
}

/// Runs the program over these streams, at this listener and through this gate. It gives what the disk holds then, if the
/// status and the errors are as they are to be, and a fault of the disk was told.
pub fn run_at<R: Threads + Wait + Sync + AllocGlobal, S: Source, K: Sink, L: Listener, G: Gate>(
    rt: &R,
    trial: &Trial<'_>,
    source: &mut S,
    output: &mut K,
    listener: &mut L,
    gate: &G,
) -> Result<Images, Fail> {
    let words = words_of(rt.alloc(), trial.words)?;
    let mut files = files_of(rt.alloc(), trial.files)?;
    let mut errors = MemorySink::new(rt.alloc(), 256)?;
    let disk = disk_of(rt.alloc(), trial.disk, trial.failing_call)?;
    let (status, disk) = run(
        rt,
        rt.alloc(),
        &words,
        &mut files,
        source,
        output,
        &mut errors,
        disk,
        listener,
        gate,
        &MemoryClock::new(NOON),
    );
    let is_told = disk.faults() == 0 || status == 6;
    let ended_so = status == trial.status && errors.bytes() == trial.errors && is_told;
    images_of(rt.alloc(), ended_so, disk)
}

impl Trial<'_> {
    /// Runs it at this listener. It gives what is left, if it ends as it is to.
    pub fn left_at<R: Threads + Wait + Sync + AllocGlobal, L: Listener>(
        &self,
        rt: &R,
        listener: &mut L,
    ) -> Result<Left, Fail> {
        let mut source = Input::new(self.input, self.most, self.failing_read);
        let mut output = sink_of(rt.alloc(), self.room, self.failing_write)?;
        let images = run_at(rt, self, &mut source, &mut output, listener, &OpenGate)?;
        left_of(rt.alloc(), &self.output, output.bytes(), images)
    }

    /// Runs it. It gives what is left, if it ends as it is to.
    pub fn left<R: Threads + Wait + Sync + AllocGlobal>(&self, rt: &R) -> Result<Left, Fail> {
        self.left_at(rt, &mut MemoryListener::new(rt.alloc()))
    }

    /// That it ends as it is to.
    pub fn ends<R: Threads + Wait + Sync + AllocGlobal>(&self, rt: &R) -> Result<(), Fail> {
        let _left = self.left(rt)?;
        Ok(())
    }

    /// That it ends so, and its disk holds these bytes then, which a crash leaves too.
    pub fn leaves<R: Threads + Wait + Sync + AllocGlobal>(
        &self,
        rt: &R,
        bytes: &[u8],
    ) -> Result<(), Fail> {
        let left = self.left(rt)?;
        let holds = left.written.as_slice() == bytes && left.synced.as_slice() == bytes;
        so(holds, "its disk holds otherwise")
    }
}

// What is left, if the output is as it is to be.
fn left_of(alloc: Global, want: &Text<'_>, output: &[u8], images: Images) -> Result<Left, Fail> {
    so(want.is(output), "its output is otherwise")?;
    let (written, synced) = images;
    Ok(Left {
        output: output.to_vec(alloc)?,
        written,
        synced,
    })
}

/// That each of these ends as it is to.
pub fn all_end<R: Threads + Wait + Sync + AllocGlobal>(
    rt: &R,
    trials: &[Trial<'_>],
) -> Result<(), Fail> {
    for trial in trials {
        trial.ends(rt)?;
    }
    Ok(())
}
