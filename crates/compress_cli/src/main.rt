//! The program: the service over the system's files, streams and sockets.
#![tactic(auto)]

use compress_server::run;
use doors::SocketListener;
use outside::{
    Access, FileDisk, OpenGate, Sink, StreamSink, StreamSource, SystemClock, SystemFiles, write_all,
};
use std::alloc::AllocGlobal;
use std::env::Env;
use std::fs::File;
use std::os::fd::AsRawFd;
use std::process::ExitCode;
use std::rt::Files;
use std::{env, io};

// The words behind the program's name.
fn words(rt: &(impl Env + AllocGlobal)) -> io::Result<Vec<String>> {
    let mut words = Vec::new(rt.alloc());
    for word in env::args(rt)?.skip(1) {
        words.push(word)?;
    }
    Ok(words)
}

// Takes the place of each standard descriptor that is closed, so that no file of the program gets its number.
fn fill_standard<R: Files<File = File> + AllocGlobal>(rt: &R) -> io::Result<Vec<File>> {
    let mut taken = Vec::new(rt.alloc());
    for _ in 0..3 {
        let file = File::open(rt, "/dev/null")?;
        if file.as_raw_fd() > 2 {
            break;
        }
        taken.push(file)?;
    }
    Ok(taken)
}

// What the disk of the journal may do: a replay and a roll only read, so that they can tell of a journal that another program has.
fn access_of(words: &[String]) -> Access {
    match words {
        [name, ..] if name.as_str() == "replay" || name.as_str() == "roll" => Access::Read,
        _ => Access::Write,
    }
}

// Writes a line to the errors, and answers the status.
fn told(errors: &mut impl Sink, status: u8, line: &[u8]) -> ExitCode {
    let _ = write_all(errors, line);
    ExitCode::from(status)
}

fn main(rt: HostRuntime) -> ExitCode {
    let mut errors = StreamSink::new(rt.stderr());
    let Ok(_standard) = fill_standard(&rt) else {
        return told(&mut errors, 11, b"file fault\n");
    };
    let words = match words(&rt) {
        Ok(words) => words,
        // A word that is no text is out of form.
        Err(error) if error.kind() == io::ErrorKind::InvalidData => {
            return told(&mut errors, 2, b"bad words\n");
        }
        Err(_) => return told(&mut errors, 9, b"memory\n"),
    };
    let Ok(disk) = FileDisk::new(rt, access_of(&words)) else {
        return told(&mut errors, 9, b"memory\n");
    };
    let (status, _disk) = run(
        &rt,
        rt.alloc(),
        &words,
        &mut SystemFiles::new(&rt),
        &mut StreamSource::new(rt.stdin()),
        &mut StreamSink::new(rt.stdout()),
        &mut errors,
        disk,
        &mut SocketListener::new(&rt),
        &OpenGate,
        &SystemClock::new(&rt),
    );
    ExitCode::from(status)
}
