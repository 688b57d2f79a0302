//! Plays transcripts of the program: those that the words name, or, where there are none, all of the folder. For each a line
//! tells that the program answers so, or what is wrong. The status is 0 where there is one and nothing is wrong with any.
#![tactic(auto)]

mod difference;
mod flaw;
mod play;
mod screen;
mod transcript;

use crate::play::play;
use anyhow::ensure;
use std::alloc::AllocGlobal;
use std::env::{self, Env};
use std::rt::Files;
use std::{fs, io};

// The words behind the program's name.
fn words(rt: &(impl Env + AllocGlobal)) -> io::Result<Vec<String>> {
    let mut words = Vec::new(rt.alloc());
    for word in env::args(rt)?.skip(1) {
        words.push(word)?;
    }
    Ok(words)
}

// The names of all transcripts of the folder, in their order.
fn all_names<R: Files + AllocGlobal + Clone + Drop>(rt: &R) -> io::Result<Vec<String>> {
    let mut names = Vec::new(rt.alloc());
    for entry in fs::read_dir(rt, ".")? {
        let entry = entry?;
        let name = entry.file_name();
        if name.ends_with(".transcript") {
            names.push(String::from_str(rt.alloc(), name)?)?;
        }
    }
    names.sort()?;
    Ok(names)
}

fn main(rt: HostRuntime) -> anyhow::Result<()> {
    let mut names = words(&rt)?;
    if names.is_empty() {
        names = all_names(&rt)?;
    }
    let mut flawed = 0u64;
    for name in &names {
        match play(&rt, name) {
            Ok(()) => println!(rt; "{name} ok")?,
            Err(flaw) => {
                flawed = flawed.saturating_add(1);
                println!(rt; "{name}: {flaw}")?;
            }
        }
    }
    let count = names.len();
    ensure!(count > 0, "there is no transcript");
    ensure!(flawed == 0, "{flawed} of {count} transcripts are not so");
    Ok(())
}
