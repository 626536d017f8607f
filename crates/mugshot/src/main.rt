//! Records what a page takes in from outside, and replays it.
#![tactic(auto)]

use mug_disk::FileDisk;
use mug_outside::{StdSink, StdSource};
use mug_text::{Bytes, NoMemory};
use mugshot_cli::{Command, Outcome, Status, UsageFault, mugshot, read_words, say};
use std::alloc::Global;
use std::fs::{File, OpenOptions};
use std::process::ExitCode;
use std::{fs, io, str};

// The words without the program's name. Words that aren't UTF-8 are no command, like no words.
fn words(rt: &HostRuntime) -> Result<Vec<String>, NoMemory> {
    let mut words = Vec::new(rt.alloc());
    match std::env::args(rt) {
        Ok(all) => {
            for word in all.skip(1) {
                words.push(word)?;
            }
            Ok(words)
        }
        Err(e) if e.kind() == io::ErrorKind::OutOfMemory => Err(NoMemory),
        Err(_) => Ok(words),
    }
}

// A file of that name, for reading alone. One that can't be opened fails at each call.
fn source(rt: &HostRuntime, name: &Bytes) -> StdSource<File> {
    match str::from_utf8(name.as_slice()) {
        Ok(path) => match fs::open(rt, path) {
            Ok(file) => StdSource::new(file),
            Err(_) => StdSource::missing(),
        },
        Err(_) => StdSource::missing(),
    }
}

// A session that is read.
fn read_session(rt: &HostRuntime, name: &Bytes) -> FileDisk<File> {
    match str::from_utf8(name.as_slice()) {
        Ok(path) => match fs::open(rt, path) {
            Ok(file) => FileDisk::new(file),
            Err(_) => FileDisk::missing(),
        },
        Err(_) => FileDisk::missing(),
    }
}

// A session that is written, made where it isn't there.
fn new_session(rt: &HostRuntime, name: &Bytes) -> FileDisk<File> {
    let mut how = OpenOptions::new();
    how.read(true).write(true).create(true);
    match str::from_utf8(name.as_slice()) {
        Ok(path) => match how.open(rt, path) {
            Ok(file) => FileDisk::new(file),
            Err(_) => FileDisk::missing(),
        },
        Err(_) => FileDisk::missing(),
    }
}

// The files that a command names; the others are missing.
#[derive(Drop)]
struct Files {
    page: StdSource<File>,
    arrivals: StdSource<File>,
    session: FileDisk<File>,
}

fn open_files(rt: &HostRuntime, command: &Command) -> Files {
    match command {
        Command::List { session } | Command::Replay { session } => Files {
            page: StdSource::missing(),
            arrivals: StdSource::missing(),
            session: read_session(rt, session),
        },
        Command::Capture {
            page,
            arrivals,
            session,
            steps: _,
        } => Files {
            page: source(rt, page),
            arrivals: source(rt, arrivals),
            session: new_session(rt, session),
        },
    }
}

fn no_files() -> Files {
    Files {
        page: StdSource::missing(),
        arrivals: StdSource::missing(),
        session: FileDisk::missing(),
    }
}

fn starved(rt: &HostRuntime) -> Status {
    say(&mut StdSink::new(rt.stderr()), Outcome::NoMemory);
    Status::NoMemory
}

// The files that the words' command names; words that are no command name none.
fn files_of(rt: &HostRuntime, alloc: Global, words: &[String]) -> Result<Files, NoMemory> {
    match read_words(alloc, words) {
        Ok(command) => Ok(open_files(rt, &command)),
        Err(UsageFault::Usage) => Ok(no_files()),
        Err(UsageFault::NoMemory) => Err(NoMemory),
    }
}

// Runs the words' command over these files.
fn called(rt: &HostRuntime, alloc: Global, words: &[String], files: &mut Files) -> Status {
    mugshot(
        alloc,
        words,
        &mut files.page,
        &mut files.arrivals,
        &mut files.session,
        &mut StdSink::new(rt.stdout()),
        &mut StdSink::new(rt.stderr()),
    )
}

fn run(rt: &HostRuntime, alloc: Global) -> Status {
    let Ok(words) = words(rt) else {
        return starved(rt);
    };
    match files_of(rt, alloc, &words) {
        Ok(mut files) => called(rt, alloc, &words, &mut files),
        Err(NoMemory) => starved(rt),
    }
}

fn main(rt: HostRuntime) -> ExitCode {
    let alloc = rt.alloc();
    ExitCode::from(run(&rt, alloc).code())
}
