//! The batch desk: job decks in, a listing out.
#![tactic(auto)]

mod failure;

use crate::failure::{Failure, failure_at};
use ckr_console::{Answer, Cautious, Operator, Script, Scripted, Scripts, Standing};
use ckr_outside::{FileDisk, ReadAhead, StdSink, StdSource};
use ckr_service::{Command, batch_desk, disk_place, read_words};
use std::alloc::Global;
use std::fs::{File, OpenOptions};
use std::process::ExitCode;
use std::{env, io};

/// The word DISK, the path of a file. None where the words are no command.
fn disk_path(words: &[String]) -> Option<&str> {
    let place = disk_place(words)? as usize;
    Some(words.get(place)?.as_str())
}

/// One operator, who says yes to everything. Nobody where there is no memory for him.
fn standing(alloc: Global) -> Scripts {
    let mut operators = Scripts::new(alloc);
    match operators.push(Script::Standing) {
        Ok(()) => operators,
        Err(_) => Scripts::new(alloc),
    }
}

/// The operators that the words name, or of a stream that is made the one who says yes to everything. None where the words are neither, and where there is
/// no memory for them: nobody is in office then.
fn named_operators(alloc: Global, words: &[String]) -> Scripts {
    match read_words(alloc, words) {
        Ok(Command::Run { operators }) => operators,
        Ok(Command::Make { .. }) => standing(alloc),
        Ok(Command::Format) | Err(_) => Scripts::new(alloc),
    }
}

/// The file of this path, which is made where it isn't there, and which is this program's alone until it ends. None where it can't be opened
/// for reading and writing, or another program has it.
///
/// It is never the file of descriptor 0, 1 or 2. Where a standard stream is closed, the system gives the next file that is opened its number,
/// and the lines of replies would be written over the disk. A duplicate gets a number above these; so the stream stays closed, and its
/// calls fail.
fn disk_file(rt: &HostRuntime, path: &str) -> Option<File> {
    let opened = OpenOptions::new()
        .read(true)
        .write(true)
        .create(true)
        .open(rt, path)
        .ok()?;
    let file = opened.try_clone().ok()?;
    drop(opened);
    file.try_lock().ok()?;
    Some(file)
}

/// Says on standard error what failed, at a status that tells so.
fn tell_failure(rt: &HostRuntime, status: u8, path: &str, is_open: bool) {
    if let Some(Failure { of, how }) = failure_at(status, path, is_open) {
        // Where standard error is closed too, the status alone tells.
        let _ = eprintln!(rt; "batch_desk: {of}: {how}");
    }
}

/// Serves standard input on the disk that the words name. The status.
///
/// An error: there is no memory for the operators.
fn serve(rt: &HostRuntime, words: &[String]) -> io::Result<u8> {
    let path = disk_path(words).unwrap_or("");
    let file = disk_file(rt, path);
    let is_open = file.is_some();
    let mut operators: Vec<Box<dyn Operator>> = Vec::new(rt.alloc());
    for script in named_operators(rt.alloc(), words).as_slice() {
        operators.push(match script {
            Script::Standing => Box::new(rt.alloc(), Standing(Answer::Yes))?,
            Script::Cautious => Box::new(rt.alloc(), Cautious)?,
            Script::Answers(letters) => {
                let answers = letters.as_slice().to_vec(rt.alloc())?;
                Box::new(rt.alloc(), Scripted::new(answers))?
            }
        })?;
    }
    let mut source = StdSource::new(rt.reader());
    let mut sink = StdSink::new(io::writer(rt));
    let disk = ReadAhead::new(rt.alloc(), FileDisk::new(file));
    let closed = batch_desk(rt.alloc(), words, &mut source, &mut sink, disk, operators);
    tell_failure(rt, closed.status, path, is_open);
    Ok(closed.status)
}

/// The words behind the program's own name.
///
/// `InvalidData`: one isn't UTF-8. Another error: there is no memory for them.
fn words_of(rt: &HostRuntime) -> io::Result<Vec<String>> {
    let mut words = Vec::new(rt.alloc());
    for word in env::args(rt)?.skip(1) {
        words.push(word)?;
    }
    Ok(words)
}

/// The status where words can't be had, or operators: a word that isn't UTF-8 is in no command, and else there is no memory.
fn status_of(error: &io::Error) -> u8 {
    match error.kind() {
        io::ErrorKind::InvalidData => 1,
        _ => 7,
    }
}

fn main(rt: HostRuntime) -> ExitCode {
    let served = match words_of(&rt) {
        Ok(words) => serve(&rt, &words),
        Err(error) => Err(error),
    };
    let status = match served {
        Ok(status) => status,
        Err(error) => {
            let status = status_of(&error);
            tell_failure(&rt, status, "", false);
            status
        }
    };
    ExitCode::from(status)
}
