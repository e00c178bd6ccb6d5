//! The words of the program, those behind its own name.
ghost use Rattle.std.specs.Prelude.{◌≡◌, ◌↔◌, [], ◌++◌, Err, IfOk, None, Some, map, string_bytes, option_map};
ghost use Rattle.clap.specs.Words.{subcommand_rows_of};
ghost use Rattle.ckr_words.specs.Matches.{listed, sub_read};
ghost use Rattle.ckr_words.specs.Answers.{Reads};
ghost use Rattle.ckr_words.specs.Words.{command_of, format_of, make_of, operators_of, run_of};

use crate::error::{WordsError, refusal};
use crate::line::command_line;
use crate::numbers::jobs;
use crate::summary::kind_of_words;
use ckr_console::{Script, Scripts, read_scripts};
use clap::ArgMatches;
use std::alloc::Global;

/// What the program is asked to do.
#[derive(Drop)]
pub enum Command {
    /// `format DISK`: to format a disk by installation cards.
    Format,
    /// `run DISK`: to serve a stream, where one operator says yes to everything; or with `--reply T`, where T names the operators.
    Run { operators: Scripts },
    /// `make N DISK`: to format a disk and to serve a stream that is made, of N jobs, from 1 to 1000.
    Make { jobs: u32 },
}

/// What a command does.
#[derive(Clone, Copy)]
pub enum Kind {
    /// It formats a disk.
    Format,
    /// It serves a stream.
    Run,
    /// It formats a disk and serves a stream that is made, of so many jobs, from 1 to 1000.
    Make { jobs: u32 },
}

fn format_met(disk: Option<&str>) -> Result<Command, WordsError>
    ensures { Reads (format_of (listed (option_map (λ s. s.now) disk.entry)) []) result }
{
    match disk {
        Some(_) => Ok(Command::Format),
        None => Err(WordsError::Refused),
    }
}

/// The operators of T. Without it there is one, who says yes to everything.
fn operators(alloc: Global, reply: Option<&str>) -> Result<Scripts, WordsError>
    ensures { Reads (operators_of (listed (option_map (λ s. s.now) reply.entry))) result }
{
    let Some(text) = reply else {
        let mut scripts = Scripts::new(alloc);
        scripts.push(Script::Standing)?;
        return Ok(scripts);
    };
    match read_scripts(alloc, text.as_bytes())? {
        Some(scripts) => Ok(scripts),
        None => Err(WordsError::Refused),
    }
}

fn run_met(alloc: Global, disk: Option<&str>, reply: Option<&str>) -> Result<Command, WordsError>
    ensures { Reads (run_of (listed (option_map (λ s. s.now) disk.entry)) (listed (option_map (λ s. s.now) reply.entry))) result }
{
    let operators = operators(alloc, reply)?;
    match disk {
        Some(_) => Ok(Command::Run { operators }),
        None => Err(WordsError::Refused),
    }
}

fn make_met(number: Option<&str>, disk: Option<&str>) -> Result<Command, WordsError>
    ensures { Reads (make_of (listed (option_map (λ s. s.now) number.entry) ++ listed (option_map (λ s. s.now) disk.entry)) []) result }
{
    match (number, disk) {
        (Some(number), Some(_)) => match jobs(number) {
            Some(jobs) => Ok(Command::Make { jobs }),
            None => Err(WordsError::Refused),
        },
        _ => Err(WordsError::Refused),
    }
}

/// The command that clap found.
fn command_met(alloc: Global, matches: &ArgMatches<'_>) -> Result<Command, WordsError>
    ensures { Reads (sub_read (subcommand_rows_of matches.now)) result }
{
    match matches.subcommand() {
        None => Err(WordsError::Refused),
        Some((name, found)) => {
            let disk = found.get_str("disk");
            if name == "format" {
                return format_met(disk);
            }
            if name == "run" {
                let reply = found.get_str("reply");
                return run_met(alloc, disk, reply);
            }
            if name == "make" {
                let number = found.get_str("jobs");
                return make_met(number, disk);
            }
            Err(WordsError::Refused)
        }
    }
}

/// The command that clap reads in the words.
fn read_by_clap(alloc: Global, words: &[String]) -> Result<Command, WordsError>
    ensures { Reads (command_of (map string_bytes words.now)) result }
{
    let line = command_line(alloc)?;
    match line.try_get_matches_from(words) {
        Ok(matches) => command_met(alloc, &matches),
        Err(error) => Err(refusal(error.kind())),
    }
}

/// The command that the words are, which are those behind the program's own name (this project's profile).
///
/// `Refused` comes exactly where they are in no command's grammar, also where there is no memory: their summary tells then. `NoMemory` comes
/// only where they are a command and there is no memory for the reading.
pub fn read_words(alloc: Global, words: &[String]) -> Result<Command, WordsError>
    ensures ok { IfOk result (λ command. command_of (map string_bytes words.now) ≡ Some command) }
    ensures refused { (result ≡ Err WordsError.Refused) ↔ (command_of (map string_bytes words.now) ≡ None) }
{
    match read_by_clap(alloc, words) {
        Err(WordsError::NoMemory) if kind_of_words(words).is_none() => Err(WordsError::Refused),
        read => read,
    }
}
