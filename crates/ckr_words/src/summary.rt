//! What the words do, and the place of DISK, found without memory.
ghost use Rattle.std.specs.Prelude.{◌≡◌, ◌+◌, ◌≤◌, length, map, string_bytes, option_map};
ghost use Rattle.ckr_words.specs.Summaries.{found_by, kind_by, summary_of, with_positional_in, with_reply_in};
ghost use Rattle.ckr_words.specs.Words.{all_positional, disk_place_of, given_from, is_option, kind_of_words};

use crate::numbers::jobs;
use crate::words::Kind;
use ckr_console::are_scripts;

/// What matters of the words behind the command: how many are positional (of three or more three), the place of the last of
/// at most two, the N that the first is, how many T there are (of two or more two), and whether the first is in its grammar.
#[derive(Drop)]
struct Summary {
    positionals: u8,
    last: u32,
    jobs: Option<u32>,
    replies: u8,
    scripted: bool,
}

/// What the words do, and the place of the word DISK.
#[derive(Drop)]
struct Found {
    kind: Kind,
    disk: u32,
}

fn with_positional(place: u32, word: &str, behind: Summary) -> Summary
    ensures { result ≡ with_positional_in place word.now behind }
{
    Summary {
        positionals: if behind.positionals < 3 {
            behind.positionals + 1
        } else {
            3
        },
        last: if behind.positionals == 0 {
            place
        } else if behind.positionals == 1 {
            behind.last
        } else {
            0
        },
        jobs: jobs(word),
        replies: behind.replies,
        scripted: behind.scripted,
    }
}

fn with_reply(reply: &[u8], behind: Summary) -> Summary
    ensures { result ≡ with_reply_in reply.now behind }
{
    Summary {
        positionals: behind.positionals,
        last: behind.last,
        jobs: behind.jobs,
        replies: if behind.replies < 2 {
            behind.replies + 1
        } else {
            2
        },
        scripted: are_scripts(reply),
    }
}

/// Words that are all positional, from this place on.
#[tactic(auto, using(crate::proofs::SummaryLemmas::placed_more))]
fn positional_words(words: &[String], place: u32) -> Summary
    requires { place + length words.now ≤ 6 }
    ensures { result ≡ summary_of (all_positional place (map string_bytes words.now)) }
{
    let Some((word, rest)) = words.split_first() else {
        return Summary {
            positionals: 0,
            last: 0,
            jobs: None,
            replies: 0,
            scripted: false,
        };
    };
    let behind = positional_words(rest, place + 1);
    with_positional(place, word.as_str(), behind)
}

/// Whether a word begins with `-` and has more than one byte.
fn is_option(word: &[u8]) -> bool
    ensures { result ≡ is_option word.now }
{
    match word {
        [first, _second, ..] => *first == b'-',
        _ => false,
    }
}

/// The words from this place on, behind a word `--reply` where `asked`. None where they are in no command's grammar.
fn summed(words: &[String], asked: bool, place: u32) -> Option<Summary>
    requires { place + length words.now ≤ 6 }
    ensures { result ≡ option_map summary_of (given_from asked place (map string_bytes words.now)) }
{
    let Some((word, rest)) = words.split_first() else {
        if asked {
            return None;
        }
        return Some(positional_words(words, place));
    };
    let text = word.as_str();
    let bytes = text.as_bytes();
    if asked {
        let behind = summed(rest, false, place + 1)?;
        return Some(with_reply(bytes, behind));
    }
    if text == "--" {
        return Some(positional_words(rest, place + 1));
    }
    if text == "--reply" {
        return summed(rest, true, place + 1);
    }
    if bytes.starts_with(b"--reply=") {
        let behind = summed(rest, false, place + 1)?;
        return Some(with_reply(&bytes[8..], behind));
    }
    if is_option(bytes) {
        return None;
    }
    let behind = summed(rest, false, place + 1)?;
    Some(with_positional(place, text, behind))
}

/// What the command of this name does with the words behind it. None where it takes no such words.
fn kind_by(name: &str, words: &Summary) -> Option<Kind>
    ensures { result ≡ kind_by name.now words.now }
{
    if name == "format" {
        let takes = words.positionals == 1 && words.replies == 0;
        return if takes { Some(Kind::Format) } else { None };
    }
    if name == "run" {
        let takes = words.positionals == 1
            && (words.replies == 0 || words.replies == 1 && words.scripted);
        return if takes { Some(Kind::Run) } else { None };
    }
    if name == "make" && words.positionals == 2 && words.replies == 0 {
        return words.jobs.map(|jobs| Kind::Make { jobs });
    }
    None
}

fn found_by(name: &str, words: Summary) -> Option<Found>
    ensures { result ≡ found_by name.now words }
{
    let kind = kind_by(name, &words)?;
    Some(Found {
        kind,
        disk: words.last,
    })
}

/// What the words do, and where DISK stands. None comes exactly where they are in no command's grammar.
fn find(words: &[String]) -> Option<Found>
    ensures kind { option_map (λ found. found.kind) result ≡ kind_of_words (map string_bytes words.now) }
    ensures disk { option_map (λ found. found.disk) result ≡ disk_place_of (map string_bytes words.now) }
{
    // No command has more words.
    if words.len() > 5 {
        return None;
    }
    let (name, rest) = words.split_first()?;
    let given = summed(rest, false, 1)?;
    found_by(name.as_str(), given)
}

/// What the command does that the words are. None comes exactly where they are in no command's grammar. It takes no memory.
pub fn kind_of_words(words: &[String]) -> Option<Kind>
    ensures { result ≡ kind_of_words (map string_bytes words.now) }
{
    find(words).map(|found| found.kind)
}

/// The place of the word DISK, counted from 0. None comes exactly where the words are in no command's grammar. It takes no memory.
pub fn disk_place(words: &[String]) -> Option<u32>
    ensures { result ≡ disk_place_of (map string_bytes words.now) }
{
    find(words).map(|found| found.disk)
}
