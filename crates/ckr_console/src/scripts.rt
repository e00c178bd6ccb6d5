//! Operators as a word of the program names them.
ghost use Rattle.std.specs.Prelude.{◌≡◌, IfOk, IsSome, OnErr, is_some, map};
ghost use Rattle.std.specs.List.{list_all};
ghost use Rattle.ckr_console.specs.Scripts.{answer_for, is_letter, is_script, script_for, scripts_of};

use crate::Answer;
use ckr_base::{ItemList, NoMemory};
use std::alloc::Global;

/// The answers of one operator, in order.
pub type Letters = ItemList<Answer>;

/// The operators, in the order in which they take office.
pub type Scripts = ItemList<Script>;

/// An operator.
#[derive(Drop)]
pub enum Script {
    /// `+`: he says yes to everything.
    Standing,
    /// `*`: he mounts each volume, and holds each run that would be restarted.
    Cautious,
    /// Letters, `Y` for yes, `N` for no and `H` for hold: he gives these answers in order, and is silent behind them.
    Answers(Letters),
}

fn is_letter(letter: u8) -> bool
    ensures { result ≡ is_letter letter }
{
    letter == b'Y' || letter == b'N' || letter == b'H'
}

/// The answer that a letter stands for.
fn answer_for(letter: u8) -> Answer
    ensures { result ≡ answer_for letter }
{
    match letter {
        b'Y' => Answer::Yes,
        b'N' => Answer::No,
        _ => Answer::Hold,
    }
}

fn are_letters(part: &[u8]) -> bool
    ensures { result ≡ list_all is_letter part.now }
{
    part.iter().all(|letter| is_letter(*letter))
}

/// Whether a part of the word names an operator.
fn is_script(part: &[u8]) -> bool
    ensures { result ≡ is_script part.now }
{
    if part == b"+".as_slice() || part == b"*".as_slice() {
        return true;
    }
    !part.is_empty() && are_letters(part)
}

/// The answers of an operator by their letters.
fn letters_of(alloc: Global, part: &[u8]) -> Result<Letters, NoMemory>
    ensures { IfOk result (λ letters. letters ≡ map answer_for part.now) }
{
    let mut letters = Letters::new(alloc);
    for letter in part {
        letters.push(answer_for(*letter))?;
    }
    Ok(letters)
}

/// The operator that a part of the word names.
fn script_for(alloc: Global, part: &[u8]) -> Result<Script, NoMemory>
    ensures { IfOk result (λ script. script ≡ script_for part.now) }
{
    if part == b"+".as_slice() {
        return Ok(Script::Standing);
    }
    if part == b"*".as_slice() {
        return Ok(Script::Cautious);
    }
    Ok(Script::Answers(letters_of(alloc, part)?))
}

/// Whether each part of the word names an operator. It takes no memory.
pub fn are_scripts(text: &[u8]) -> bool
    ensures { result ≡ is_some (scripts_of text.now) }
{
    text.split(|byte| *byte == b'/').all(is_script)
}

/// The operators that a word names: parts that are parted by `/`, each `+`, `*`, or letters Y, N and H, at least one (this project's profile). None
/// exactly where a part is none of these. It takes no memory then.
pub fn read_scripts(alloc: Global, text: &[u8]) -> Result<Option<Scripts>, NoMemory>
    ensures ok { IfOk result (λ scripts. scripts ≡ scripts_of text.now) }
    ensures err { OnErr result (IsSome (scripts_of text.now)) }
{
    if !are_scripts(text) {
        return Ok(None);
    }
    let mut scripts = Scripts::new(alloc);
    for part in text.split(|byte| *byte == b'/') {
        scripts.push(script_for(alloc, part)?)?;
    }
    Ok(Some(scripts))
}
