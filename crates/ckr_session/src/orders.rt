//! The commands.
ghost use Rattle.std.specs.Prelude.{◌≡◌, ℕ};
ghost use Rattle.ckr_desk.specs.Model.Plans.{IsAnyCode};
ghost use Rattle.ckr_session.specs.Orders.{HasFewTurns, change_of, failure_in, failure_of, is_one_of, order_of, order_by_words, order_alone, list_of, turns_in, turns_of};

use ckr_base::{Code, DsName, behind_word, first_word, plain_number, trimmed};
use ckr_desk::Turn;

/// The most turns of one command.
const MOST_TURNS: u32 = 1_000_000;

/// What a command does to a job.
#[derive(Clone, Copy)]
pub enum JobChange {
    /// It is taken from the queue.
    Purge,
    /// It is held no more.
    Release,
}

/// What a command asks for.
#[derive(Drop)]
pub enum Order {
    /// So many such turns of an initiator, at most.
    Turns { turn: Turn, count: u32 },
    /// The records of a data set.
    ListOf(DsName),
    /// The data sets.
    Sets,
    /// The jobs.
    Jobs,
    /// A change of the job of this number.
    Change { change: JobChange, job: u32 },
    /// The next operator takes office.
    Shift,
    Unknown,
}

/// What the line asks for, where there are so many initiators.
pub fn read_order(initiators: u8, line: &[u8]) -> Order
    ensures value { result ≡ order_of initiators line.now }
    ensures few { HasFewTurns initiators result }
{
    order_by_words(initiators, trimmed(line))
}

/// The command of a word, with what stands behind it.
fn order_by_words(initiators: u8, text: &[u8]) -> Order
    ensures value { result ≡ order_by_words initiators text.now }
    ensures few { HasFewTurns initiators result }
{
    match first_word(text) {
        b"$T" => turns_in(initiators, behind_word(text)),
        b"$F" => failure_in(initiators, behind_word(text)),
        b"$R" => list_of(behind_word(text)),
        b"$D" => change_of(JobChange::Purge, plain_number(behind_word(text))),
        b"$L" => change_of(JobChange::Release, plain_number(behind_word(text))),
        _ => order_alone(text),
    }
}

/// A command without words behind it.
fn order_alone(text: &[u8]) -> Order
    ensures value { result ≡ order_alone text.now }
    ensures few { (initiators : ℕ) → HasFewTurns initiators result }
{
    if text == b"$O".as_slice() {
        return Order::Sets;
    }
    if text == b"$Q".as_slice() {
        return Order::Jobs;
    }
    if text == b"$S".as_slice() {
        return Order::Shift;
    }
    Order::Unknown
}

/// The turns of an initiator and a count, parted by a blank.
fn turns_in(initiators: u8, text: &[u8]) -> Order
    ensures value { result ≡ turns_in initiators text.now }
    ensures few { HasFewTurns initiators result }
{
    turns_of(
        initiators,
        plain_number(first_word(text)),
        plain_number(behind_word(text)),
    )
}

/// Whether it is the number of one of so many initiators, from 1.
fn is_one_of(initiators: u8, initiator: u32) -> bool
    ensures { result ≡ is_one_of initiators initiator }
{
    0 < initiator && initiator <= u32::from(initiators)
}

fn turns_of(initiators: u8, initiator: Option<u32>, count: Option<u32>) -> Order
    ensures value { result ≡ turns_of initiators initiator count }
    ensures few { HasFewTurns initiators result }
{
    match (initiator, count) {
        (Some(initiator), Some(count))
            if is_one_of(initiators, initiator) && 0 < count && count <= MOST_TURNS => {
            Order::Turns {
                turn: Turn {
                    initiator: initiator as u8,
                    fail: None,
                },
                count,
            }
        }
        _ => Order::Unknown,
    }
}

/// One turn of an initiator with a code, parted by a blank.
fn failure_in(initiators: u8, text: &[u8]) -> Order
    ensures value { result ≡ failure_in initiators text.now }
    ensures few { HasFewTurns initiators result }
{
    failure_of(
        initiators,
        plain_number(first_word(text)),
        Code::read(behind_word(text)),
    )
}

fn failure_of(initiators: u8, initiator: Option<u32>, code: Option<Code>) -> Order
    requires code { IsAnyCode code }
    ensures value { result ≡ failure_of initiators initiator code }
    ensures few { HasFewTurns initiators result }
{
    match (initiator, code) {
        (Some(initiator), Some(code)) if is_one_of(initiators, initiator) => Order::Turns {
            turn: Turn {
                initiator: initiator as u8,
                fail: Some(code),
            },
            count: 1,
        },
        _ => Order::Unknown,
    }
}

fn list_of(name: &[u8]) -> Order
    ensures value { result ≡ list_of name.now }
    ensures few { (initiators : ℕ) → HasFewTurns initiators result }
{
    match DsName::read(name) {
        Some(name) => Order::ListOf(name),
        None => Order::Unknown,
    }
}

fn change_of(change: JobChange, job: Option<u32>) -> Order
    ensures value { result ≡ change_of change job }
    ensures few { (initiators : ℕ) → HasFewTurns initiators result }
{
    match job {
        Some(job) => Order::Change { change, job },
        None => Order::Unknown,
    }
}
