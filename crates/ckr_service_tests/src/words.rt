//! The words of the program.
use ckr_console::Script;
use ckr_service::{Command, WordsError, disk_place, read_words};
use std::alloc::{AllocError, Global};
use std::test::Fail;

/// What words are.
#[derive(Drop)]
enum Expected {
    Format,
    /// A run with so many operators.
    Run(usize),
    /// So many jobs that are made.
    Make(u32),
    Refused,
}

fn is_as_expected(read: &Result<Command, WordsError>, expected: &Expected) -> bool {
    match (read, expected) {
        (Ok(Command::Run { operators }), Expected::Run(number)) => {
            operators.as_slice().len() == *number
        }
        (Ok(Command::Make { jobs }), Expected::Make(number)) => jobs == number,
        (Ok(Command::Format), Expected::Format) | (Err(WordsError::Refused), Expected::Refused) =>
            true,
        _ => false,
    }
}

/// Words, what they are, and the place of DISK.
type Row = (&'static str, Expected, Option<u32>);

static WORDS: [Row; 32] = [
    ("format X", Expected::Format, Some(1)),
    ("run X", Expected::Run(1), Some(1)),
    ("run X --reply Y", Expected::Run(1), Some(1)),
    ("run X --reply YNH", Expected::Run(1), Some(1)),
    ("run X --reply +/H", Expected::Run(2), Some(1)),
    ("run X --reply */+/N", Expected::Run(3), Some(1)),
    ("run --reply Y X", Expected::Run(1), Some(3)),
    ("run --reply=+/H X", Expected::Run(2), Some(2)),
    ("run X --reply=Y", Expected::Run(1), Some(1)),
    ("run -- -X", Expected::Run(1), Some(2)),
    ("make 1 X", Expected::Make(1), Some(2)),
    ("make 1000 X", Expected::Make(1000), Some(2)),
    ("", Expected::Refused, None),
    ("run", Expected::Refused, None),
    ("fly X", Expected::Refused, None),
    ("RUN X", Expected::Refused, None),
    ("run X Y", Expected::Refused, None),
    ("run -X", Expected::Refused, None),
    ("run X --reply", Expected::Refused, None),
    ("run X Y --reply", Expected::Refused, None),
    ("run X --reply Z", Expected::Refused, None),
    ("run X --reply=Z", Expected::Refused, None),
    ("run X --reply Y/", Expected::Refused, None),
    ("run X --reply Y N", Expected::Refused, None),
    ("run --reply Y --reply Y X", Expected::Refused, None),
    ("fly X --reply Y", Expected::Refused, None),
    ("format X --reply Y", Expected::Refused, None),
    ("make X", Expected::Refused, None),
    ("make 0 X", Expected::Refused, None),
    ("make 007 X", Expected::Refused, None),
    ("make 1001 X", Expected::Refused, None),
    ("make 5 X --reply Y", Expected::Refused, None),
];

fn words_of(alloc: Global, line: &str) -> Result<Vec<String>, AllocError> {
    let mut words = Vec::new(alloc);
    for word in line.split_ascii_whitespace() {
        words.push(String::from_str(alloc, word)?)?;
    }
    Ok(words)
}

/// Whether words are read so.
fn is_read(alloc: Global, row: &Row) -> Result<bool, AllocError> {
    let (line, expected, place) = row;
    let words = words_of(alloc, line)?;
    Ok(is_as_expected(&read_words(alloc, &words), expected) && disk_place(&words) == *place)
}

#[test]
fn words_are_read(rt: HostRuntime) -> Result<(), Fail> {
    let alloc = rt.alloc();
    for row in &WORDS {
        assert!(rt; is_read(alloc, row)?, "{}", row.0);
    }
    Ok(())
}

#[test]
fn a_run_that_names_no_operator_has_a_standing_one(rt: HostRuntime) -> Result<(), Fail> {
    let words = words_of(rt.alloc(), "run X")?;
    let Ok(Command::Run { operators }) = read_words(rt.alloc(), &words) else {
        return Err("the words are a run".into());
    };
    assert!(rt; matches!(operators.as_slice(), [Script::Standing]));
    Ok(())
}
