//! What a status says to the person at the desk.

/// What failed, and how.
#[derive(Clone, Copy)]
pub struct Failure<'a> {
    pub of: &'a str,
    pub how: &'static str,
}

/// What a status of the program says of the disk at this path, whose file was opened or not. None at 0 and 8, at which the command
/// came to its end, or refused what it was given.
pub fn failure_at(status: u8, path: &str, is_open: bool) -> Option<Failure<'_>> {
    let (of, how) = match status {
        0 | 8 => return None,
        1 => (
            "usage",
            "batch_desk format DISK, batch_desk run DISK [--reply T], or batch_desk make N DISK",
        ),
        2 => (path, "isn't a formatted disk, or what it holds is damaged"),
        3 => (path, "the book has no room for what comes next"),
        4 => ("standard input", "can't be read"),
        5 => ("standard output", "can't be written"),
        6 if is_open => (path, "can't be read or written"),
        6 => (path, "can't be opened, or another program uses it"),
        9 => ("standard input", "has more than 16,777,216 bytes"),
        _ => ("memory", "there is none left"),
    };
    Some(Failure { of, how })
}
