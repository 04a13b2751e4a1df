// A word of the command line that is wrong: one line on standard error.
use crate::files::Unfit;
use crate::print::shown;
use std::error::Error;
use std::fmt::{Display, Formatter};
use std::io::Write;
use std::{fmt, io};

// Where: the number of the word, and the word unless it is empty or too long.
#[derive(Clone, Copy)]
struct Place<'a> {
    number: usize,
    word: &'a [u8],
}

impl Display for Place<'_> {
    fn fmt<W: fmt::Write>(&self, f: &mut Formatter<W>) -> fmt::Result {
        let number = self.number;
        write!(f, "word {number}")?;
        if self.word.is_empty() {
            return Ok(());
        }
        write!(f, ", '{}'", shown(self.word))
    }
}

// The error's text, without the system's number for it.
#[derive(Clone, Copy)]
struct Reason(io::Error);

impl Display for Reason {
    fn fmt<W: fmt::Write>(&self, f: &mut Formatter<W>) -> fmt::Result {
        let mut bytes = [0u8; 300];
        let mut rest = bytes.as_mut_slice();
        write!(rest, "{}", self.0).map_err(|_| fmt::Error)?;
        let text = str::from_utf8(&bytes).unwrap_or("").trim_end_matches('\0');
        let reason = text
            .split_once(" (os error ")
            .map_or(text, |(reason, _)| reason);
        f.write_str(reason)
    }
}

const IMAGE: &str = "an image has 512, page A0 and then page A2";

impl Display for Unfit {
    fn fmt<W: fmt::Write>(&self, f: &mut Formatter<W>) -> fmt::Result {
        match self {
            Unfit::Short(n) => write!(f, "the file has {n} bytes; {IMAGE}"),
            Unfit::Long => write!(f, "the file has more than 512 bytes; {IMAGE}"),
            Unfit::Unread(e) => write!(f, "the file cannot be read: {}", Reason(*e)),
        }
    }
}

impl Error for Unfit {}

// What is wrong with a word.
pub fn word<D: Display + Drop>(
    rt: &impl Eprint,
    number: usize,
    word: &[u8],
    fault: D,
) -> io::Result<()> {
    eprintln!(rt; "{}: {fault}", Place { number, word })
}
