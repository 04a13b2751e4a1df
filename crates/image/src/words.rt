// The words of the command line.
use crate::files::Image;
use crate::{faults, files};
use std::env::FillError;
use std::io;
use std::rt::{Env, Files};

// The bytes of the longest one that is taken.
pub const LONGEST: usize = 4096;

// What is wrong with a longer one.
pub const TOO_LONG: &str = "a word has at most 4096 bytes";

// How many there are, the program's name among them.
pub fn count(rt: &impl Env) -> usize {
    (0..usize::MAX)
        .find(|place| matches!(rt.arg(*place, &mut []), Err(FillError::NotPresent)))
        .unwrap_or(usize::MAX)
}

// The word at a place, unless it is too long.
pub fn read<'a>(rt: &impl Env, place: usize, buffer: &'a mut [u8; LONGEST]) -> Option<&'a [u8]> {
    let n = rt.arg(place, buffer).ok()?;
    Some(&buffer[..n])
}

// The word at a place and the image that it names; where it names none, standard error says so.
pub fn image<'a, R: Env + Files + Eprint>(
    rt: &R,
    place: usize,
    buffer: &'a mut [u8; LONGEST],
) -> io::Result<Option<(&'a [u8], Image)>> {
    let Some(path) = read(rt, place, buffer) else {
        faults::word(rt, place, b"", TOO_LONG)?;
        return Ok(None);
    };
    match files::read(rt, path) {
        Ok(image) => Ok(Some((path, image))),
        Err(unfit) => {
            faults::word(rt, place, path, unfit)?;
            Ok(None)
        }
    }
}
