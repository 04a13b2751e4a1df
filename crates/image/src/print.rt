// Bytes as text.
ghost use Rattle.image.specs.Text.{Printed};

use std::fmt;
use std::fmt::Formatter;

// A byte that is no printable ASCII is shown as '?'.
fn printable(b: u8) -> u8
    ensures { Printed b result }
{
    match b {
        0x20..=0x7e => b,
        _ => b'?',
    }
}

// At most the first 100 bytes.
#[derive(Clone, Copy)]
pub struct Excerpt<'a>(&'a [u8]);

impl fmt::Display for Excerpt<'_> {
    fn fmt<W: fmt::Write>(&self, f: &mut Formatter<W>) -> fmt::Result {
        for b in self.0.iter().take(100) {
            f.write_char(char::from(printable(*b)))?;
        }
        if 100 < self.0.len() {
            f.write_str("...")?;
        }
        Ok(())
    }
}

pub fn shown(bytes: &[u8]) -> Excerpt<'_> {
    Excerpt(bytes)
}
