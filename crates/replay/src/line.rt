// A line of the list, taken byte by byte, so that a byte that no case has is known when it comes.
use crate::asked::Malformed;
use crate::case::Case;

// A line has 11 numbers, 7 for each of up to four rules, and 6.
const MOST: usize = 45;

// The numbers that have ended, and the one that has not: its value so far and how many digits it has.
#[derive(Clone, Copy)]
pub struct Line {
    numbers: [u32; MOST],
    count: usize,
    value: u32,
    digits: u32,
}

impl Line {
    // Without a byte yet.
    pub(crate) const EMPTY: Line = Line {
        numbers: [0; MOST],
        count: 0,
        value: 0,
        digits: 0,
    };

    pub(crate) fn is_empty(&self) -> bool {
        self.count == 0 && self.digits == 0
    }

    // A digit. A number has up to ten, and is below 2^32.
    fn digit(&mut self, d: u8) -> Result<(), Malformed> {
        if 10 <= self.digits {
            return Err(Malformed);
        }
        let tens = self.value.checked_mul(10).ok_or(Malformed)?;
        self.value = tens.checked_add(u32::from(d)).ok_or(Malformed)?;
        self.digits += 1;
        Ok(())
    }

    // The end of a number.
    fn end(&mut self) -> Result<(), Malformed> {
        if self.digits == 0 {
            return Err(Malformed);
        }
        *self.numbers.get_mut(self.count).ok_or(Malformed)? = self.value;
        self.count += 1;
        self.value = 0;
        self.digits = 0;
        Ok(())
    }

    // A byte of the line. At the line's end its case, and the next line begins.
    pub(crate) fn byte(&mut self, b: u8) -> Result<Option<Case>, Malformed> {
        match b {
            b'0'..=b'9' => self.digit(b - b'0')?,
            b' ' => self.end()?,
            b'\n' => {
                self.end()?;
                let numbers = self.numbers.get(..self.count).ok_or(Malformed)?;
                let case = Case::try_from(numbers)?;
                *self = Line::EMPTY;
                return Ok(Some(case));
            }
            _ => return Err(Malformed),
        }
        Ok(None)
    }
}
