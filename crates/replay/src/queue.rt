// The bytes that the module on the lines sends.
use crate::{rng, sensors};

// Where they come from.
#[derive(Clone, Copy)]
pub enum Source {
    // A number, its lowest byte first.
    Number(u128),

    // A page of two parts, each with a check byte at its end: total is the sum of the part so far, and in wrong stands what the
    // check bytes are too high, bit 0 for the first.
    Page { stream: u32, wrong: u32, total: u8 },

    // The call of light: of each byte some bits are the stream's, as the shape has it.
    Light { stream: u32, shape: u32 },
}

// A byte of the stream, which goes on.
fn drawn(stream: &mut u32) -> u8 {
    *stream = rng::next(*stream);
    rng::byte(*stream)
}

// A byte of the page. The stream goes on at a check byte too.
fn paged(stream: &mut u32, wrong: u32, total: &mut u8, left: u32) -> u8 {
    let byte = drawn(stream);
    let more = match left {
        33 => wrong & 1,
        1 => wrong >> 1 & 1,
        _ => {
            *total = total.wrapping_add(byte);
            return byte;
        }
    };
    let check = total.wrapping_add(more as u8);
    *total = 0;
    check
}

impl Source {
    // The next byte, where so many are left with it.
    fn next(&mut self, left: u32) -> u8 {
        match self {
            Source::Number(n) => {
                let byte = (*n & 0xff) as u8;
                *n >>= 8;
                byte
            }
            Source::Page {
                stream,
                wrong,
                total,
            } => paged(stream, *wrong, total, left),
            Source::Light { stream, shape } => sensors::byte(*shape, left, drawn(stream)),
        }
    }
}

// The next byte, and so many left with it.
#[derive(Clone, Copy)]
pub struct Queue {
    pub left: u32,
    pub byte: u8,
    pub source: Source,
}

impl Queue {
    pub(crate) fn new(left: u32, mut source: Source) -> Self {
        let byte = source.next(left);
        Queue { left, byte, source }
    }

    // Without the byte that was sent; None after the last.
    pub(crate) fn sent(self) -> Option<Self> {
        if self.left <= 1 {
            return None;
        }
        Some(Queue::new(self.left - 1, self.source))
    }
}
