// A host whose module acknowledges late. It answers a read of I2CCTL with both lines high, except that SDA is low in
// the samples of an acknowledge bit from a given one on. A sample is a read of I2CCTL that comes after a read of it and
// a wait with no write between: every other read of it comes after a write, or straight after a read.
use hardware::{Access, Answer};

// I2CCTL of the 82599, and its two input bits.
const I2CCTL: u32 = 0x28;

const SCL: u32 = 1;

const SDA: u32 = 4;

// What came last: a write, a read of I2CCTL, or such a read and a wait.
#[derive(Clone, Copy, PartialEq, Eq)]
enum Last {
    Write,
    Read,
    Wait,
}

// first: the sample that reads low first, counted from 1 for the next one.
#[derive(Clone, Copy)]
pub struct Host {
    first: u32,
    last: Last,
}

impl Host {
    pub(crate) fn new(first: u32) -> Self {
        Host {
            first,
            last: Last::Write,
        }
    }

    // A read of I2CCTL.
    fn control(&mut self) -> u32 {
        let sample = self.last == Last::Wait;
        self.last = Last::Read;
        if !sample {
            return SCL | SDA;
        }
        if self.first <= 1 {
            return SCL;
        }
        self.first -= 1;
        SCL | SDA
    }

    pub(crate) fn answer(&mut self, x: Access) -> Answer {
        match x {
            Access::Read(I2CCTL) => Answer::Value(self.control()),
            Access::Read(_) => Answer::Value(0),
            Access::Write(_, _) => {
                self.last = Last::Write;
                Answer::Done
            }
            Access::Wait(_) => {
                if self.last == Last::Read {
                    self.last = Last::Wait;
                }
                Answer::Done
            }
        }
    }
}
