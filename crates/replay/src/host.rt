// The host of a case: it answers each access, counts them and sums them up.
use crate::rng;
use crate::rules::Rules;
use hardware::{Access, Answer};

// The accesses at which it fails, or reads all ones, are counted from 0.
#[derive(Clone, Copy)]
pub struct Host {
    pub stream: u32,
    pub fail_at: u32,
    pub ones_at: u32,
    pub accesses: u32,
    pub sum: u32,
    pub rules: Rules,
}

impl Host {
    fn add(&mut self, words: &[u32]) {
        self.sum = words.iter().fold(self.sum, |h, w| rng::fnv(h, *w));
    }

    fn read(&mut self, register: u32) -> u32 {
        self.add(&[1, register]);
        self.stream = rng::next(self.stream);
        self.rules.read(register, rng::swapped(self.stream))
    }

    fn write(&mut self, register: u32, v: u32) {
        self.add(&[2, register, v]);
        self.rules.written(register, v);
    }

    // A wait does not fail.
    pub(crate) fn answer(&mut self, x: Access) -> Answer {
        let n = self.accesses;
        self.accesses = n.wrapping_add(1);
        let answer = match x {
            Access::Read(register) => Answer::Value(self.read(register)),
            Access::Write(register, v) => {
                self.write(register, v);
                Answer::Done
            }
            Access::Wait(us) => {
                self.add(&[3, us.0]);
                return Answer::Done;
            }
        };
        self.faulty(n, answer)
    }

    // The answer to access n, unless it is to fail or to read all ones.
    fn faulty(&self, n: u32, answer: Answer) -> Answer {
        match answer {
            _ if n == self.fail_at => Answer::Failed,
            Answer::Value(_) if n == self.ones_at => Answer::Value(0xFFFF_FFFF),
            _ => answer,
        }
    }
}
