// Runs the port over the cases of a list, which it reads from standard input, and says how many agree with what the list
// has the original do.
#![tactic(auto)]

mod asked;
mod calls;
mod case;
mod host;
mod levels;
mod lights;
mod line;
mod lines;
mod methods;
mod modules;
mod pages;
mod phrases;
mod plain;
mod queue;
mod reads;
mod rng;
mod rules;
mod scripts;
mod sensors;
mod transfers;

use asked::Malformed;
use line::Line;
use std::io;
use std::io::Read;

// The lines read, those that agree, and those that differ and were named.
#[derive(Clone, Copy, Default)]
struct Tally {
    lines: u32,
    agree: u32,
    named: u32,
}

impl Tally {
    // The first five that differ are named.
    fn count(&mut self, rt: &impl Print, agrees: bool) -> io::Result<()> {
        self.lines = self.lines.wrapping_add(1);
        if agrees {
            self.agree = self.agree.wrapping_add(1);
        } else if self.named < 5 {
            self.named += 1;
            println!(rt; "line {} differs", self.lines)?;
        }
        Ok(())
    }
}

// A byte of the list. A line that is malformed is named; false then.
fn fed(rt: &impl Print, tally: &mut Tally, line: &mut Line, b: u8) -> io::Result<bool> {
    match line.byte(b) {
        Ok(None) => {}
        Ok(Some(case)) => tally.count(rt, case.agrees())?,
        Err(Malformed) => {
            println!(rt; "line {} is malformed", tally.lines.wrapping_add(1))?;
            return Ok(false);
        }
    }
    Ok(true)
}

// The list, up to its end or a line that is malformed. False: there is such a line. The last line may lack its end.
fn all(rt: &impl Print, input: &mut impl Read, tally: &mut Tally) -> io::Result<bool> {
    let mut line = Line::EMPTY;
    let mut buffer = [0; 65536];
    for _ in 0..u64::MAX {
        let n = input.read(&mut buffer)?;
        if n == 0 {
            break;
        }
        for b in &buffer[..n] {
            if !fed(rt, tally, &mut line, *b)? {
                return Ok(false);
            }
        }
    }
    Ok(line.is_empty() || fed(rt, tally, &mut line, b'\n')?)
}

fn main(rt: HostRuntime) -> io::Result<()> {
    let mut tally = Tally::default();
    if all(&rt, &mut rt.reader(), &mut tally)? {
        println!(rt; "{} cases, {} agree", tally.lines, tally.agree)?;
    }
    Ok(())
}
