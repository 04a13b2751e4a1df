// The acknowledge bit: a script that sends one byte, run to its end.
use crate::host::Host;
use crate::shown::Shown;
use hardware::{R, Refusal};
use std::{fmt, io};
use transfer::calls::Said;

// The 82599, and the PCI device of its SFP+ port.
const FAMILY: u32 = 0;

const PCI: u16 = 0x10FB;

// More accesses than the script makes.
const BUDGET: u32 = 10_000;

// The result, with the count of transfers.
#[derive(Clone, Copy)]
struct End(R<()>, u32);

impl fmt::Display for End {
    fn fmt<W: fmt::Write>(&self, f: &mut fmt::Formatter<W>) -> fmt::Result {
        write!(f, "{}, transfers {}", Shown(self.0), self.1)
    }
}

// Why a call did not end.
#[derive(Clone, Copy)]
enum Unended {
    Refused(Refusal),
    TooLong,
}

impl fmt::Display for Unended {
    fn fmt<W: fmt::Write>(&self, f: &mut fmt::Formatter<W>) -> fmt::Result {
        match self {
            Unended::Refused(q) => write!(f, "{}", Shown(*q)),
            Unended::TooLong => f.write_str("not ended"),
        }
    }
}

fn run(bytes: &[u8], first: u32) -> Result<End, Unended> {
    let mut host = Host::new(first);
    let mut told = transfer::calls::script_open(FAMILY, PCI, 0, bytes);
    for _ in 0..BUDGET {
        match told {
            Ok(Said::Ask(x, s)) | Ok(Said::Read(_, x, s)) => {
                told = transfer::calls::script_step(s, bytes, host.answer(x));
            }
            Ok(Said::End(o, m)) => return Ok(End(o, m.transfers)),
            Err(q) => return Err(Unended::Refused(q)),
        }
    }
    Err(Unended::TooLong)
}

// `first`: the first sample that reads low, counted from 1.
pub(crate) fn print_send(rt: &impl Print, first: u32) -> io::Result<()> {
    print!(rt; "send, SDA first low at sample {first}: ")?;
    match run(&[0x10, 0x20, 0xA0, 0x40], first) {
        Ok(end) => println!(rt; "{end}"),
        Err(unended) => println!(rt; "{unended}"),
    }
}
