// The record of one image, a field to a line.
ghost use Rattle.std.specs.Prelude.{◌≤◌, length};

use crate::print::Named;
use crate::runs::PageEnd;
use bench::Bench;
use bench::register::BenchState;
use hardware::{Family, Port};
use image::print::shown;
use onbench::{Ending, Run};
use sfp::Identity;
use std::fmt::{Display, Formatter};
use std::{fmt, io};
use transfer::attempt::Sequence;

// What one run gave. start: the state in which the module was found. page: how the call of the page ended, if it did.
#[derive(Clone, Copy)]
pub struct Record {
    pub port: Port,
    pub start: BenchState,
    pub sequence: Sequence,
    pub run: Run,
    pub page: Option<PageEnd>,
}

fn yes_no(yes: bool) -> &'static str {
    if yes { "yes" } else { "no" }
}

// Without the blanks at the end.
fn trimmed(bytes: &[u8]) -> &[u8]
    ensures { length result.now ≤ length bytes.now }
{
    match bytes.iter().rposition(|b| *b != b' ') {
        Some(last) => &bytes[..last + 1],
        None => &[],
    }
}

// The texts, or the number of the failure instead of them.
fn page(rt: &impl Print, end: PageEnd) -> io::Result<()> {
    let PageEnd {
        paged,
        transfers,
        bytes,
    } = end;
    match paged {
        Ok(()) => {
            println!(rt; "page        {transfers} transfers, both sums right")?;
            println!(rt; "vendor      {}", shown(trimmed(&bytes[20..36])))?;
            println!(rt; "part        {}", shown(trimmed(&bytes[40..56])))?;
            println!(rt; "serial      {}", shown(trimmed(&bytes[68..84])))
        }
        Err(_) => {
            let number = page::sums::paged_number(paged);
            println!(rt; "page        failed {number} after {transfers} transfers")
        }
    }
}

// The offsets of both pages.
#[derive(Clone, Copy)]
struct Offsets(u8, u8);

impl Offsets {
    fn of(b: Bench) -> Offsets {
        Offsets(b.a0.offset, b.a2.offset)
    }
}

impl Display for Offsets {
    fn fmt<W: fmt::Write>(&self, f: &mut Formatter<W>) -> fmt::Result {
        write!(f, "a0 {:02x}, a2 {:02x}", self.0, self.1)
    }
}

fn start(rt: &impl Print, d: BenchState) -> io::Result<()> {
    let r = d.bench.receiver;
    print!(rt;
        "start       {}, taken {:02x}, page {}",
        Named(r.stage),
        r.bits,
        Named(r.page)
    )?;
    let next = if r.first { "offset" } else { "data" };
    let sda = if r.noted { "high" } else { "low" };
    println!(rt; ", next {next}, sda {sda}, {}", Offsets::of(d.bench))?;
    let pulls = if bench::pulls_low(d.bench) {
        "pulls"
    } else {
        "does not pull"
    };
    println!(rt; "control     {:08x}; the module {pulls} SDA", d.word)
}

// ESDP, where the port has a mux.
fn mux(rt: &impl Print, name: &str, port: Port, d: BenchState) -> io::Result<()> {
    if bench::register::has_mux(port) {
        let mux = if hardware::none_of(d.esdp, 2) {
            "off"
        } else {
            "on"
        };
        println!(rt; "{name:<11} {:08x}; the mux is {mux}", d.esdp)?;
    }
    Ok(())
}

fn module(rt: &impl Print, family: Family, m: Identity) -> io::Result<()> {
    let supported = sfp::methods::supported(sfp::methods::record(m), family);
    println!(rt; "kind        {}", Named(m.kind))?;
    println!(rt; "multispeed  {}", yes_no(m.multispeed))?;
    println!(rt; "identifier  {:02x}", m.identifier)?;
    println!(rt; "comp_10g    {:02x}", m.comp10g)?;
    println!(rt; "comp_1g     {:02x}", m.comp1g)?;
    println!(rt; "cable       {:02x}", m.cable)?;
    println!(rt; "supported   {}", yes_no(supported))
}

fn slowest(rt: &impl Print, sample: u8) -> io::Result<()> {
    match sample {
        0 => println!(rt; "slowest acknowledgement: none"),
        _ => println!(rt; "slowest acknowledgement: sample {sample} of 10"),
    }
}

// Only the first is met: every lock and grant comes, and the port was opened before.
fn ending(rt: &impl Print, family: Family, ending: Ending) -> io::Result<()> {
    match ending {
        Ending::Ended(identified, meter) => {
            match identified {
                Ok(m) => module(rt, family, m)?,
                Err(e) => println!(rt; "failed      {}", hardware::error_number(e))?,
            }
            println!(rt; "transfers   {}", meter.transfers)?;
            slowest(rt, meter.slowest)
        }
        Ending::Short => println!(rt; "the call did not end"),
        Ending::Stopped(_) => println!(rt; "the call was refused"),
    }
}

fn module_left(rt: &impl Print, family: Family, before: Bench, d: BenchState) -> io::Result<()> {
    let released = bench::register::released(family, d);
    let lines = if released {
        "both lines released"
    } else {
        "a line held low"
    };
    let bytes = if bench::same(before, d.bench) {
        "same"
    } else {
        "changed"
    };
    let stage = Named(d.bench.receiver.stage);
    println!(rt;
        "module      {stage}, {lines}, bytes {bytes}, {}",
        Offsets::of(d.bench)
    )
}

impl Record {
    pub(crate) fn print(&self, rt: &impl Print) -> io::Result<()> {
        let Port {
            family,
            device,
            lan,
        } = self.port;
        println!(rt;
            "port        {}, port number {lan}, PCI device {device:04x}",
            Named(family)
        )?;
        start(rt, self.start)?;
        mux(rt, "esdp", self.port, self.start)?;
        println!(rt; "sequence    {}", Named(self.sequence))?;
        ending(rt, family, self.run.ending)?;
        module_left(rt, family, self.start.bench, self.run.state)?;
        mux(rt, "esdp after", self.port, self.run.state)?;
        match self.page {
            Some(end) => page(rt, end),
            // Not met: the port was opened before, and the buffer has 96 bytes.
            None => println!(rt; "the page's call did not end"),
        }
    }
}
