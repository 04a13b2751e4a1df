// The lines that are printed.
use crate::host::{End, OFFSET, Setup};
use crate::start;
use crate::start::Row;
use bench::receiver::Stage;
use bench::register::BenchState;
use hardware::{Port, R};
use std::{fmt, io};
use transfer::attempt::Sequence;

// What is printed of a type of another crate.
#[derive(Clone, Copy)]
struct Shown<T>(T);

impl fmt::Display for Shown<Stage> {
    fn fmt<W: fmt::Write>(&self, f: &mut fmt::Formatter<W>) -> fmt::Result {
        match self.0 {
            Stage::Idle => f.write_str("Idle"),
            Stage::Address(n) => write!(f, "Address {n}"),
            Stage::Receive(n) => write!(f, "Receive {n}"),
            Stage::AckRead => f.write_str("AckRead"),
            Stage::AckWrite => f.write_str("AckWrite"),
            Stage::Send(n) => write!(f, "Send {n}"),
            Stage::Listen => f.write_str("Listen"),
        }
    }
}

impl fmt::Display for Shown<R<u32>> {
    fn fmt<W: fmt::Write>(&self, f: &mut fmt::Formatter<W>) -> fmt::Result {
        match self.0 {
            Ok(v) => write!(f, "{v:02x}"),
            Err(e) if bus::is_i2c(e) => f.write_str("I2c"),
            Err(e) => write!(f, "failed {}", hardware::error_number(e)),
        }
    }
}

impl fmt::Display for Shown<Sequence> {
    fn fmt<W: fmt::Write>(&self, f: &mut fmt::Formatter<W>) -> fmt::Result {
        f.write_str(match self.0 {
            Sequence::Pulses => "pulses",
            Sequence::Rounds => "rounds",
        })
    }
}

// A stage up to a width of 11, with what Listen noted.
impl fmt::Display for Row {
    fn fmt<W: fmt::Write>(&self, f: &mut fmt::Formatter<W>) -> fmt::Result {
        let rest = match self.stage {
            Stage::Idle => "       ",
            Stage::Address(_) | Stage::Receive(_) => "  ",
            Stage::AckRead => "    ",
            Stage::AckWrite => "   ",
            Stage::Send(_) => "     ",
            Stage::Listen if self.noted => " high",
            Stage::Listen => " low ",
        };
        write!(f, "{}{rest}", Shown(self.stage))
    }
}

// The byte read or I2c, and the transfers made.
fn print_end(rt: &impl Print, end: Option<End>) -> io::Result<()> {
    match end {
        Some(end) => print!(rt; "{} {}", Shown(end.value), end.made),
        None => print!(rt; "unended"),
    }
}

// The receiver at the end, the lines and the bytes; where some changed, the offset of the page chosen.
fn print_module(
    rt: &impl Print,
    port: Port,
    before: BenchState,
    after: BenchState,
) -> io::Result<()> {
    let lines = if bench::register::released(port.family, after) {
        "free"
    } else {
        "held"
    };
    print!(rt; " {} {lines}", Shown(after.bench.receiver.stage))?;
    if bench::same(before.bench, after.bench) {
        print!(rt; " same")
    } else {
        print!(rt; " changed, at {:02x}", bench::current(after.bench).offset)
    }
}

fn print_run(rt: &impl Print, setup: Setup, before: BenchState) -> io::Result<()> {
    let mut after = before;
    let end = setup.read(&mut after);
    print!(rt; " | ")?;
    print_end(rt, end)?;
    print_module(rt, setup.port, before, after)
}

// The receiver at the start, and whether the module pulls SDA.
fn print_label(rt: &impl Print, port: Port, row: Row) -> io::Result<()> {
    let pulls = if bench::pulls_low(start::state(port, row, 0).bench) {
        " pulls"
    } else {
        "      "
    };
    print!(rt; "{row}{pulls}")
}

pub(crate) fn print_line(rt: &impl Print, setup: Setup, row: Row) -> io::Result<()> {
    print_label(rt, setup.port, row)?;
    for column in 0..start::COLUMNS {
        print_run(rt, setup, start::state(setup.port, row, column))?;
    }
    println!(rt)
}

// A line whose start S-6 leaves out.
pub(crate) fn print_left_out(rt: &impl Print, setup: Setup, row: Row) -> io::Result<()> {
    print_label(rt, setup.port, row)?;
    print_run(rt, setup, start::pulled(row))?;
    println!(rt)
}

// The word of each column.
fn print_words<F: Fn(u8) -> u32>(rt: &impl Print, name: &str, word: F) -> io::Result<()>
    requires { F.IsAlwaysCallable word }
{
    print!(rt; "{name:17}")?;
    for column in 0..start::COLUMNS {
        print!(rt; " |            {:08x}", word(column))?;
    }
    println!(rt)
}

// The words of I2CCTL at the start, and those of ESDP where the port has a mux.
pub(crate) fn print_title(rt: &impl Print, name: &str, setup: Setup) -> io::Result<()> {
    let port = setup.port;
    print!(rt;
        "{name}: byte {OFFSET:02x} of A0, {} attempts, ",
        i2c::attempts(port)
    )?;
    println!(rt; "cleared by {}", Shown(setup.sequence))?;
    print_words(rt, "I2CCTL", |column| start::word(port, column))?;
    if bench::register::has_mux(port) {
        print_words(rt, "ESDP", start::esdp)?;
    }
    Ok(())
}
