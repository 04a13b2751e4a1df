// Reads a byte of the bench module from every stage of its receiver, on both layouts of I2CCTL and on the X552's port 1, which
// reaches the module through a mux, with four words there at the start and with both clearing sequences. A line is a state, and
// says whether the module pulls SDA; for each word it has the byte or I2c, the transfers made, the receiver at the end, the lines
// (free: nobody pulls either) and the bytes of both pages, where some changed with the offset of the page chosen.
#![tactic(auto)]

mod host;
mod print;
mod start;

use bench::receiver::Stage;
use host::Setup;
use start::Row;
use std::io;
use transfer::attempt::Sequence;

// None where the port is refused.
fn opened(number: u32, device: u16, lan: u32, sequence: Sequence) -> Option<Setup> {
    match hardware::open_port(number, device, lan) {
        Ok(port) => Some(Setup {
            number,
            port,
            sequence,
        }),
        Err(_) => None,
    }
}

fn print_table(rt: &impl Print, name: &str, setup: Option<Setup>) -> io::Result<()> {
    let Some(setup) = setup else {
        return println!(rt; "refused");
    };
    print::print_title(rt, name, setup)?;
    for n in 0..start::ROWS {
        print::print_line(rt, setup, start::row_at(n))?;
    }
    Ok(())
}

// Why S-6 asks that the master pull neither line when the mux is switched on: the next fall of SCL makes the module pull SDA, or
// release it.
fn print_left_out(rt: &impl Print) -> io::Result<()> {
    let Some(setup) = opened(3, 0x15ac, 1, Sequence::Rounds) else {
        return println!(rt; "refused");
    };
    println!(rt;
        "X552 port 1, SCL pulled (I2CCTL ffffddff) while ESDP is 00000000: starts that S-6 leaves out. As the"
    )?;
    println!(rt;
        "mux is switched on, SCL falls at the module: one transfer too many is made, or one too few"
    )?;
    print::print_left_out(rt, setup, Row::plain(Stage::Address(8)))?;
    print::print_left_out(rt, setup, Row::plain(Stage::AckWrite))
}

fn main(rt: HostRuntime) -> io::Result<()> {
    let tables = [
        ("82599", 0, 0x10fb, 0, Sequence::Rounds),
        ("X552", 3, 0x15ac, 0, Sequence::Rounds),
        ("82599", 0, 0x10fb, 0, Sequence::Pulses),
        ("X552", 3, 0x15ac, 0, Sequence::Pulses),
        ("X552 port 1", 3, 0x15ac, 1, Sequence::Rounds),
        ("X552 port 1", 3, 0x15ac, 1, Sequence::Pulses),
    ];
    for (name, number, device, lan, sequence) in tables {
        print_table(&rt, name, opened(number, device, lan, sequence))?;
    }
    print_left_out(&rt)
}
