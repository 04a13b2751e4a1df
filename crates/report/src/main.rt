// Identifies a module on the bench, where every lock and grant comes at once. The words of the command line name an image
// and the state in which a reset left the module, and the record is printed; without words the shipped images are taken
// through every stage of the receiver.
#![tactic(auto)]

mod digits;
mod faults;
mod print;
mod record;
mod runs;
mod settings;
mod start;
mod table;

use hardware::{Family, Port};
use image::files::Image;
use image::words;
use record::Record;
use settings::{Fault, Settings, Wrong};
use std::io;
use std::rt::{Env, Files};

// The record, with the page read on a copy of the bench after the identification.
fn identified(port: Port, s: Settings, image: Image) -> Record {
    let start = start::described(port.family, s, image);
    let sequence = s.sequence.unwrap_or(i2c::standard());
    let run = runs::identify(port, start, sequence);
    let page = runs::page(port, run.state, sequence);
    Record {
        port,
        start,
        sequence,
        run,
        page,
    }
}

fn run<R: Env + Files + Print + Eprint>(rt: &R, s: Settings) -> io::Result<()> {
    let Some(place) = s.image else {
        return eprintln!(rt; "no word names an image: the words are IMAGE and NAME=VALUE");
    };
    // Where no word says otherwise the port is the 82599's, port number 0, PCI device 10fb.
    let family = hardware::family_number(s.family.unwrap_or(Family::F82599));
    let (device, lan) = (s.device.unwrap_or(0x10fb), s.port.unwrap_or(0));
    let port = match hardware::open_port(u32::from(family), device, lan) {
        Ok(port) => port,
        Err(q) => return faults::port(rt, q),
    };
    if let Some(control) = s.control
        && !bench::register::ready(port.family, control.word)
    {
        let wrong = Wrong {
            place: control.place,
            fault: Fault::Control,
        };
        return faults::word(rt, wrong);
    }
    let mut buffer = [0; words::LONGEST];
    let Some((path, image)) = words::image(rt, place, &mut buffer)? else {
        return Ok(());
    };
    println!(rt; "image       {}", image::print::shown(path))?;
    identified(port, s, image).print(rt)
}

fn main(rt: HostRuntime) -> io::Result<()> {
    let count = words::count(&rt);
    match count {
        0 | 1 => table::all(&rt),
        2..=15 => match settings::all(&rt, count) {
            Ok(s) => run(&rt, s),
            Err(wrong) => faults::word(&rt, wrong),
        },
        _ => {
            eprintln!(rt;
                "{} words: at most 14 are taken, an image and 13 settings",
                count - 1
            )
        }
    }
}
