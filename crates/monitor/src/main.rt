// Reads the temperature and the light of modules on the bench, where every lock and grant comes at once. The words of the
// command line name images of modules; each is opened before anything is printed.
#![tactic(auto)]

mod decimals;
mod power;
mod readings;
mod record;

use image::words;
use std::io;
use std::rt::{Env, Files};

// Whether each word names an image; standard error says what the first does not name.
fn readable<R: Env + Files + Eprint>(rt: &R, count: usize) -> io::Result<bool> {
    for place in 1..count {
        if words::image(rt, place, &mut [0; words::LONGEST])?.is_none() {
            return Ok(false);
        }
    }
    Ok(true)
}

// A file may have changed since it was opened first, or be one that can be read only once.
fn all<R: Env + Files + Print + Eprint>(rt: &R, count: usize) -> io::Result<()> {
    for place in 1..count {
        let mut buffer = [0; words::LONGEST];
        if let Some((path, image)) = words::image(rt, place, &mut buffer)? {
            // An empty line before each but the first.
            if 1 < place {
                println!(rt)?;
            }
            record::all(rt, path, image)?;
        }
    }
    Ok(())
}

fn main(rt: HostRuntime) -> io::Result<()> {
    let count = words::count(&rt);
    if count < 2 {
        eprintln!(rt; "no word names an image: the words are IMAGE...")?;
    } else if readable(&rt, count)? {
        all(&rt, count)?;
    }
    Ok(())
}
