// The call of light and temperature on the bench: the module Idle, an 82599, port number 0.
use bench::receiver::{Chosen, Receiver, Stage};
use bench::register::BenchState;
use bench::{Bench, Page};
use hardware::{Family, Port, Told};
use image::files::Image;
use light::sensed::Measured;

// How the call ended, and how many transfers it made.
#[derive(Clone, Copy)]
pub struct End {
    pub measured: Measured,
    pub transfers: u32,
}

const PORT: Port = Port {
    family: Family::F82599,
    device: 0x10fb,
    lan: 0,
};

// One attempt at each byte is enough where every byte is acknowledged.
const ATTEMPTS: u32 = 1;

// I2CCTL with both lines released.
const RELEASED: u32 = 0x0000_000a;

// More accesses than the call makes where every lock and grant comes at once.
const MOST_ACCESSES: u64 = 1_000_000_000;

// A page with the offset 0.
fn at_start(bytes: [u8; 256]) -> Page {
    Page { offset: 0, bytes }
}

fn idle(image: Image) -> BenchState {
    let receiver = Receiver {
        stage: Stage::Idle,
        bits: 0,
        page: Chosen::A0,
        first: false,
        noted: true,
    };
    let Image { a0, a2 } = image;
    let bench = Bench {
        receiver,
        a0: at_start(a0),
        a2: at_start(a2),
    };
    BenchState {
        word: RELEASED,
        esdp: 0,
        bench,
    }
}

// None where the call does not end.
pub(crate) fn read(image: Image) -> Option<End> {
    let mut state = idle(image);
    let family = u32::from(hardware::family_number(PORT.family));
    let mut told = light::calls::light_open(family, PORT.device, u32::from(PORT.lan), ATTEMPTS);
    for _ in 0..MOST_ACCESSES {
        match told {
            Ok(Told::Ask(x, s)) => told = light::calls::light_step(
                s,
                bench::at_once::met(PORT, &mut state, x),
            ),
            Ok(Told::End((measured, meter))) => {
                return Some(End {
                    measured,
                    transfers: meter.transfers,
                });
            }
            Err(_) => return None,
        }
    }
    None
}
