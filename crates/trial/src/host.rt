// The host: I2CCTL is the bench module's, and ESDP where the port has a mux; at every other register locks and grants come at
// once.

use bench::register::BenchState;
use hardware::{Port, R, Told};
use i2c::calls::TransferTold;
use transfer::attempt::Sequence;

// The byte of A0 that is read.
pub const OFFSET: u8 = 0x2a;

// More accesses than any of the calls makes.
const BUDGET: u32 = 20_000;

// What a table is of: a port, with the number of its family, and a clearing sequence.
#[derive(Clone, Copy)]
pub struct Setup {
    pub number: u32,
    pub port: Port,
    pub sequence: Sequence,
}

// The end of a call: its value, and the transfers made.
#[derive(Clone, Copy)]
pub struct End {
    pub value: R<u32>,
    pub made: u32,
}

// None where the call is refused or too long.
fn run(port: Port, d: &mut BenchState, first: TransferTold) -> Option<End> {
    let mut told = first;
    for _ in 0..BUDGET {
        match told {
            Ok(Told::Ask(x, s)) => told = i2c::calls::transfer_step(
                s,
                bench::at_once::met(port, d, x),
            ),
            Ok(Told::End((value, m))) => {
                return Some(End {
                    value,
                    made: m.transfers,
                });
            }
            Err(_) => return None,
        }
    }
    None
}

impl Setup {
    // `read_byte` of A0 under the lock, with the family's attempts.
    pub(crate) fn read(&self, d: &mut BenchState) -> Option<End> {
        let port = self.port;
        let first = i2c::calls::read_byte_open_with(
            self.number,
            port.device,
            u32::from(port.lan),
            0xa0,
            OFFSET,
            i2c::attempts(port),
            true,
            self.sequence,
        );
        run(port, d, first)
    }
}
