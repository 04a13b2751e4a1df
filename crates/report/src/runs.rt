// The calls, run on the bench.
use bench::register::BenchState;
use hardware::{Port, Told};
use onbench::Run;
use page::sums::Paged;
use transfer::attempt::Sequence;

// How the call of a page ended, how many transfers it made, and what it read.
#[derive(Clone, Copy)]
pub struct PageEnd {
    pub paged: Paged,
    pub transfers: u32,
    pub bytes: [u8; 96],
}

// More accesses than a page makes where every lock and grant comes at once.
const MOST_ACCESSES: u64 = 1_000_000_000;

fn family_number(port: Port) -> u32 {
    u32::from(hardware::family_number(port.family))
}

pub(crate) fn identify(port: Port, start: BenchState, sequence: Sequence) -> Run {
    let lan = u32::from(port.lan);
    onbench::identify_at_once(family_number(port), port.device, lan, start, sequence)
}

// The page, with the attempts that the port's later requests have. None where the call does not end.
pub(crate) fn page(port: Port, start: BenchState, sequence: Sequence) -> Option<PageEnd> {
    let mut state = start;
    let mut bytes = [0; 96];
    let mut told = page::calls::page_open_with(
        family_number(port),
        port.device,
        u32::from(port.lan),
        i2c::attempts(port),
        &bytes,
        sequence,
    );
    for _ in 0..MOST_ACCESSES {
        match told {
            Ok(Told::Ask(x, s)) => {
                let a = bench::at_once::met(port, &mut state, x);
                told = page::calls::page_step(s, &mut bytes, a);
            }
            Ok(Told::End((paged, meter))) => {
                let transfers = meter.transfers;
                return Some(PageEnd {
                    paged,
                    transfers,
                    bytes,
                });
            }
            Err(_) => return None,
        }
    }
    None
}
