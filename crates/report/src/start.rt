// The starts: the module, I2CCTL and ESDP as a reset left them.
ghost use Rattle.std.specs.Prelude.{◌≡◌, true, false};
ghost use Rattle.bus.specs.Layout.{layout_of};
ghost use Rattle.report.specs.Start.{HasPages};
ghost use Rattle.wire.specs.Lines.{ready};

use crate::settings::Settings;
use bench::receiver::{Chosen, Receiver, Stage};
use bench::register::BenchState;
use bench::{Bench, Page};
use hardware::Family;
use image::files::Image;

// The table's states: each stage of the receiver, Send n with the bit 0 and 1, Listen with SDA noted low and high.
pub const STATES: u8 = 39;

// Two of them by number: a number stays plainer than an enum where the states are only counted through.
pub const IDLE: u8 = 0;

pub const ACK_WRITE: u8 = 20;

// I2CCTL with both lines released: on the X552's layout with BB_EN clear and both enables off.
#[tactic(auto, unfolding(bus::specs::Layout::layout_of, hardware::specs::Prog::pick, wire::specs::Lines::ready, wire::specs::Lines::banging, hardware::specs::Registers::none_of))]
fn released(family: Family) -> u32
    ensures { ready (layout_of family) result ≡ true }
{
    if bus::x550em(family) {
        0x0000_2800
    } else {
        0x0000_000a
    }
}

fn bench(receiver: Receiver, image: Image, offsets: [u8; 2]) -> Bench
    ensures pages { HasPages image result }
    ensures kept { result.receiver ≡ receiver }
{
    let Image { a0, a2 } = image;
    let [first, second] = offsets;
    let a0 = Page {
        offset: first,
        bytes: a0,
    };
    let a2 = Page {
        offset: second,
        bytes: a2,
    };
    Bench { receiver, a0, a2 }
}

// The start that the settings describe, with the image's pages. Where no word says otherwise: Idle, no bits taken, page A0, data
// next, SDA noted high, both offsets 0, both lines released by the driver, ESDP 0.
pub(crate) fn described(family: Family, s: Settings, image: Image) -> BenchState
    ensures { HasPages image result.bench }
{
    let receiver = Receiver {
        stage: s.stage.unwrap_or(Stage::Idle),
        bits: s.taken.unwrap_or(0),
        page: s.page.unwrap_or(Chosen::A0),
        first: s.first.unwrap_or(false),
        noted: s.noted.unwrap_or(true),
    };
    let bench = bench(receiver, image, [s.a0.unwrap_or(0), s.a2.unwrap_or(0)]);
    BenchState {
        word: s.control.map_or(released(family), |control| control.word),
        esdp: s.esdp.unwrap_or(0),
        bench,
    }
}

// Offsets at which a shipped image has the bytes ff and 00.
const ONES: u8 = 0x60;

const ZEROS: u8 = 0x80;

// The stage of state n.
fn stage(n: u8) -> Stage {
    match n {
        1..=9 => Stage::Address(n - 1),
        10..=18 => Stage::Receive(n - 10),
        19 => Stage::AckRead,
        ACK_WRITE => Stage::AckWrite,
        21..=36 => Stage::Send((n - 21) / 2),
        37 | 38 => Stage::Listen,
        _ => Stage::Idle,
    }
}

// State n of the table, on a family's port without a mux and with both lines released by the driver. In each the bits taken
// are a0, the page is A0, and data comes next. Of the states of Send every second one sends a 1.
pub(crate) fn state(family: Family, n: u8, image: Image) -> BenchState
    ensures released { ready (layout_of family) result.word ≡ true }
    ensures not_first { result.bench.receiver.first ≡ false }
    ensures pages { HasPages image result.bench }
{
    let receiver = Receiver {
        stage: stage(n),
        bits: 0xa0,
        page: Chosen::A0,
        first: false,
        noted: n != 37,
    };
    let offset = if n % 2 == 0 { ONES } else { ZEROS };
    let bench = bench(receiver, image, [offset, offset]);
    BenchState {
        word: released(family),
        esdp: 0,
        bench,
    }
}
