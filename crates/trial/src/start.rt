// The starts: the bench module in every stage of its receiver, and four words of I2CCTL for each layout; four with ESDP where the
// port has a mux.
ghost use Rattle.std.specs.Prelude.{◌≡◌, ℕ, ◌+◌, ◌%◌, ◌<◌, true, slice_index};
ghost use Rattle.bus.specs.Layout.{L82599, LX552, layout_of};
ghost use Rattle.wire.specs.Lines.{ready, Rests};
ghost use Rattle.wire.specs.Always.{nobody};
ghost use Rattle.bench.specs.Bench.{under};

use bench::receiver::{Chosen, Receiver, Stage};
use bench::register::BenchState;
use bench::{Bench, Page};
use hardware::Port;
use std::array;

// The states of the receiver, and the words at the start.
pub const ROWS: u8 = 39;

pub const COLUMNS: u8 = 4;

// sent: the byte at the offset of the page chosen, which the module sends in the state Send.
#[derive(Clone, Copy)]
pub struct Row {
    pub stage: Stage,
    pub noted: bool,
    pub sent: u8,
}

impl Row {
    pub(crate) fn plain(stage: Stage) -> Self {
        Row {
            stage,
            noted: true,
            sent: 0x5a,
        }
    }

    // From the highest, the bits of 5a are 0, 1, 0, 1, 1, 0, 1, 0; those of a5 are the others.
    fn sending(place: u8, bit: u8) -> Self {
        let five = match place {
            0 | 2 | 5 | 7 => bit == 0,
            _ => bit == 1,
        };
        Row {
            sent: if five { 0x5a } else { 0xa5 },
            ..Row::plain(Stage::Send(place))
        }
    }

    fn listening(noted: bool) -> Self {
        Row {
            noted,
            ..Row::plain(Stage::Listen)
        }
    }
}

// State n: Send with each place's bit 0 and 1, Listen with SDA noted low and high.
pub(crate) fn row_at(n: u8) -> Row {
    match n {
        0 => Row::plain(Stage::Idle),
        1..=9 => Row::plain(Stage::Address(n - 1)),
        10..=18 => Row::plain(Stage::Receive(n - 10)),
        19 => Row::plain(Stage::AckRead),
        20 => Row::plain(Stage::AckWrite),
        21..=36 => Row::sending((n - 21) / 2, (n - 21) % 2),
        37 => Row::listening(false),
        _ => Row::listening(true),
    }
}

// Both lines pulled, SDA only, SCL only, neither.
#[tactic(auto, unfolding(wire::specs::Lines::ready, wire::specs::Lines::banging, hardware::specs::Registers::none_of))]
fn early(column: u8) -> u32
    ensures { ready L82599 result ≡ true }
{
    match column {
        0 => 0x0000_0000,
        1 => 0xffff_fff7,
        2 => 0xffff_fffd,
        _ => 0x0000_000a,
    }
}

// The same, the last with BB_EN clear and both enables off.
#[tactic(auto, unfolding(wire::specs::Lines::ready, wire::specs::Lines::banging, hardware::specs::Registers::none_of))]
fn late(column: u8) -> u32
    ensures { ready LX552 result ≡ true }
{
    match column {
        0 => 0x0000_0100,
        1 => 0xffff_f3ff,
        2 => 0xffff_ddff,
        _ => 0x0000_2800,
    }
}

// With a mux the master pulls neither line: BB_EN is clear and both enables off, or both outputs are high.
#[tactic(auto, unfolding(wire::specs::Lines::ready, wire::specs::Lines::banging, wire::specs::Lines::master, wire::specs::Lines::pulls_sda, wire::specs::Lines::pulls_scl, wire::specs::Lines::pulling, hardware::specs::Registers::none_of))]
fn apart(column: u8) -> u32
    ensures { Rests LX552 nobody result }
{
    match column {
        0 | 1 => 0x0000_2800,
        _ => 0xffff_d7ff,
    }
}

// I2CCTL at the start, of the four: every one is allowed.
#[tactic(auto, unfolding(bus::specs::Layout::layout_of, hardware::specs::Prog::pick))]
pub(crate) fn word(port: Port, column: u8) -> u32
    ensures { ready (layout_of port.family) result ≡ true }
{
    if !bus::x550em(port.family) {
        return early(column);
    }
    if bench::register::has_mux(port) {
        apart(column)
    } else {
        late(column)
    }
}

// ESDP at the start, with the mux off in every second one; in each some bit besides bit 1 is clear, bit 31.
pub(crate) fn esdp(column: u8) -> u32
    ensures { result < 0x80000000 }
{
    match column {
        0 => 0x0000_0000,
        1 => 0x0000_0002,
        2 => 0x7fff_fffd,
        _ => 0x7fff_ffff,
    }
}

// With the first two words A0 is chosen, with the others A2; with every second one the next byte is the offset. The bits
// taken are those of the address A0.
fn receiver(row: Row, column: u8) -> Receiver {
    Receiver {
        stage: row.stage,
        bits: 0xa0,
        page: if column < 2 { Chosen::A0 } else { Chosen::A2 },
        first: column % 2 == 0,
        noted: row.noted,
    }
}

// Byte i is FIRST + i, and after 255 comes 0.
fn counted<const FIRST: u8>() -> [u8; 256]
    ensures { (i : ℕ) → i < 256 → slice_index result i ≡ (FIRST + i) % 256 }
{
    array::from_fn(
        |i|
            requires { i < 256 }
            ensures { result ≡ (FIRST + i) % 256 }
        { FIRST.wrapping_add(i as u8) },
    )
}

// Byte i of A0 is i + 11, of A2 it is i + 91 (hexadecimal): at both offsets stands the row's byte.
#[tactic(auto, unfolding(bench::specs::Bench::under))]
fn module(row: Row, column: u8) -> Bench
    ensures { (under result.a0 ≡ row.sent) × (under result.a2 ≡ row.sent) }
{
    let receiver = receiver(row, column);
    let a0 = Page {
        offset: row.sent.wrapping_sub(0x11),
        bytes: counted::<0x11>(),
    };
    let a2 = Page {
        offset: row.sent.wrapping_sub(0x91),
        bytes: counted::<0x91>(),
    };
    Bench { receiver, a0, a2 }
}

pub(crate) fn state(port: Port, row: Row, column: u8) -> BenchState
    ensures { ready (layout_of port.family) result.word ≡ true }
{
    BenchState {
        word: word(port, column),
        esdp: esdp(column),
        bench: module(row, column),
    }
}

// A start that S-6 leaves out: the master pulls SCL while the mux is off.
pub(crate) fn pulled(row: Row) -> BenchState
    ensures { result.word ≡ 0xffffddff }
{
    BenchState {
        word: 0xffff_ddff,
        esdp: 0,
        bench: module(row, 2),
    }
}
