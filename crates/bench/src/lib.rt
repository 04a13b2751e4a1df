// The bench module: a pluggable module's two pages and its receiver, on the two lines that I2CCTL drives.
#![tactic(auto, unfolding(crate::specs::Bench::under, crate::specs::Bench::next_offset, crate::specs::Bench::acted, crate::specs::Bench::page_of, crate::specs::Bench::with_page, crate::specs::Bench::takes_edge, crate::specs::Bench::pulls_low))]

ghost use Rattle.std.specs.Prelude.{◌≡◌, true, slice_set};
ghost use Rattle.bench.specs.Bench.{next_offset, under, acted, page_of, with_page, takes_edge, pulls_low};
ghost use Rattle.bench.specs.Edges.{edge_of};

pub mod at_once;
pub mod lent;
pub mod receiver;
pub mod register;
pub mod view;

use receiver::{Act, Chosen, Edge, Receiver};

// 256 bytes, and the offset at which the next one is read or stored.
#[derive(Clone, Copy)]
pub struct Page {
    pub offset: u8,
    pub bytes: [u8; 256],
}

#[derive(Clone, Copy)]
pub struct Bench {
    pub receiver: Receiver,
    pub a0: Page,
    pub a2: Page,
}

// The byte at the page's offset.
pub fn under(page: Page) -> u8
    ensures { result ≡ under page }
{
    page.bytes[page.offset as usize]
}

// The page at another offset.
fn at(page: Page, offset: u8) -> Page
    ensures { result ≡ record { offset = offset; bytes = page.bytes } }
{
    Page { offset, ..page }
}

// After offset 255 comes offset 0.
fn next_offset(offset: u8) -> u8
    ensures { result ≡ next_offset offset }
{
    offset.wrapping_add(1)
}

fn stored(page: Page, byte: u8) -> Page
    ensures { result ≡ record { offset = next_offset page.offset; bytes = slice_set page.bytes page.offset byte } }
{
    let mut bytes = page.bytes;
    bytes[page.offset as usize] = byte;
    Page {
        offset: next_offset(page.offset),
        bytes,
    }
}

// What the receiver asked of the page.
pub fn acted(act: Act, page: Page) -> Page
    ensures { result ≡ acted act page }
{
    match act {
        Act::Nothing => page,
        Act::Offset(n) => at(page, n),
        Act::Store(b) => stored(page, b),
        Act::Next => at(page, next_offset(page.offset)),
    }
}

// The page chosen.
pub fn current(b: Bench) -> Page
    ensures { result ≡ page_of b.receiver.page b }
{
    match b.receiver.page {
        Chosen::A0 => b.a0,
        Chosen::A2 => b.a2,
    }
}

fn with_page(chosen: Chosen, act: Act, receiver: Receiver, b: Bench) -> Bench
    ensures { result ≡ with_page chosen act receiver b }
{
    match chosen {
        Chosen::A0 => Bench {
            receiver,
            a0: acted(act, b.a0),
            ..b
        },
        Chosen::A2 => Bench {
            receiver,
            a2: acted(act, b.a2),
            ..b
        },
    }
}

// One edge of the lines.
pub fn take(e: Edge, b: Bench) -> Bench
    ensures { result ≡ takes_edge (edge_of e) b }
{
    let moved = lent::lend(b.receiver, e);
    with_page(b.receiver.page, moved.act, moved.receiver, b)
}

// Whether the module pulls SDA low.
pub fn pulls_low(b: Bench) -> bool
    ensures { result ≡ pulls_low b }
{
    receiver::pulls(b.receiver, under(current(b)))
}

// Whether no byte differs.
pub fn same(before: Bench, after: Bench) -> bool
    ensures { (result ≡ true → (before.a0.bytes ≡ after.a0.bytes) × (before.a2.bytes ≡ after.a2.bytes)) × ((before.a0.bytes ≡ after.a0.bytes) × (before.a2.bytes ≡ after.a2.bytes) → result ≡ true) }
{
    before.a0.bytes == after.a0.bytes && before.a2.bytes == after.a2.bytes
}
