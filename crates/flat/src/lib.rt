// The states of the calls as numbers, for hosts outside of Rattle: numbers of each width in a row, an enum with its tag
// first; the variants share the numbers behind it. A tag that is none reads as the last variant. Written by `derive`.
#![tactic(auto)]

ghost use Rattle.std.specs.Prelude.{◌≡◌};
ghost use Rattle.flat.specs.Pick.{bit, set};

pub mod of_acquire;
pub mod of_bus;
pub mod of_hardware;
pub mod of_hostif;
pub mod of_i2c;
pub mod of_identify;
pub mod of_light;
pub mod of_page;
pub mod of_sfp;
pub mod of_softrate;
pub mod of_sync;
pub mod of_transfer;

// Any numbers are a state. call: which call it is of, by its number below; of another number it is none.
//
//  0 `i2c::TransferCall`
//  1 `i2c::SetupCall`
//  2 `identify::IdentifyCall`
//  3 `softrate::RateCall`
//  4 `light::LightCall`
//  5 `acquire::AcquireCall`
//  6 `acquire::ReleaseCall`
//  7 `hostif::TokenCall`
//  8 `hostif::CommandCall`
//  9 `transfer::ScriptCall`
// 10 `page::PageCall`
#[repr(C)]
#[derive(Clone, Copy)]
pub struct State {
    pub call: u8,
    pub tag: u8,
    pub b1: u8,
    pub b2: u8,
    pub b3: u8,
    pub b4: u8,
    pub b5: u8,
    pub b6: u8,
    pub b7: u8,
    pub b8: u8,
    pub b9: u8,
    pub b10: u8,
    pub b11: u8,
    pub b12: u8,
    pub b13: u8,
    pub b14: u8,
    pub b15: u8,
    pub b16: u8,
    pub b17: u8,
    pub b18: u8,
    pub b19: u8,
    pub b20: u8,
    pub b21: u8,
    pub b22: u8,
    pub b23: u8,
    pub h0: u16,
    pub h1: u16,
    pub h2: u16,
    pub h3: u16,
    pub h4: u16,
    pub h5: u16,
    pub h6: u16,
    pub w0: u32,
    pub w1: u32,
    pub w2: u32,
    pub w3: u32,
    pub w4: u32,
    pub w5: u32,
    pub w6: u32,
    pub w7: u32,
    pub w8: u32,
    pub z0: usize,
}

#[tactic(auto, unfolding(crate::specs::Pick::bit))]
pub fn bit(b: bool) -> u8
    ensures { result ≡ bit b }
{
    if b {
        return 1;
    }
    0
}

#[tactic(auto, unfolding(crate::specs::Pick::set))]
pub fn set(n: u8) -> bool
    ensures { result ≡ set n }
{
    n != 0
}
