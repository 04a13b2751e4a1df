// The module bus through I2CCTL: its two layouts, the line calls of `Bus`, and the commands as lists of line calls.
#![tactic(auto, unfolding(crate::specs::Layout::x550em, crate::specs::Layout::layout_of, hardware::specs::Prog::pick, crate::specs::Bus::is_i2c, hardware::specs::Failures::failure_of))]

ghost use Rattle.std.specs.Prelude.{◌≡◌};
ghost use Rattle.hardware.specs.Failures.{failure_of};
ghost use Rattle.bus.specs.Layout.{layout_of, x550em};
ghost use Rattle.bus.specs.Bus.{is_i2c};

use hardware::{Error, Family};

pub mod clear;
pub mod command;
pub mod job;
pub mod line;
pub mod quick;
pub mod rounds;

// I2CCTL: its register and the masks of its bits. Only the X552 and X553 have the last three: two active-low output
// enables and the bit-bang enable; they are 0 elsewhere.
#[derive(Clone, Copy)]
pub struct Layout {
    pub reg: u32,
    pub sclin: u32,
    pub sclout: u32,
    pub sdain: u32,
    pub sdaout: u32,
    pub sdaoen: u32,
    pub scloen: u32,
    pub bben: u32,
}

// The last three bytes read, the newest last; no transfer of `i2c.rs` reads more.
#[derive(Clone, Copy)]
pub struct Taken {
    pub high: u8,
    pub low: u8,
    pub last: u8,
}

// The X552 and X553.
pub fn x550em(family: Family) -> bool
    ensures { result ≡ x550em family }
{
    match family {
        Family::F82599 => false,
        Family::X540 => false,
        Family::X550 => false,
        Family::X552 => true,
        Family::X553 => true,
    }
}

pub fn layout_of(family: Family) -> Layout
    ensures { result ≡ layout_of family }
{
    if x550em(family) {
        return Layout {
            reg: 0x1_5f5c,
            sclin: 0x4000,
            sclout: 0x0200,
            sdain: 0x1000,
            sdaout: 0x0400,
            sdaoen: 0x0800,
            scloen: 0x2000,
            bben: 0x0100,
        };
    }
    Layout {
        reg: 0x0_0028,
        sclin: 1,
        sclout: 2,
        sdain: 4,
        sdaout: 8,
        sdaoen: 0,
        scloen: 0,
        bben: 0,
    }
}

pub fn is_i2c(e: Error) -> bool
    ensures { result ≡ is_i2c (failure_of e) }
{
    match e {
        Error::Io => false,
        Error::Removed => false,
        Error::Semaphore(_) => false,
        Error::I2c(_) => true,
        Error::HostInterface(_) => false,
        Error::Firmware(_, _) => false,
    }
}
