// `read_byte`, `write_byte`, `read_combined` and `write_combined`: attempts under the lock and the QSFP handshake.
#![tactic(auto, unfolding(crate::specs::I2c::mask, hardware::specs::Prog::pick, crate::specs::I2c::attempts, crate::specs::I2c::qsfp))]

ghost use Rattle.std.specs.Prelude.{◌≡◌};
ghost use Rattle.i2c.specs.I2c.{mask, attempts, qsfp, standard};

use hardware::{Family, Port};
use transfer::attempt::Sequence;

pub mod calls;
pub mod direct;
pub mod handshake;
pub mod once;
pub mod retry;

pub const QSFP_DEVICE: u16 = 0x1558;

// How a transfer is made. lock: under the bits that guard the port's bus. sequence: the clearing after a failed attempt, by
// its name.
#[derive(Clone, Copy)]
pub struct How {
    pub lock: bool,
    pub sequence: Sequence,
}

// The clearing sequence of a call that names none.
pub fn standard() -> Sequence
    ensures { result ≡ standard }
{
    Sequence::Rounds
}

// The bits that guard the port's bus.
pub fn mask(port: Port) -> u32
    ensures { result ≡ mask port }
{
    let family = port.family;
    if bus::x550em(family) {
        return sync::regs::SHARED_I2C;
    }
    sync::regs::phy(port.lan)
}

// Read attempts for a byte.
pub fn attempts(port: Port) -> u32
    ensures { result ≡ attempts port }
{
    let family = port.family;
    if bus::x550em(family) {
        return 4;
    }
    11
}

// The 82599 with PCI device 1558: its bus is shared by the ports.
pub fn qsfp(port: Port) -> bool
    ensures { result ≡ qsfp port }
{
    let family = port.family;
    if family.is(Family::F82599) {
        return port.device == QSFP_DEVICE;
    }
    false
}
