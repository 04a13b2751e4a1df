// The registers, bits and waits of the software/firmware semaphores.
#![tactic(auto, unfolding(hardware::specs::Prog::pick, crate::specs::Regs::phy, crate::specs::Regs::swsm, crate::specs::Regs::sw_fw_sync, crate::specs::Regs::bits82599, crate::specs::Regs::bits_x540, crate::specs::Regs::bits, crate::specs::Regs::mux, crate::specs::Regs::smbi_watch, crate::specs::Regs::regsmp_watch, crate::specs::Regs::back_swsm, crate::specs::Regs::clear_sync, crate::specs::Regs::set_mux, crate::specs::Regs::release_us))]

ghost use Rattle.std.specs.Prelude.{◌≡◌};
ghost use Rattle.sync.specs.Regs.{phy, swsm, sw_fw_sync, bits, bits82599, bits_x540, mux, tries, smbi_watch, regsmp_watch, back_swsm, clear_sync, set_mux, release_us};

use hardware::change::{Bits, Change};
use hardware::poll::Watch;
use hardware::{Family, Micros, Port};

pub const EEP: u32 = 1 << 0;

pub const PHY0: u32 = 1 << 1;

pub const PHY1: u32 = 1 << 2;

pub const FLASH: u32 = 1 << 4;

pub const SW_MNG: u32 = 1 << 10;

pub const I2C0: u32 = 1 << 11;

pub const I2C1: u32 = 1 << 12;
// X552 and X553: both PHYs and both I2C buses, which share one segment.
pub const SHARED_I2C: u32 = PHY0 | PHY1 | I2C0 | I2C1;
// X553: the firmware's PHY token. Software only, never written to SW_FW_SYNC.
pub const TOKEN: u32 = 1 << 30;

pub const SWSM: u32 = 0x1_0140;

pub const SW_FW_SYNC: u32 = 0x1_0160;

pub const SWSM_X553: u32 = 0x1_5f70;

pub const SW_FW_SYNC_X553: u32 = 0x1_5f78;

pub const SMBI: u32 = 1 << 0;

pub const SWESMBI: u32 = 1 << 1;

pub const REGSMP: u32 = 1 << 31;

// The tries for SMBI, SWESMBI and REGSMP.
pub const TRIES: u32 = 2000;

// SWSM and SW_FW_SYNC.
#[derive(Clone, Copy)]
pub struct Addresses {
    pub swsm: u32,
    pub sw_fw_sync: u32,
}

// The software bits taken, and the firmware and hardware bits that block them.
#[derive(Clone, Copy)]
pub struct Masks {
    pub sw: u32,
    pub fw: u32,
    pub hw: u32,
}

pub fn phy(lan: u8) -> u32
    ensures { result ≡ phy lan }
{
    if lan == 1 { PHY1 } else { PHY0 }
}

pub fn regs(family: Family) -> Addresses
    ensures { (result.swsm ≡ swsm family) × (result.sw_fw_sync ≡ sw_fw_sync family) }
{
    if family.is(Family::X553) {
        return Addresses {
            swsm: SWSM_X553,
            sw_fw_sync: SW_FW_SYNC_X553,
        };
    }
    Addresses {
        swsm: SWSM,
        sw_fw_sync: SW_FW_SYNC,
    }
}

fn bits_82599(mask: u32) -> Masks
    ensures { result ≡ bits82599 mask }
{
    let sw = mask & 0x1f;
    Masks {
        sw,
        fw: sw * 32,
        hw: 0,
    }
}

fn bits_x540(mask: u32) -> Masks
    ensures { result ≡ bits_x540 mask }
{
    let i2c = mask & (I2C0 | I2C1);
    let low = mask & 0xf;
    let sw = mask & (0xf | SW_MNG) | i2c;
    let fw = low * 32 | i2c * 4;
    if hardware::none_of(mask, EEP) {
        return Masks { sw, fw, hw: 0 };
    }
    Masks { sw, fw, hw: FLASH }
}

pub fn bits(family: Family, mask: u32) -> Masks
    ensures { result ≡ bits family mask }
{
    if family.is(Family::F82599) {
        return bits_82599(mask);
    }
    bits_x540(mask)
}

pub fn mux(port: Port, mask: u32) -> bool
    ensures { result ≡ mux port mask }
{
    let family = port.family;
    if family.is(Family::X552) {
        if port.lan == 1 {
            if hardware::none_of(mask, I2C0 | I2C1) {
                return false;
            }
            return true;
        }
    }
    false
}

pub fn tries(family: Family) -> u32
    ensures { result ≡ tries family }
{
    match family {
        Family::F82599 => 200,
        Family::X540 => 200,
        Family::X550 => 1000,
        Family::X552 => 1000,
        Family::X553 => 1000,
    }
}

pub fn smbi(family: Family) -> Watch
    ensures { result ≡ smbi_watch family }
{
    Watch {
        register: regs(family).swsm,
        bit: SMBI,
        us: Micros(50),
    }
}

pub fn regsmp(family: Family) -> Watch
    ensures { result ≡ regsmp_watch family }
{
    Watch {
        register: regs(family).sw_fw_sync,
        bit: REGSMP,
        us: Micros(50),
    }
}

// Our own bits of SWSM given back, and a flush.
pub fn back(family: Family) -> Change
    ensures { result ≡ back_swsm family }
{
    let register = regs(family).swsm;
    if family.is(Family::F82599) {
        return Change {
            register,
            bits: Bits::Clear(SWESMBI | SMBI),
            flushed: true,
        };
    }
    Change {
        register,
        bits: Bits::Clear(SMBI),
        flushed: true,
    }
}

pub fn clear_sync(family: Family, cleared: u32) -> Change
    ensures { result ≡ clear_sync family cleared }
{
    Change {
        register: regs(family).sw_fw_sync,
        bits: Bits::Clear(cleared),
        flushed: false,
    }
}

pub fn set_mux(on: bool) -> Change
    ensures { result ≡ set_mux on }
{
    if on {
        return Change {
            register: hardware::ESDP,
            bits: Bits::Set(1 << 1),
            flushed: true,
        };
    }
    Change {
        register: hardware::ESDP,
        bits: Bits::Clear(1 << 1),
        flushed: true,
    }
}

pub fn release_us(mask: u32) -> u32
    ensures { result ≡ release_us mask }
{
    if hardware::none_of(mask, PHY0 | PHY1 | SW_MNG) {
        return 2000;
    }
    10
}
