// What has been read of a module so far, and what it says.
#![tactic(auto, using(crate::proofs::Signed::signed_held), unfolding(crate::specs::Sensed::word_on, hardware::specs::Prog::pick, crate::specs::Sensed::pattern_on, crate::specs::Sensed::patterns_on, crate::specs::Sensed::taken, crate::specs::Sensed::measures_of, crate::specs::Sensed::reading_of, crate::specs::Sensed::measured_of, crate::specs::Sensed::calibrated_of, crate::specs::Power::powered_of, crate::specs::Sensed::measured, crate::specs::Words::signed))]

ghost use Rattle.std.specs.Prelude.{◌≡◌};
ghost use Rattle.hardware.specs.Prog.{pick};
ghost use Rattle.light.specs.Power.{powered_of};
ghost use Rattle.light.specs.Sensed.{word_on, pattern_on, patterns_on, taken, measures_of, reading_of, calibrated_of, measured, measured_of, measured_number};

use crate::power::{Patterns, PowerError, Powered, Reading};
use hardware::Error;

// kind: byte 92 of A0. The words: bytes 96 to 105 of A2, as far as they are read. patterns: its bytes 56 to 75.
#[derive(Clone, Copy)]
pub struct Sensed {
    pub kind: u8,
    pub temperature: u16,
    pub voltage: u16,
    pub bias: u16,
    pub sent: u16,
    pub received: u16,
    pub patterns: Patterns,
}

// temperature: in 1/256 degree. The other three words are raw.
#[derive(Clone, Copy)]
pub struct Measures {
    pub temperature: i16,
    pub voltage: u16,
    pub bias: u16,
    pub sent: u16,
    pub reading: Reading,
}

// Why there are no measures. Power: every byte was read, and the power cannot be worked out.
#[derive(Clone, Copy)]
pub enum LightError {
    Power(PowerError),
    Bus(Error),
}

pub type Measured = Result<Measures, LightError>;

// Before the first byte.
pub const FRESH: Sensed = Sensed {
    kind: 0,
    temperature: 0,
    voltage: 0,
    bias: 0,
    sent: 0,
    received: 0,
    patterns: Patterns {
        c4: 0,
        c3: 0,
        c2: 0,
        c1: 0,
        c0: 0,
    },
};

// Bits of byte 92: what it says of the module's monitoring.
pub const MONITORED: u8 = 0x40;

pub const INTERNAL: u8 = 0x20;

pub const EXTERNAL: u8 = 0x10;

// The papers' number of a failure, or 0.
pub fn measured_number(r: Measured) -> u8
    ensures { result ≡ measured_number r }
{
    match r {
        Ok(_) => 0,
        Err(LightError::Power(PowerError::Coefficient)) => 28,
        Err(LightError::Power(PowerError::Power)) => 29,
        Err(LightError::Bus(e)) => hardware::error_number(e),
    }
}

// A word with a byte behind its low one, where the byte is this word's.
fn word_on(here: bool, word: u16, byte: u8) -> u16
    ensures { result ≡ word_on here word byte }
{
    if here {
        return word % 256 * 256 + byte as u16;
    }
    word
}

// A pattern with a byte behind its low three.
fn pattern_on(here: bool, pattern: u32, byte: u8) -> u32
    ensures { result ≡ pattern_on here pattern byte }
{
    if here {
        return pattern % 0x100_0000 * 256 + byte as u32;
    }
    pattern
}

fn patterns_on(p: Patterns, left: u8, byte: u8) -> Patterns
    ensures { result ≡ patterns_on p left byte }
{
    Patterns {
        c4: pattern_on(left / 4 == 4, p.c4, byte),
        c3: pattern_on(left / 4 == 3, p.c3, byte),
        c2: pattern_on(left / 4 == 2, p.c2, byte),
        c1: pattern_on(left / 4 == 1, p.c1, byte),
        c0: pattern_on(left / 4 == 0, p.c0, byte),
    }
}

fn kind_on(here: bool, kind: u8, byte: u8) -> u8
    ensures { result ≡ pick here byte kind }
{
    if here {
        return byte;
    }
    kind
}

// The byte with so many after it has been read.
pub fn take(s: Sensed, left: u8, byte: u8) -> Sensed
    ensures { result ≡ taken s left byte }
{
    let p = s.patterns;
    Sensed {
        kind: kind_on(left == 30, s.kind, byte),
        temperature: word_on(left / 2 == 14, s.temperature, byte),
        voltage: word_on(left / 2 == 13, s.voltage, byte),
        bias: word_on(left / 2 == 12, s.bias, byte),
        sent: word_on(left / 2 == 11, s.sent, byte),
        received: word_on(left / 2 == 10, s.received, byte),
        patterns: patterns_on(p, left, byte),
    }
}

// The four values beside a reading.
fn values(s: Sensed, reading: Reading) -> Measures
    ensures { result ≡ measures_of s reading }
{
    Measures {
        temperature: crate::words::signed(s.temperature),
        voltage: s.voltage,
        bias: s.bias,
        sent: s.sent,
        reading,
    }
}

// Without an external calibration.
fn uncalibrated(kind: u8, received: u16) -> Reading
    ensures { result ≡ reading_of kind received }
{
    if sfp::class::has(kind, INTERNAL) {
        return Reading::Internal(received);
    }
    Reading::Absent
}

// With one.
fn calibrated(s: Sensed, p: Powered) -> Measured
    ensures { measured_of result ≡ calibrated_of (measures_of s) (powered_of p) }
{
    match p {
        Ok(x) => Ok(values(s, Reading::Calibrated(x))),
        Err(e) => Err(LightError::Power(e)),
    }
}

// What the bytes say, once all are read that byte 92 asks for.
pub fn judge(s: Sensed) -> Measured
    ensures { measured_of result ≡ measured s }
{
    if sfp::class::none_of(s.kind, MONITORED) {
        return Ok(values(FRESH, Reading::Absent));
    }
    if sfp::class::has(s.kind, EXTERNAL) {
        let p = s.patterns;
        return calibrated(s, crate::power::power(p, s.received));
    }
    Ok(values(s, uncalibrated(s.kind, s.received)))
}
