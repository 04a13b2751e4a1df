// What is next, as numbers.
ghost use Rattle.std.specs.Prelude.{◌≡◌};
ghost use Rattle.host.specs.Next.{next_of, asked_of, refused_of, failed_of, ended_of, word_of, outcome_of, byte_of, flag_of, identity_of, identified_of, paged_of, reading_kind, reading_count, measures_of, measured_of};

use crate::Next;
use hardware::{Access, BLANK, Error, Meter, R, Refusal};
use light::power::{PowerError, Reading};
use light::sensed::{LightError, Measured, Measures};
use page::sums::{PageError, Paged};
use sfp::Identity;

// The kinds of what is next.
pub const READ: u32 = 0;

pub const WRITE: u32 = 1;

pub const WAIT: u32 = 2;

pub const ENDED: u32 = 3;

pub const FAILED: u32 = 4;

pub const REFUSED: u32 = 5;

#[tactic(auto, unfolding(crate::specs::Next::next_of))]
fn made(kind: u32, first: u32, second: u32, third: u32, m: Meter) -> Next
    ensures { result ≡ next_of kind first second third m }
{
    Next {
        kind,
        first,
        second,
        third,
        fourth: 0,
        fifth: 0,
        sixth: 0,
        transfers: m.transfers,
        slowest: m.slowest as u32,
        temperature: 0,
    }
}

// handed: 256 and the byte that a script has just read, else 0.
#[tactic(auto, unfolding(crate::specs::Next::asked_of))]
pub fn asked(x: Access, handed: u32) -> Next
    ensures { result ≡ asked_of x handed }
{
    match x {
        Access::Read(r) => made(READ, r, 0, handed, BLANK),
        Access::Write(r, v) => made(WRITE, r, v, handed, BLANK),
        Access::Wait(t) => made(WAIT, t.0, 0, handed, BLANK),
    }
}

#[tactic(auto, unfolding(crate::specs::Next::refused_of))]
pub fn refused(number: u32) -> Next
    ensures { result ≡ refused_of number }
{
    made(REFUSED, number, 0, 0, BLANK)
}

#[tactic(auto, unfolding(crate::specs::Next::failed_of))]
fn failed(e: Error, m: Meter) -> Next
    ensures { result ≡ failed_of e m }
{
    made(
        FAILED,
        hardware::error_number(e) as u32,
        hardware::error_value(e, 0),
        hardware::error_value(e, 1),
        m,
    )
}

#[tactic(auto, unfolding(crate::specs::Next::ended_of))]
fn ended(value: u32, m: Meter) -> Next
    ensures { result ≡ ended_of value m }
{
    made(ENDED, value, 0, 0, m)
}

#[tactic(auto, unfolding(crate::specs::Next::word_of))]
pub fn word(w: R<u32>, m: Meter) -> Next
    ensures { result ≡ word_of w m }
{
    match w {
        Ok(v) => ended(v, m),
        Err(e) => failed(e, m),
    }
}

#[tactic(auto, unfolding(crate::specs::Next::outcome_of))]
pub fn outcome(o: R<()>, m: Meter) -> Next
    ensures { result ≡ outcome_of o m }
{
    match o {
        Ok(()) => ended(0, m),
        Err(e) => failed(e, m),
    }
}

#[tactic(auto, unfolding(crate::specs::Next::byte_of))]
pub fn byte(b: R<u8>) -> Next
    ensures { result ≡ byte_of b }
{
    match b {
        Ok(v) => ended(v as u32, BLANK),
        Err(e) => failed(e, BLANK),
    }
}

// 1 for true.
#[tactic(auto, unfolding(crate::specs::Next::flag_of))]
pub fn flag(f: R<bool>, m: Meter) -> Next
    ensures { result ≡ flag_of f m }
{
    match f {
        Ok(b) => ended(flat::bit(b) as u32, m),
        Err(e) => failed(e, m),
    }
}

// The kind by its place in the Rust's list, multispeed, identifier, comp_10g, comp_1g and cable.
#[tactic(auto, unfolding(crate::specs::Next::identity_of))]
fn identity(i: Identity, m: Meter) -> Next
    ensures { result ≡ identity_of i m }
{
    let kind = i.kind;
    Next {
        kind: ENDED,
        first: sfp::number(kind) as u32,
        second: flat::bit(i.multispeed) as u32,
        third: i.identifier as u32,
        fourth: i.comp10g as u32,
        fifth: i.comp1g as u32,
        sixth: i.cable as u32,
        transfers: m.transfers,
        slowest: m.slowest as u32,
        temperature: 0,
    }
}

#[tactic(auto, unfolding(crate::specs::Next::identified_of))]
pub fn identified(f: R<Identity>, m: Meter) -> Next
    ensures { result ≡ identified_of f m }
{
    match f {
        Ok(i) => identity(i, m),
        Err(e) => failed(e, m),
    }
}

#[tactic(auto, unfolding(crate::specs::Next::paged_of))]
pub fn paged(p: Paged, m: Meter) -> Next
    ensures { result ≡ paged_of p m }
{
    match p {
        Ok(()) => ended(0, m),
        Err(PageError::FirstSum) => made(FAILED, 26, 0, 0, m),
        Err(PageError::SecondSum) => made(FAILED, 27, 0, 0, m),
        Err(PageError::Bus(e)) => failed(e, m),
    }
}

#[tactic(auto, unfolding(crate::specs::Next::reading_kind))]
fn reading_kind(r: Reading) -> u32
    ensures { result ≡ reading_kind r }
{
    match r {
        Reading::Internal(_) => 0,
        Reading::Calibrated(_) => 1,
        Reading::Absent => 2,
    }
}

// The count, the bit pattern of the power, or 0.
#[tactic(auto, unfolding(crate::specs::Next::reading_count))]
fn reading_count(r: Reading) -> u32
    ensures { result ≡ reading_count r }
{
    match r {
        Reading::Internal(count) => count as u32,
        Reading::Calibrated(power) => unsigned::pattern(power),
        Reading::Absent => 0,
    }
}

// The voltage, the bias, the power sent, and of the reading its kind and its count or pattern.
#[tactic(auto, unfolding(crate::specs::Next::measures_of))]
fn measures(v: Measures, m: Meter) -> Next
    ensures { result ≡ measures_of v m }
{
    let r = v.reading;
    Next {
        kind: ENDED,
        first: v.voltage as u32,
        second: v.bias as u32,
        third: v.sent as u32,
        fourth: reading_kind(r),
        fifth: reading_count(r),
        sixth: 0,
        transfers: m.transfers,
        slowest: m.slowest as u32,
        temperature: v.temperature,
    }
}

#[tactic(auto, unfolding(crate::specs::Next::measured_of))]
pub fn measured(r: Measured, m: Meter) -> Next
    ensures { result ≡ measured_of r m }
{
    match r {
        Ok(v) => measures(v, m),
        Err(LightError::Power(PowerError::Coefficient)) => made(FAILED, 28, 0, 0, m),
        Err(LightError::Power(PowerError::Power)) => made(FAILED, 29, 0, 0, m),
        Err(LightError::Bus(e)) => failed(e, m),
    }
}
