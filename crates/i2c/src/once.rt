// One of the four calls, and its one transfer: the script that its attempts run.
#![tactic(auto, using(crate::proofs::Laws::on_start), unfolding(crate::specs::I2c::device_of, crate::specs::I2c::is_write, crate::specs::I2c::failed_i2c, hardware::specs::Registers::reply, crate::specs::I2c::value_of, crate::specs::I2c::read_off, crate::specs::I2c::script_of))]

ghost use Rattle.std.specs.Prelude.{◌+◌, ◌*◌, ◌≡◌, true, Ok};
ghost use Rattle.hardware.specs.Promise.{Keeps};
ghost use Rattle.hardware.specs.Prog.{erase};
ghost use Rattle.hardware.specs.Registers.{reply};
ghost use Rattle.transfer.specs.Transfer.{keeping};
ghost use Rattle.transfer.specs.Attempt.{attempt_next, rest_attempt, valid_attempt, valid_attempt_next};
ghost use Rattle.i2c.specs.I2c.{device_of, script_of, is_write, failed_i2c, value_of};

use bus::{Layout, Taken};
use hardware::{Answer, R};
use transfer::attempt::{Attempt, AttemptNext, Sequence};

// The I2C device first; then the offset or the register; then the value written.
#[derive(Clone, Copy)]
pub enum Request {
    ReadByte(u8, u8),
    WriteByte(u8, u8, u8),
    ReadCombined(u8, u16),
    WriteCombined(u8, u16, u16),
}

pub fn device(r: Request) -> u8
    ensures { result ≡ device_of r }
{
    match r {
        Request::ReadByte(d, _) => d,
        Request::WriteByte(d, _, _) => d,
        Request::ReadCombined(d, _) => d,
        Request::WriteCombined(d, _, _) => d,
    }
}

pub fn is_write(r: Request) -> bool
    ensures { result ≡ is_write r }
{
    match r {
        Request::ReadByte(_, _) => false,
        Request::WriteByte(_, _, _) => true,
        Request::ReadCombined(_, _) => false,
        Request::WriteCombined(_, _, _) => true,
    }
}

// Whether an attempt ended in I2c.
pub fn failed(g: R<Taken>) -> bool
    ensures { result ≡ failed_i2c (reply g) }
{
    match g {
        Ok(_) => false,
        Err(e) => bus::is_i2c(e),
    }
}

// The two bytes of a register. The check byte, the last one read, is not compared.
fn combined(t: Taken) -> R<u32>
    ensures { result ≡ Ok (t.high * 256 + t.low) }
{
    Ok(t.high as u32 * 256 + t.low as u32)
}

// What the Rust gives for the bytes read; 0 stands for its `()`.
pub fn value(r: Request, g: R<Taken>) -> R<u32>
    ensures { reply result ≡ value_of r (reply g) }
{
    let t = g?;
    match r {
        Request::ReadByte(_, _) => Ok(t.last as u32),
        Request::WriteByte(_, _, _) => Ok(0),
        Request::ReadCombined(_, _) => combined(t),
        Request::WriteCombined(_, _, _) => Ok(0),
    }
}

pub fn step(q: Sequence, l: Layout, r: Request, s: Attempt, a: Answer) -> AttemptNext
    ensures { Keeps (attempt_next keeping q l (device_of r) (script_of r) result ≡ erase (rest_attempt keeping q l (device_of r) (script_of r) s a)) (valid_attempt l (script_of r) s ≡ true → valid_attempt_next l (script_of r) result ≡ true) }
{
    match r {
        Request::ReadByte(d, o) => {
            let script = script::write::read_byte_script(d, o);
            transfer::attempt::step(q, l, d, &script, s, a)
        }
        Request::WriteByte(d, o, v) => {
            let script = script::write::write_byte_script(d, o, v);
            transfer::attempt::step(q, l, d, &script, s, a)
        }
        Request::ReadCombined(d, reg) => {
            let script = script::write::read_combined_script(d, reg);
            transfer::attempt::step(q, l, d, &script, s, a)
        }
        Request::WriteCombined(d, reg, v) => {
            let script = script::write::write_combined_script(d, reg, v);
            transfer::attempt::step(q, l, d, &script, s, a)
        }
    }
}

pub fn valid(l: Layout, r: Request, s: Attempt) -> bool
    ensures { result ≡ valid_attempt l (script_of r) s }
{
    match r {
        Request::ReadByte(d, o) => {
            let script = script::write::read_byte_script(d, o);
            transfer::attempt::valid(l, &script, s)
        }
        Request::WriteByte(d, o, v) => {
            let script = script::write::write_byte_script(d, o, v);
            transfer::attempt::valid(l, &script, s)
        }
        Request::ReadCombined(d, reg) => {
            let script = script::write::read_combined_script(d, reg);
            transfer::attempt::valid(l, &script, s)
        }
        Request::WriteCombined(d, reg, v) => {
            let script = script::write::write_combined_script(d, reg, v);
            transfer::attempt::valid(l, &script, s)
        }
    }
}
