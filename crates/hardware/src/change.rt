// A register is read, some of its bits changed, and written back; a flush may follow.
#![tactic(auto, using(crate::proofs::Prog::fed), unfolding(crate::specs::Change::changed, crate::specs::Change::access_update, crate::specs::Registers::reply, crate::specs::Prog::or_err, crate::specs::Change::stored, crate::specs::Prog::erase, crate::specs::Change::update_next, crate::specs::Change::rest_update, crate::specs::Change::settled))]

ghost use Rattle.std.specs.Prelude.{◌≡◌};
ghost use Rattle.hardware.specs.Prog.{erase, or_err};
ghost use Rattle.hardware.specs.Registers.{reply};
ghost use Rattle.hardware.specs.Change.{changed, stored, settled, access_update, rest_update, update_next};

use crate::{Access, Answer, Next, R, Update, UpdateNext};

#[derive(Clone, Copy)]
pub enum Bits {
    Set(u32),
    Clear(u32),
    SetClear(u32, u32),
}

#[derive(Clone, Copy)]
pub struct Change {
    pub register: u32,
    pub bits: Bits,
    pub flushed: bool,
}

pub fn apply(bits: Bits, v: u32) -> u32
    ensures { result ≡ changed bits v }
{
    match bits {
        Bits::Set(b) => v | b,
        Bits::Clear(b) => v & !b,
        Bits::SetClear(b, cleared) => (v | b) & !cleared,
    }
}

pub fn access(c: Change, s: Update) -> Access
    ensures { result ≡ access_update c s }
{
    match s {
        Update::Reading => Access::Read(c.register),
        Update::Writing(v) => Access::Write(c.register, v),
        Update::Flushing => Access::Read(crate::STATUS),
    }
}

fn seen(c: Change, w: R<u32>) -> UpdateNext
    ensures { update_next c result ≡ erase (or_err (stored c) (reply w)) }
{
    match w {
        Ok(v) => {
            let bits = c.bits;
            Next::Going(Update::Writing(apply(bits, v)))
        }
        Err(e) => Next::End(Err(e)),
    }
}

fn settle(c: Change, o: R<()>) -> UpdateNext
    ensures { update_next c result ≡ erase (or_err (λ _. settled c.flushed) (reply o)) }
{
    match o {
        Ok(()) => {
            if c.flushed {
                return Next::Going(Update::Flushing);
            }
            Next::End(Ok(()))
        }
        Err(e) => Next::End(Err(e)),
    }
}

pub fn step(c: Change, s: Update, a: Answer) -> UpdateNext
    ensures { update_next c result ≡ erase (rest_update c s a) }
{
    match s {
        Update::Reading => seen(c, crate::read(a)),
        Update::Writing(_) => settle(c, crate::write(a)),
        Update::Flushing => Next::End(crate::flush(a)),
    }
}
