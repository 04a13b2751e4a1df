// An attempt: `Bus::new`'s read of I2CCTL, the script, and after an I2c failure the clearing sequence.
#![tactic(auto, using(hardware::proofs::Prog::heard_on, hardware::proofs::Prog::over, crate::proofs::Left::clear_opens, crate::proofs::Laws::told_on, bus::proofs::Left::clear_falls, hardware::proofs::Prog::fed), unfolding(crate::specs::Attempt::clearing, crate::specs::Attempt::or_i2c, hardware::specs::Prog::pick, hardware::specs::Failures::failure_of, crate::specs::Attempt::attempt_next, crate::specs::Attempt::awaiting, crate::specs::Attempt::heard_attempt, crate::specs::Attempt::access_attempt, crate::specs::Attempt::rest_attempt, crate::specs::Attempt::valid_attempt_next, crate::specs::Attempt::valid_attempt, bus::specs::Clear::clear_next, bus::specs::Clear::valid_clear_next, crate::specs::Left::attempt_next_left, crate::specs::Left::attempt_left, hardware::specs::Registers::reply, hardware::specs::Prog::followed, hardware::specs::Prog::erase, crate::specs::Attempt::cleared, crate::specs::Attempt::or_cleared, crate::specs::Attempt::or_tried, crate::specs::Transfer::transfer_next, crate::specs::Transfer::asking, crate::specs::Transfer::valid_transfer_next, crate::specs::Left::transfer_next_left, crate::specs::Attempt::tried, hardware::specs::Prog::or_err, crate::specs::Attempt::begun))]

ghost use Rattle.std.specs.Prelude.{ℕ, ◌<◌, ◌≤◌, ◌≡◌, true, List, length};
ghost use Rattle.hardware.specs.Asked.{fits, InType};
ghost use Rattle.hardware.specs.Failures.{failure_of};
ghost use Rattle.hardware.specs.Prog.{erase, followed, or_err, Err};
ghost use Rattle.hardware.specs.Promise.{Bounds};
ghost use Rattle.hardware.specs.Registers.{reply};
ghost use Rattle.hardware.specs.Longest.{longest};
ghost use Rattle.bus.specs.Clear.{clear_next, valid_clear_next};
ghost use Rattle.bus.specs.Steps.{CLEAR_STEPS};
ghost use Rattle.script.specs.Script.{commands, on_command};
ghost use Rattle.bus.specs.Bus.{none};
ghost use Rattle.transfer.specs.Transfer.{Mode, transfer, transfer_next, valid_transfer_next};
ghost use Rattle.transfer.specs.Attempt.{clearing, or_i2c, cleared, or_tried, tried, begun, access_attempt, heard_attempt, rest_attempt, attempt_next, valid_attempt, valid_attempt_next};
ghost use Rattle.transfer.specs.Left.{COMMANDS_STEPS, transfer_next_left, attempt_left, attempt_next_left};

use crate::transfer::{Handing, Transfer, TransferNext};
use bus::clear::{Clear, ClearNext};
use bus::{Layout, Taken};
use hardware::{Access, Answer, Error, Next, R};

// The clearing sequences by name. Pulses: that of the Rust, nine pulses of SCL between two starts, and a stop. Rounds: up to
// ten rounds until SDA is read high; then SDA is pulled while SCL is high, SCL lowered, and a stop.
#[derive(Clone, Copy)]
pub enum Sequence {
    Pulses,
    Rounds,
}

// New: the read of I2CCTL with which an attempt begins.
#[derive(Clone, Copy)]
pub enum Attempt {
    New,
    Moving(Transfer),
    Clearing(Clear),
}

pub type AttemptNext = Handing<Attempt, R<Taken>>;

fn clear(q: Sequence, l: Layout, ctl: u32) -> ClearNext
    ensures yields { clear_next l result ≡ erase (clearing q l ctl) }
    ensures limits { valid_clear_next l result ≡ true }
{
    match q {
        Sequence::Pulses => bus::clear::open(l, ctl),
        Sequence::Rounds => bus::rounds::open(l, ctl),
    }
}

fn clear_done(device: u8, e: Error) -> Error
    ensures { failure_of result ≡ or_i2c device (failure_of e) }
{
    if bus::is_i2c(e) {
        return Error::I2c(device);
    }
    e
}

fn cleared(l: Layout, device: u8, n: ClearNext) -> AttemptNext
    ensures { Bounds ((m : Mode) (q : Sequence) (s : List ℕ) → attempt_next m q l device s result ≡ followed (clear_next l n) (cleared device)) ((s : List ℕ) → valid_clear_next l n ≡ true → valid_attempt_next l s result ≡ true) (attempt_next_left l result ≤ longest (clear_next l n)) }
{
    match n {
        Next::Going(c) => Handing::Going(Attempt::Clearing(c)),
        Next::End((_, o)) => match o {
            Ok(()) => Handing::End(Err(Error::I2c(device))),
            Err(e) => Handing::End(Err(clear_done(device, e))),
        },
    }
}

fn failed(q: Sequence, l: Layout, device: u8, ctl: u32, e: Error) -> AttemptNext
    ensures { Bounds ((m : Mode) (s : List ℕ) → attempt_next m q l device s result ≡ erase (or_tried q l device ctl (Err (failure_of e)))) ((s : List ℕ) → valid_attempt_next l s result ≡ true) (attempt_next_left l result ≤ CLEAR_STEPS) }
{
    if bus::is_i2c(e) {
        return cleared(l, device, clear(q, l, ctl));
    }
    Handing::End(Err(e))
}

fn from_transfer(q: Sequence, l: Layout, device: u8, n: TransferNext) -> AttemptNext
    ensures { Bounds ((m : Mode) (s : List ℕ) → attempt_next m q l device s result ≡ followed (transfer_next m l device s n) (tried q l device)) ((s : List ℕ) → valid_transfer_next l s n ≡ true → valid_attempt_next l s result ≡ true) (attempt_next_left l result ≤ transfer_next_left l n) }
{
    match n {
        Handing::Going(t) => Handing::Going(Attempt::Moving(t)),
        Handing::Read(b, t) => Handing::Read(b, Attempt::Moving(t)),
        Handing::End((ctl, taken, o)) => match o {
            Ok(()) => Handing::End(Ok(taken)),
            Err(e) => failed(q, l, device, ctl, e),
        },
    }
}

fn begin(q: Sequence, l: Layout, device: u8, script: &[u8], w: R<u32>) -> AttemptNext
    ensures { Bounds ((m : Mode) → attempt_next m q l device script.now result ≡ erase (or_err (begun q l device (transfer m l device (commands script.now) none)) (reply w))) (on_command script.now 0 ≡ true → valid_attempt_next l script.now result ≡ true) (attempt_next_left l result ≤ COMMANDS_STEPS) }
{
    match w {
        Ok(ctl) => {
            let none = Taken {
                high: 0,
                low: 0,
                last: 0,
            };
            from_transfer(q, l, device, crate::transfer::from(l, script, 0, none, ctl))
        }
        Err(e) => Handing::End(Err(e)),
    }
}

pub fn access(l: Layout, s: Attempt) -> Access
    ensures { result ≡ access_attempt l s }
{
    match s {
        Attempt::New => Access::Read(l.reg),
        Attempt::Moving(t) => crate::transfer::access(l, t),
        Attempt::Clearing(c) => bus::clear::access(l, c),
    }
}

// The samples that were left when a byte was acknowledged just before the access; 10 where none was.
pub fn heard(s: Attempt) -> u8
    ensures { result ≡ heard_attempt s }
{
    match s {
        Attempt::New => 10,
        Attempt::Moving(t) => crate::transfer::heard(t),
        Attempt::Clearing(c) => bus::clear::heard(c),
    }
}

pub fn step(q: Sequence, l: Layout, device: u8, script: &[u8], s: Attempt, a: Answer) -> AttemptNext
    ensures { Bounds ((m : Mode) → attempt_next m q l device script.now result ≡ erase (rest_attempt m q l device script.now s a)) (on_command script.now 0 ≡ true → valid_attempt l script.now s ≡ true → valid_attempt_next l script.now result ≡ true) (length script.now ≤ 64 → fits (access_attempt l s) a ≡ true → InType a → attempt_next_left l result < attempt_left l s) }
{
    match s {
        Attempt::New => begin(q, l, device, script, hardware::read_raw(a)),
        Attempt::Moving(t) => {
            let n = crate::transfer::step(l, device, script, t, a);
            from_transfer(q, l, device, n)
        }
        Attempt::Clearing(c) => cleared(l, device, bus::clear::step(l, c, a)),
    }
}

pub fn valid(l: Layout, script: &[u8], s: Attempt) -> bool
    ensures { result ≡ valid_attempt l script.now s }
{
    match s {
        Attempt::New => true,
        Attempt::Moving(t) => crate::transfer::valid(l, script, t),
        Attempt::Clearing(c) => bus::clear::valid(l, c),
    }
}
