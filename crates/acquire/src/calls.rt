// The stepwise calls of `acquire` and `release`: an opening names the first access, and each step the next, or the end.
#![tactic(auto, using(hardware::proofs::Laws::opened_valid, hardware::proofs::Laws::admits_no, hardware::proofs::Laws::admits_valid, hardware::proofs::Laws::admits_yes, hardware::proofs::Laws::both_true), unfolding(crate::specs::Calls::said_acquire, crate::specs::Acquire::acquire_next, crate::specs::Calls::stands_acquire, crate::specs::Acquire::valid_acquire_next, crate::specs::Calls::valid_acquire_call, hardware::specs::Prog::pick, crate::specs::Calls::open_acquire, hardware::specs::Asked::and_then, hardware::specs::Asked::opened, crate::specs::Calls::step_acquire, crate::specs::Calls::said_release, crate::specs::Acquire::release_next, crate::specs::Calls::stands_release, crate::specs::Acquire::valid_release_next, crate::specs::Calls::valid_release_call, crate::specs::Calls::open_release, crate::specs::Calls::step_release))]

ghost use Rattle.std.specs.Prelude.{◌≡◌, true};
ghost use Rattle.hardware.specs.Asked.{yes, valid_port};
ghost use Rattle.hardware.specs.Promise.{Keeps};
ghost use Rattle.acquire.specs.Acquire.{acquire_next, valid_acquire_next, release_next, valid_release_next};
ghost use Rattle.acquire.specs.Calls.{open_acquire, valid_acquire_call, step_acquire, said_acquire, stands_acquire, open_release, valid_release_call, step_release, said_release, stands_release};

use crate::acquire::{Acquire, AcquireNext};
use crate::release::{Release, ReleaseNext};
use hardware::{Answer, Next, Port, R, Refusal, Told};

// The state of a call, none once it is over: with the port and the mask's bits of SW_FW_SYNC; and so below.
pub type AcquireCall = Option<(Port, u32, Acquire)>;

pub type AcquireTold = Result<Told<AcquireCall, R<()>>, Refusal>;

pub type ReleaseCall = Option<(Port, u32, Release)>;

pub type ReleaseTold = Result<Told<ReleaseCall, R<()>>, Refusal>;

fn acquire_told(port: Port, hw: u32, n: AcquireNext) -> AcquireTold
    ensures { Keeps (said_acquire result ≡ yes (acquire_next port hw n)) (valid_port port ≡ true → valid_acquire_next port n ≡ true → stands_acquire result) }
{
    match n {
        Next::Going(t) => Ok(Told::Ask(crate::acquire::access(port, hw, t), Some((port, hw, t)))),
        Next::End(o) => Ok(Told::End(o)),
    }
}

pub fn acquire_open(family: u32, device: u16, lan: u32, mask: u32) -> AcquireTold
    ensures { Keeps (said_acquire result ≡ open_acquire family device lan mask) (stands_acquire result) }
{
    let p = hardware::open_port(family, device, lan)?;
    acquire_told(p, crate::acquire::hw(mask), crate::acquire::open(p, mask))
}

fn valid_acquire(port: Port, t: Acquire) -> bool
    ensures { result ≡ valid_acquire_call port t }
{
    if hardware::valid_port(port) {
        return crate::acquire::valid(port, t);
    }
    false
}

pub fn acquire_step(s: AcquireCall, a: Answer) -> AcquireTold
    ensures { Keeps (said_acquire result ≡ step_acquire s a) (stands_acquire result) }
{
    let (port, hw, acquire) = s.ok_or(Refusal::Finished)?;
    let valid = valid_acquire(port, acquire);
    match hardware::admit(valid, crate::acquire::access(port, hw, acquire), a) {
        Ok(()) => acquire_told(port, hw, crate::acquire::step(port, hw, acquire, a)),
        Err(q) => Err(q),
    }
}

fn release_told(port: Port, hw: u32, n: ReleaseNext) -> ReleaseTold
    ensures { Keeps (said_release result ≡ yes (release_next port hw n)) (valid_port port ≡ true → valid_release_next port n ≡ true → stands_release result) }
{
    match n {
        Next::Going(t) => Ok(Told::Ask(crate::release::access(port, hw, t), Some((port, hw, t)))),
        Next::End(o) => Ok(Told::End(o)),
    }
}

pub fn release_open(family: u32, device: u16, lan: u32, mask: u32) -> ReleaseTold
    ensures { Keeps (said_release result ≡ open_release family device lan mask) (stands_release result) }
{
    let p = hardware::open_port(family, device, lan)?;
    release_told(p, crate::acquire::hw(mask), crate::release::open(p, mask))
}

fn valid_release(port: Port, t: Release) -> bool
    ensures { result ≡ valid_release_call port t }
{
    if hardware::valid_port(port) {
        return crate::release::valid(port, t);
    }
    false
}

pub fn release_step(s: ReleaseCall, a: Answer) -> ReleaseTold
    ensures { Keeps (said_release result ≡ step_release s a) (stands_release result) }
{
    let (port, hw, release) = s.ok_or(Refusal::Finished)?;
    let valid = valid_release(port, release);
    hardware::admit(valid, crate::release::access(port, hw, release), a)?;
    release_told(port, hw, crate::release::step(port, hw, release, a))
}
