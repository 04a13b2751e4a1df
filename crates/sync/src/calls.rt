// The stepwise calls of `lock` and `unlock`: an opening names the first access, and each step the next, or the end.
#![tactic(auto, using(hardware::proofs::Laws::admits_no, hardware::proofs::Laws::admits_valid, hardware::proofs::Laws::admits_yes), unfolding(crate::specs::Calls::said_lock, crate::specs::Lock::lock_next, crate::specs::Calls::stands_lock, crate::specs::Lock::valid_lock_next, crate::specs::Calls::open_lock, hardware::specs::Asked::and_then, hardware::specs::Asked::opened, crate::specs::Calls::step_lock, crate::specs::Calls::said_unlock, crate::specs::Lock::unlock_next, crate::specs::Calls::stands_unlock, crate::specs::Calls::open_unlock, crate::specs::Calls::step_unlock))]

ghost use Rattle.std.specs.Prelude.{◌≡◌, true};
ghost use Rattle.hardware.specs.Asked.{yes};
ghost use Rattle.hardware.specs.Promise.{Keeps};
ghost use Rattle.sync.specs.Lock.{lock_next, valid_lock_next, unlock_next};
ghost use Rattle.sync.specs.Calls.{open_lock, step_lock, said_lock, stands_lock, open_unlock, step_unlock, said_unlock, stands_unlock};

use crate::lock::{Lock, LockNext};
use crate::unlock::{Unlock, UnlockNext};
use hardware::{Answer, Family, Next, R, Refusal, Told};

// The state of a call, none once it is over, and so below.
pub type LockCall = Option<(Family, Lock)>;

pub type LockTold = Result<Told<LockCall, R<()>>, Refusal>;

pub type UnlockCall = Option<(Family, Unlock)>;

pub type UnlockTold = Result<Told<UnlockCall, R<()>>, Refusal>;

fn lock_told(family: Family, n: LockNext) -> LockTold
    ensures { Keeps (said_lock result ≡ yes (lock_next family n)) (valid_lock_next n ≡ true → stands_lock result) }
{
    match n {
        Next::Going(t) => Ok(Told::Ask(crate::lock::access(family, t), Some((family, t)))),
        Next::End(o) => Ok(Told::End(o)),
    }
}

pub fn lock_open(family: u32) -> LockTold
    ensures { Keeps (said_lock result ≡ open_lock family) (stands_lock result) }
{
    let f = hardware::open_family(family)?;
    lock_told(f, crate::lock::open(f))
}

pub fn lock_step(s: LockCall, a: Answer) -> LockTold
    ensures { Keeps (said_lock result ≡ step_lock s a) (stands_lock result) }
{
    let (family, t) = s.ok_or(Refusal::Finished)?;
    hardware::admit(crate::lock::valid(t), crate::lock::access(family, t), a)?;
    lock_told(family, crate::lock::step(family, t, a))
}

fn unlock_told(family: Family, n: UnlockNext) -> UnlockTold
    ensures { Keeps (said_unlock result ≡ yes (unlock_next family n)) (stands_unlock result) }
{
    match n {
        Next::Going(t) => Ok(Told::Ask(crate::unlock::access(family, t), Some((family, t)))),
        Next::End(o) => Ok(Told::End(o)),
    }
}

pub fn unlock_open(family: u32) -> UnlockTold
    ensures { Keeps (said_unlock result ≡ open_unlock family) (stands_unlock result) }
{
    let f = hardware::open_family(family)?;
    unlock_told(f, crate::unlock::open(f))
}

pub fn unlock_step(s: UnlockCall, a: Answer) -> UnlockTold
    ensures { Keeps (said_unlock result ≡ step_unlock s a) (stands_unlock result) }
{
    let (f, t) = s.ok_or(Refusal::Finished)?;
    hardware::admit(true, crate::unlock::access(f, t), a)?;
    unlock_told(f, crate::unlock::step(f, t, a))
}
