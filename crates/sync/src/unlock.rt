// The register semaphore is given back: REGSMP, from the X540 on, then our bits of SWSM, then a flush.
#![tactic(auto, using(hardware::proofs::Prog::going, hardware::proofs::Prog::over), unfolding(crate::specs::Lock::unlock, hardware::specs::Prog::pick, crate::specs::Lock::unlock_next, crate::specs::Lock::access_unlock, crate::specs::Lock::rest_unlock, hardware::specs::Change::change, hardware::specs::Change::access_update, hardware::specs::Change::rest_update, hardware::specs::Prog::erase, hardware::specs::Change::update_next, hardware::specs::Prog::followed, hardware::specs::Registers::reply, hardware::specs::Prog::or_err))]

ghost use Rattle.std.specs.Prelude.{◌≡◌};
ghost use Rattle.hardware.specs.Prog.{erase, followed, or_err};
ghost use Rattle.hardware.specs.Change.{change, update_next};
ghost use Rattle.sync.specs.Regs.{REGSMP, back_swsm, clear_sync};
ghost use Rattle.sync.specs.Lock.{unlock, access_unlock, rest_unlock, unlock_next};

use crate::regs::REGSMP;
use hardware::{Access, Answer, Family, Next, R, Update, UpdateNext};

#[derive(Clone, Copy)]
pub enum Unlock {
    Sync(Update),
    Swsm(Update),
}

pub type UnlockNext = Next<Unlock, R<()>>;

pub fn open(family: Family) -> UnlockNext
    ensures { unlock_next family result ≡ erase (unlock family) }
{
    if family.is(Family::F82599) {
        return Next::Going(Unlock::Swsm(Update::Reading));
    }
    Next::Going(Unlock::Sync(Update::Reading))
}

pub fn access(family: Family, s: Unlock) -> Access
    ensures { result ≡ access_unlock family s }
{
    match s {
        Unlock::Sync(t) => hardware::change::access(crate::regs::clear_sync(family, REGSMP), t),
        Unlock::Swsm(t) => hardware::change::access(crate::regs::back(family), t),
    }
}

fn sync(family: Family, n: UpdateNext) -> UnlockNext
    ensures { unlock_next family result ≡ followed (update_next (clear_sync family REGSMP) n) (or_err (λ _. change (back_swsm family))) }
{
    match n {
        Next::Going(t) => Next::Going(Unlock::Sync(t)),
        Next::End(o) => match o {
            Ok(()) => Next::Going(Unlock::Swsm(Update::Reading)),
            Err(e) => Next::End(Err(e)),
        },
    }
}

fn swsm(family: Family, n: UpdateNext) -> UnlockNext
    ensures { unlock_next family result ≡ update_next (back_swsm family) n }
{
    match n {
        Next::Going(t) => Next::Going(Unlock::Swsm(t)),
        Next::End(o) => Next::End(o),
    }
}

pub fn step(family: Family, s: Unlock, a: Answer) -> UnlockNext
    ensures { unlock_next family result ≡ erase (rest_unlock family s a) }
{
    match s {
        Unlock::Sync(t) => sync(
            family,
            hardware::change::step(crate::regs::clear_sync(family, REGSMP), t, a),
        ),
        Unlock::Swsm(t) => swsm(
            family,
            hardware::change::step(crate::regs::back(family), t, a),
        ),
    }
}
