// The register semaphore: SMBI, then SWESMBI on the 82599 and REGSMP on the others.
#![tactic(auto, using(hardware::proofs::Prog::going, hardware::proofs::Prog::over), unfolding(crate::specs::Lock::lapsed, crate::specs::Lock::lock_next, crate::specs::Lock::access_lock, crate::specs::Lock::rest_lock, hardware::specs::Change::change, hardware::specs::Change::access_update, hardware::specs::Change::rest_update, hardware::specs::Prog::erase, crate::specs::Lock::valid_lock_next, crate::specs::Lock::valid_lock, hardware::specs::Change::update_next, hardware::specs::Prog::followed, hardware::specs::Prog::or_err, hardware::specs::Registers::reply, hardware::specs::Failures::failure_of, crate::specs::Lock::swesmbi_done, hardware::specs::Prog::pick, crate::specs::Lock::swesmbi_next, crate::specs::Lock::valid_swesmbi_next, crate::specs::Lock::regsmp_done, hardware::specs::Poll::poll_next, hardware::specs::Poll::valid_poll_next, crate::specs::Lock::second, crate::specs::Lock::smbi_done, crate::specs::Lock::lock))]

ghost use Rattle.std.specs.Prelude.{◌≡◌, true};
ghost use Rattle.hardware.specs.Failures.{Semaphore};
ghost use Rattle.hardware.specs.Prog.{erase, followed, or_err, ret, Err};
ghost use Rattle.hardware.specs.Registers.{reply};
ghost use Rattle.hardware.specs.Poll.{poll_next, valid_poll_next};
ghost use Rattle.hardware.specs.Change.{update_next};
ghost use Rattle.sync.specs.Regs.{TRIES, smbi_watch, regsmp_watch, back_swsm};
ghost use Rattle.sync.specs.Lock.{lock, second, lapsed, smbi_done, swesmbi_done, regsmp_done, swesmbi_next, valid_swesmbi_next, access_lock, rest_lock, lock_next, valid_lock, valid_lock_next};

use crate::regs::{REGSMP, SMBI, SWESMBI, TRIES};
use crate::swesmbi::{Swesmbi, SwesmbiNext};
use hardware::poll::{Poll, PollNext};
use hardware::{Access, Answer, Error, Family, Next, R, Update, UpdateNext};

// Back: SWSM's bits go back, and the held bits are then reported.
#[derive(Clone, Copy)]
pub enum Lock {
    Smbi(Poll),
    Second(Swesmbi),
    Regsmp(Poll),
    Back(u32, Update),
}

pub type LockNext = Next<Lock, R<()>>;

// SWESMBI or REGSMP did not come.
fn lapse(family: Family, held: u32) -> LockNext
    ensures yields { lock_next family result ≡ erase (lapsed family held) }
    ensures limits { valid_lock_next result ≡ true }
{
    Next::Going(Lock::Back(held, Update::Reading))
}

fn back(family: Family, held: u32, n: UpdateNext) -> LockNext
    ensures yields { lock_next family result ≡ followed (update_next (back_swsm family) n) (or_err (λ _. ret (Err (Semaphore held)))) }
    ensures limits { valid_lock_next result ≡ true }
{
    match n {
        Next::Going(t) => Next::Going(Lock::Back(held, t)),
        Next::End(o) => match o {
            Ok(()) => Next::End(Err(Error::Semaphore(held))),
            Err(e) => Next::End(Err(e)),
        },
    }
}

fn swesmbi_done(family: Family, v: R<bool>) -> LockNext
    ensures yields { lock_next family result ≡ erase (or_err (swesmbi_done family) (reply v)) }
    ensures limits { valid_lock_next result ≡ true }
{
    match v {
        Ok(got) => {
            if got {
                return Next::End(Ok(()));
            }
            lapse(family, SWESMBI)
        }
        Err(e) => Next::End(Err(e)),
    }
}

fn swesmbi(family: Family, n: SwesmbiNext) -> LockNext
    ensures yields { lock_next family result ≡ followed (swesmbi_next n) (or_err (swesmbi_done family)) }
    ensures limits { valid_swesmbi_next n ≡ true → valid_lock_next result ≡ true }
{
    match n {
        Next::Going(t) => Next::Going(Lock::Second(t)),
        Next::End(v) => swesmbi_done(family, v),
    }
}

fn regsmp_done(family: Family, w: R<u32>) -> LockNext
    ensures yields { lock_next family result ≡ erase (or_err (regsmp_done family) (reply w)) }
    ensures limits { valid_lock_next result ≡ true }
{
    match w {
        Ok(v) => {
            if hardware::none_of(v, REGSMP) {
                return Next::End(Ok(()));
            }
            lapse(family, REGSMP)
        }
        Err(e) => Next::End(Err(e)),
    }
}

fn regsmp(family: Family, n: PollNext) -> LockNext
    ensures yields { lock_next family result ≡ followed (poll_next (regsmp_watch family) n) (or_err (regsmp_done family)) }
    ensures limits { valid_poll_next TRIES n ≡ true → valid_lock_next result ≡ true }
{
    match n {
        Next::Going(t) => Next::Going(Lock::Regsmp(t)),
        Next::End(w) => regsmp_done(family, w),
    }
}

fn second(family: Family) -> LockNext
    ensures yields { lock_next family result ≡ erase (second family) }
    ensures limits { valid_lock_next result ≡ true }
{
    if family.is(Family::F82599) {
        return swesmbi(family, crate::swesmbi::open(TRIES));
    }
    regsmp(
        family,
        hardware::poll::open(crate::regs::regsmp(family), TRIES, 0),
    )
}

fn smbi_done(family: Family, w: R<u32>) -> LockNext
    ensures yields { lock_next family result ≡ erase (or_err (smbi_done family) (reply w)) }
    ensures limits { valid_lock_next result ≡ true }
{
    match w {
        Ok(v) => {
            if hardware::none_of(v, SMBI) {
                return second(family);
            }
            Next::End(Err(Error::Semaphore(SMBI)))
        }
        Err(e) => Next::End(Err(e)),
    }
}

fn smbi(family: Family, n: PollNext) -> LockNext
    ensures yields { lock_next family result ≡ followed (poll_next (smbi_watch family) n) (or_err (smbi_done family)) }
    ensures limits { valid_poll_next TRIES n ≡ true → valid_lock_next result ≡ true }
{
    match n {
        Next::Going(t) => Next::Going(Lock::Smbi(t)),
        Next::End(w) => smbi_done(family, w),
    }
}

pub fn open(family: Family) -> LockNext
    ensures yields { lock_next family result ≡ erase (lock family) }
    ensures limits { valid_lock_next result ≡ true }
{
    smbi(
        family,
        hardware::poll::open(crate::regs::smbi(family), TRIES, 0),
    )
}

pub fn access(family: Family, s: Lock) -> Access
    ensures { result ≡ access_lock family s }
{
    match s {
        Lock::Smbi(t) => hardware::poll::access(crate::regs::smbi(family), t),
        Lock::Second(t) => crate::swesmbi::access(t),
        Lock::Regsmp(t) => hardware::poll::access(crate::regs::regsmp(family), t),
        Lock::Back(_, t) => hardware::change::access(crate::regs::back(family), t),
    }
}

pub fn step(family: Family, s: Lock, a: Answer) -> LockNext
    ensures yields { lock_next family result ≡ erase (rest_lock family s a) }
    ensures limits { valid_lock s ≡ true → valid_lock_next result ≡ true }
{
    match s {
        Lock::Smbi(t) => smbi(
            family,
            hardware::poll::step(crate::regs::smbi(family), t, a),
        ),
        Lock::Second(t) => swesmbi(family, crate::swesmbi::step(t, a)),
        Lock::Regsmp(t) => regsmp(
            family,
            hardware::poll::step(crate::regs::regsmp(family), t, a),
        ),
        Lock::Back(held, t) => back(
            family,
            held,
            hardware::change::step(crate::regs::back(family), t, a),
        ),
    }
}

pub fn valid(s: Lock) -> bool
    ensures { result ≡ valid_lock s }
{
    match s {
        Lock::Smbi(t) => hardware::poll::valid(TRIES, t),
        Lock::Second(t) => crate::swesmbi::valid(t),
        Lock::Regsmp(t) => hardware::poll::valid(TRIES, t),
        Lock::Back(_, _) => true,
    }
}
