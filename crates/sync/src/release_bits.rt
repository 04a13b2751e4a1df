// A mask is given back in SW_FW_SYNC: the mux first, then the software bits; then, from the X540 on, a wait.
#![tactic(auto, using(hardware::proofs::Prog::going, hardware::proofs::Prog::over), unfolding(crate::specs::Resource::clear_bits, crate::specs::Resource::release_bits_next, hardware::specs::Prog::erase, hardware::specs::Prog::or_err, hardware::specs::Prog::pick, hardware::specs::Registers::reply, crate::specs::Resource::settle, crate::specs::Resource::valid_release_bits, crate::specs::Resource::valid_release_bits_next, crate::specs::Resource::access_release_bits, crate::specs::Resource::rest_release_bits, crate::specs::Lock::unlock_next, hardware::specs::Prog::followed, crate::specs::Resource::cleared, hardware::specs::Change::update_next, crate::specs::Lock::lock_next, crate::specs::Lock::valid_lock_next, crate::specs::Resource::clearing, hardware::specs::Change::change, hardware::specs::Change::access_update, hardware::specs::Change::rest_update, crate::specs::Resource::unmuxed, crate::specs::Resource::muxed, crate::specs::Resource::release_bits, crate::specs::Resource::try_again, crate::specs::Resource::against, crate::specs::Resource::valid_acquire_stage, crate::specs::Resource::valid_acquire_bits))]

ghost use Rattle.std.specs.Prelude.{◌≡◌, true, false};
ghost use Rattle.hardware.specs.Prog.{erase, followed, or_err};
ghost use Rattle.hardware.specs.Registers.{reply};
ghost use Rattle.hardware.specs.Change.{update_next};
ghost use Rattle.sync.specs.Regs.{set_mux};
ghost use Rattle.sync.specs.Lock.{lock_next, valid_lock_next, unlock_next};
ghost use Rattle.sync.specs.Resource.{clear_bits, clearing, settle, cleared, unmuxed, release_bits, access_release_bits, rest_release_bits, release_bits_next, valid_release_bits, valid_release_bits_next};

use crate::lock::{Lock, LockNext};
use crate::unlock::{Unlock, UnlockNext};
use hardware::change::Change;
use hardware::{Access, Answer, Family, Micros, Next, Port, R, Update, UpdateNext};

// Unlocking: with how the write that cleared the bits ended.
#[derive(Clone, Copy)]
pub enum ReleaseBits {
    Muxing(Update),
    Locking(Lock),
    Clearing(Update),
    Unlocking(Unlock, R<()>),
    Waiting,
}

pub type ReleaseBitsNext = Next<ReleaseBits, R<()>>;

fn change(family: Family, mask: u32) -> Change
    ensures { result ≡ clear_bits family mask }
{
    crate::regs::clear_sync(family, crate::regs::bits(family, mask).sw)
}

fn finish(port: Port, mask: u32, w: R<()>) -> ReleaseBitsNext
    ensures yields { release_bits_next port mask result ≡ erase (or_err (λ _. settle port mask) (reply w)) }
    ensures limits { valid_release_bits_next result ≡ true }
{
    match w {
        Ok(()) => {
            let family = port.family;
            if family.is(Family::F82599) {
                return Next::End(Ok(()));
            }
            Next::Going(ReleaseBits::Waiting)
        }
        Err(e) => Next::End(Err(e)),
    }
}

fn unlocking(port: Port, mask: u32, w: R<()>, n: UnlockNext) -> ReleaseBitsNext
    ensures yields { release_bits_next port mask result ≡ followed (unlock_next port.family n) (or_err (λ _. or_err (λ _. settle port mask) (reply w))) }
    ensures limits { valid_release_bits_next result ≡ true }
{
    match n {
        Next::Going(t) => Next::Going(ReleaseBits::Unlocking(t, w)),
        Next::End(o) => match o {
            Ok(()) => finish(port, mask, w),
            Err(e) => Next::End(Err(e)),
        },
    }
}

fn clear_done(port: Port, mask: u32, w: R<()>) -> ReleaseBitsNext
    ensures yields { release_bits_next port mask result ≡ erase (cleared port mask (reply w)) }
    ensures limits { valid_release_bits_next result ≡ true }
{
    let family = port.family;
    unlocking(port, mask, w, crate::unlock::open(family))
}

fn clearing(port: Port, mask: u32, n: UpdateNext) -> ReleaseBitsNext
    ensures yields { release_bits_next port mask result ≡ followed (update_next (clear_bits port.family mask) n) (cleared port mask) }
    ensures limits { valid_release_bits_next result ≡ true }
{
    match n {
        Next::Going(t) => Next::Going(ReleaseBits::Clearing(t)),
        Next::End(o) => clear_done(port, mask, o),
    }
}

fn locking(port: Port, mask: u32, n: LockNext) -> ReleaseBitsNext
    ensures yields { release_bits_next port mask result ≡ followed (lock_next port.family n) (or_err (λ _. clearing port mask)) }
    ensures limits { valid_lock_next n ≡ true → valid_release_bits_next result ≡ true }
{
    match n {
        Next::Going(t) => Next::Going(ReleaseBits::Locking(t)),
        Next::End(o) => match o {
            Ok(()) => Next::Going(ReleaseBits::Clearing(Update::Reading)),
            Err(e) => Next::End(Err(e)),
        },
    }
}

fn lock(port: Port, mask: u32) -> ReleaseBitsNext
    ensures yields { release_bits_next port mask result ≡ erase (unmuxed port mask) }
    ensures limits { valid_release_bits_next result ≡ true }
{
    let family = port.family;
    locking(port, mask, crate::lock::open(family))
}

fn muxing(port: Port, mask: u32, n: UpdateNext) -> ReleaseBitsNext
    ensures yields { release_bits_next port mask result ≡ followed (update_next (set_mux false) n) (or_err (λ _. unmuxed port mask)) }
    ensures limits { valid_release_bits_next result ≡ true }
{
    match n {
        Next::Going(t) => Next::Going(ReleaseBits::Muxing(t)),
        Next::End(o) => match o {
            Ok(()) => lock(port, mask),
            Err(e) => Next::End(Err(e)),
        },
    }
}

pub fn open(port: Port, mask: u32) -> ReleaseBitsNext
    ensures yields { release_bits_next port mask result ≡ erase (release_bits port mask) }
    ensures limits { valid_release_bits_next result ≡ true }
{
    if crate::regs::mux(port, mask) {
        return Next::Going(ReleaseBits::Muxing(Update::Reading));
    }
    lock(port, mask)
}

pub fn access(port: Port, mask: u32, s: ReleaseBits) -> Access
    ensures { result ≡ access_release_bits port mask s }
{
    let family = port.family;
    match s {
        ReleaseBits::Muxing(t) => hardware::change::access(crate::regs::set_mux(false), t),
        ReleaseBits::Locking(t) => crate::lock::access(family, t),
        ReleaseBits::Clearing(t) => hardware::change::access(change(family, mask), t),
        ReleaseBits::Unlocking(t, _) => crate::unlock::access(family, t),
        ReleaseBits::Waiting => Access::Wait(Micros(crate::regs::release_us(mask))),
    }
}

pub fn step(port: Port, mask: u32, s: ReleaseBits, a: Answer) -> ReleaseBitsNext
    ensures yields { release_bits_next port mask result ≡ erase (rest_release_bits port mask s a) }
    ensures limits { valid_release_bits s ≡ true → valid_release_bits_next result ≡ true }
{
    let family = port.family;
    match s {
        ReleaseBits::Muxing(t) => muxing(
            port,
            mask,
            hardware::change::step(crate::regs::set_mux(false), t, a),
        ),
        ReleaseBits::Locking(t) => locking(port, mask, crate::lock::step(family, t, a)),
        ReleaseBits::Clearing(t) => clearing(
            port,
            mask,
            hardware::change::step(change(family, mask), t, a),
        ),
        ReleaseBits::Unlocking(t, w) => unlocking(port, mask, w, crate::unlock::step(family, t, a)),
        ReleaseBits::Waiting => Next::End(Ok(())),
    }
}

pub fn valid(s: ReleaseBits) -> bool
    ensures { result ≡ valid_release_bits s }
{
    match s {
        ReleaseBits::Muxing(_) => true,
        ReleaseBits::Locking(t) => crate::lock::valid(t),
        ReleaseBits::Clearing(_) => true,
        ReleaseBits::Unlocking(_, _) => true,
        ReleaseBits::Waiting => true,
    }
}
