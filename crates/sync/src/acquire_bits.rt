// A mask is taken in SW_FW_SYNC: 200 tries 5 ms apart on the 82599 and X540, 1,000 on the others. On the X552 a mask
// with an I2C bit also switches port 1's mux.
#![tactic(auto, using(hardware::proofs::Prog::going, hardware::proofs::Laws::one_less, hardware::proofs::Prog::over, crate::proofs::Laws::acquire_more, hardware::proofs::Laws::both_true), unfolding(crate::specs::Resource::against, hardware::specs::Change::access_update, hardware::specs::Change::rest_update, crate::specs::Resource::valid_acquire_stage, crate::specs::Resource::valid_acquire_bits, crate::specs::Resource::acquire_bits_next, crate::specs::Resource::access_acquire_bits, crate::specs::Resource::access_acquire_stage, crate::specs::Resource::rest_acquire_bits, crate::specs::Resource::rest_acquire_stage, crate::specs::Lock::lock_next, crate::specs::Resource::valid_acquire_bits_next, hardware::specs::Prog::pick, crate::specs::Lock::valid_lock_next, hardware::specs::Prog::followed, hardware::specs::Prog::erase, hardware::specs::Prog::or_err, hardware::specs::Registers::reply, crate::specs::Resource::try_read, crate::specs::Resource::acquire_tries, hardware::specs::Failures::failure_of, crate::specs::Resource::muxed, hardware::specs::Change::change, hardware::specs::Change::update_next, crate::specs::Resource::taken, crate::specs::Lock::unlock_next, crate::specs::Resource::try_again, crate::specs::Resource::sync_seen, crate::specs::Resource::free))]

ghost use Rattle.std.specs.Prelude.{◌<◌, ◌≤◌, ◌≡◌, true};
ghost use Rattle.hardware.specs.Prog.{erase, followed, or_err, Err};
ghost use Rattle.hardware.specs.Registers.{reply};
ghost use Rattle.hardware.specs.Change.{update_next};
ghost use Rattle.sync.specs.Regs.{set_mux, tries as tries_of};
ghost use Rattle.sync.specs.Lock.{lock_next, valid_lock_next, unlock_next};
ghost use Rattle.sync.specs.Resource.{access_acquire_stage, rest_acquire_stage, against, muxed, taken, try_read, try_again, sync_seen, acquire_tries, access_acquire_bits, rest_acquire_bits, acquire_bits_next, valid_acquire_stage, valid_acquire_bits, valid_acquire_bits_next};

use crate::lock::{Lock, LockNext};
use crate::unlock::{Unlock, UnlockNext};
use hardware::{Access, Answer, Error, Family, Millis, Next, Port, R, Update, UpdateNext};

// Taken: with how the write of the bits ended, or the read before it where that failed: the semaphore goes back before
// it is reported. Unlocking and Waiting: with the bits that were found held.
#[derive(Clone, Copy)]
pub enum Stage {
    Locking(Lock),
    Reading,
    Taking(u32),
    Taken(Unlock, R<()>),
    Muxing(Update),
    Unlocking(Unlock, u32),
    Waiting(u32),
}

// left: the tries after this one.
#[derive(Clone, Copy)]
pub struct AcquireBits {
    pub left: u32,
    pub stage: Stage,
}

pub type AcquireBitsNext = Next<AcquireBits, R<()>>;

// The bits of SW_FW_SYNC that stand against the mask.
fn all(family: Family, mask: u32) -> u32
    ensures { result ≡ against family mask }
{
    let m = crate::regs::bits(family, mask);
    m.sw | m.fw | m.hw
}

fn locking(port: Port, mask: u32, left: u32, n: LockNext) -> AcquireBitsNext
    ensures yields { acquire_bits_next port mask result ≡ followed (lock_next port.family n) (or_err (λ _. try_read port mask left)) }
    ensures limits { left < tries_of port.family → valid_lock_next n ≡ true → valid_acquire_bits_next port.family result ≡ true }
{
    match n {
        Next::Going(t) => Next::Going(AcquireBits {
            left,
            stage: Stage::Locking(t),
        }),
        Next::End(o) => match o {
            Ok(()) => Next::Going(AcquireBits {
                left,
                stage: Stage::Reading,
            }),
            Err(e) => Next::End(Err(e)),
        },
    }
}

pub fn open(port: Port, mask: u32, tries: u32, held: u32) -> AcquireBitsNext
    ensures yields { acquire_bits_next port mask result ≡ erase (acquire_tries port mask tries held) }
    ensures limits { tries ≤ tries_of port.family → valid_acquire_bits_next port.family result ≡ true }
{
    if tries == 0 {
        return Next::End(Err(Error::Semaphore(held)));
    }
    let family = port.family;
    locking(port, mask, tries - 1, crate::lock::open(family))
}

fn mux(port: Port, mask: u32, left: u32) -> AcquireBitsNext
    ensures yields { acquire_bits_next port mask result ≡ erase (muxed port mask true) }
    ensures limits { left < tries_of port.family → valid_acquire_bits_next port.family result ≡ true }
{
    if crate::regs::mux(port, mask) {
        return Next::Going(AcquireBits {
            left,
            stage: Stage::Muxing(Update::Reading),
        });
    }
    Next::End(Ok(()))
}

fn muxing(port: Port, mask: u32, left: u32, n: UpdateNext) -> AcquireBitsNext
    ensures yields { acquire_bits_next port mask result ≡ update_next (set_mux true) n }
    ensures limits { left < tries_of port.family → valid_acquire_bits_next port.family result ≡ true }
{
    match n {
        Next::Going(t) => Next::Going(AcquireBits {
            left,
            stage: Stage::Muxing(t),
        }),
        Next::End(o) => Next::End(o),
    }
}

fn wrote(port: Port, mask: u32, left: u32, w: R<()>) -> AcquireBitsNext
    ensures yields { acquire_bits_next port mask result ≡ erase (taken port mask (reply w)) }
    ensures limits { left < tries_of port.family → valid_acquire_bits_next port.family result ≡ true }
{
    match w {
        Ok(()) => mux(port, mask, left),
        Err(e) => Next::End(Err(e)),
    }
}

fn taking(port: Port, mask: u32, left: u32, w: R<()>, n: UnlockNext) -> AcquireBitsNext
    ensures yields { acquire_bits_next port mask result ≡ followed (unlock_next port.family n) (or_err (λ _. taken port mask (reply w))) }
    ensures limits { left < tries_of port.family → valid_acquire_bits_next port.family result ≡ true }
{
    match n {
        Next::Going(t) => Next::Going(AcquireBits {
            left,
            stage: Stage::Taken(t, w),
        }),
        Next::End(o) => match o {
            Ok(()) => wrote(port, mask, left, w),
            Err(e) => Next::End(Err(e)),
        },
    }
}

fn unlocking(port: Port, mask: u32, left: u32, held: u32, n: UnlockNext) -> AcquireBitsNext
    ensures yields { acquire_bits_next port mask result ≡ followed (unlock_next port.family n) (or_err (λ _. try_again port mask left held)) }
    ensures limits { left < tries_of port.family → valid_acquire_bits_next port.family result ≡ true }
{
    match n {
        Next::Going(t) => Next::Going(AcquireBits {
            left,
            stage: Stage::Unlocking(t, held),
        }),
        Next::End(o) => match o {
            Ok(()) => Next::Going(AcquireBits {
                left,
                stage: Stage::Waiting(held),
            }),
            Err(e) => Next::End(Err(e)),
        },
    }
}

fn seen(port: Port, mask: u32, left: u32, w: R<u32>) -> AcquireBitsNext
    ensures yields { acquire_bits_next port mask result ≡ erase (sync_seen port mask (acquire_tries port mask left) (reply w)) }
    ensures limits { left < tries_of port.family → valid_acquire_bits_next port.family result ≡ true }
{
    let family = port.family;
    match w {
        Ok(sync) => {
            let against = all(family, mask);
            if hardware::none_of(sync, against) {
                let taken = crate::regs::bits(family, mask).sw;
                return Next::Going(AcquireBits {
                    left,
                    stage: Stage::Taking(sync | taken),
                });
            }
            unlocking(
                port,
                mask,
                left,
                sync & against,
                crate::unlock::open(family),
            )
        }
        Err(e) => taking(port, mask, left, Err(e), crate::unlock::open(family)),
    }
}

fn stage_access(port: Port, mask: u32, s: Stage) -> Access
    ensures { result ≡ access_acquire_stage port mask s }
{
    let family = port.family;
    match s {
        Stage::Locking(t) => crate::lock::access(family, t),
        Stage::Reading => Access::Read(crate::regs::regs(family).sw_fw_sync),
        Stage::Taking(v) => Access::Write(crate::regs::regs(family).sw_fw_sync, v),
        Stage::Taken(t, _) => crate::unlock::access(family, t),
        Stage::Muxing(t) => hardware::change::access(crate::regs::set_mux(true), t),
        Stage::Unlocking(t, _) => crate::unlock::access(family, t),
        Stage::Waiting(_) => Access::Wait(hardware::delay_ms(Millis(5))),
    }
}

pub fn access(port: Port, mask: u32, s: AcquireBits) -> Access
    ensures { result ≡ access_acquire_bits port mask s }
{
    let stage = s.stage;
    stage_access(port, mask, stage)
}

fn stage_step(port: Port, mask: u32, left: u32, s: Stage, a: Answer) -> AcquireBitsNext
    ensures yields { acquire_bits_next port mask result ≡ erase (rest_acquire_stage port mask left s a) }
    ensures limits { left < tries_of port.family → valid_acquire_stage s ≡ true → valid_acquire_bits_next port.family result ≡ true }
{
    let family = port.family;
    match s {
        Stage::Locking(t) => locking(port, mask, left, crate::lock::step(family, t, a)),
        Stage::Reading => seen(port, mask, left, hardware::read(a)),
        Stage::Taking(_) => taking(
            port,
            mask,
            left,
            hardware::write(a),
            crate::unlock::open(family),
        ),
        Stage::Taken(t, w) => taking(port, mask, left, w, crate::unlock::step(family, t, a)),
        Stage::Muxing(t) => muxing(
            port,
            mask,
            left,
            hardware::change::step(crate::regs::set_mux(true), t, a),
        ),
        Stage::Unlocking(t, held) => unlocking(
            port,
            mask,
            left,
            held,
            crate::unlock::step(family, t, a),
        ),
        Stage::Waiting(held) => open(port, mask, left, held),
    }
}

pub fn step(port: Port, mask: u32, s: AcquireBits, a: Answer) -> AcquireBitsNext
    ensures yields { acquire_bits_next port mask result ≡ erase (rest_acquire_bits port mask s a) }
    ensures limits { valid_acquire_bits port.family s ≡ true → valid_acquire_bits_next port.family result ≡ true }
{
    let stage = s.stage;
    stage_step(port, mask, s.left, stage, a)
}

fn stage_valid(s: Stage) -> bool
    ensures { result ≡ valid_acquire_stage s }
{
    match s {
        Stage::Locking(t) => crate::lock::valid(t),
        Stage::Reading => true,
        Stage::Taking(_) => true,
        Stage::Taken(_, _) => true,
        Stage::Muxing(_) => true,
        Stage::Unlocking(_, _) => true,
        Stage::Waiting(_) => true,
    }
}

pub fn valid(family: Family, s: AcquireBits) -> bool
    ensures { result ≡ valid_acquire_bits family s }
{
    if s.left < crate::regs::tries(family) {
        let stage = s.stage;
        return stage_valid(stage);
    }
    false
}
