// The attempts of a call under its lock: a read takes the lock for each attempt, a write holds it across both.
#![tactic(auto, using(bus::proofs::Laws::picked, crate::proofs::Laws::begins, hardware::proofs::Prog::going, hardware::proofs::Prog::over, crate::proofs::Laws::when_no, crate::proofs::Laws::when_yes, crate::proofs::Masks::taken_first, crate::proofs::Laws::again_more, crate::proofs::Laws::tries_reads, crate::proofs::Masks::given_first, crate::proofs::Laws::write_again, crate::proofs::Laws::write_done, crate::proofs::Laws::write_last, crate::proofs::Laws::read_done, hardware::proofs::Prog::heard_on, crate::proofs::Laws::read_open, crate::proofs::Laws::write_open), unfolding(crate::specs::Retry::valid_retry_next, crate::specs::Retry::valid_retry, crate::specs::Retry::valid_stage, transfer::specs::Attempt::valid_attempt, crate::specs::Retry::due_retry_next, crate::specs::Retry::due_retry, crate::specs::Retry::due_stage, hardware::specs::Marks::more, hardware::specs::Prog::pick, hardware::specs::Marks::marked, hardware::specs::Marks::acknowledged, crate::specs::Retry::retry_next, crate::specs::Retry::access_retry, crate::specs::Retry::access_stage, crate::specs::Retry::rest_retry, crate::specs::Retry::rest_stage, sync::specs::Resource::acquire_bits_next, sync::specs::Resource::valid_acquire_bits_next, hardware::specs::Prog::followed, hardware::specs::Prog::or_err, hardware::specs::Registers::reply, hardware::specs::Prog::erase, crate::specs::Retry::locked_try, sync::specs::Resource::acquire_bits, crate::specs::Retry::tries_left, hardware::specs::Failures::failure_of, crate::specs::I2c::pauses, crate::specs::I2c::read_judged, crate::specs::Retry::after_release, sync::specs::Resource::release_bits_next, sync::specs::Resource::valid_release_bits_next, crate::specs::Retry::back_then, transfer::specs::Attempt::attempt_next, transfer::specs::Attempt::awaiting, transfer::specs::Attempt::valid_attempt_next, transfer::specs::Transfer::tells, crate::specs::Retry::wanted))]

ghost use Rattle.std.specs.Prelude.{ℕ, ◌<◌, ◌≤◌, suc, ◌≡◌, true, false};
ghost use Rattle.hardware.specs.Promise.{Counts};
ghost use Rattle.hardware.specs.Prog.{erase, followed, or_err};
ghost use Rattle.sync.specs.Resource.{acquire_bits_next, valid_acquire_bits_next, release_bits_next, valid_release_bits_next};
ghost use Rattle.bus.specs.Layout.{layout_of};
ghost use Rattle.transfer.specs.Transfer.{keeping};
ghost use Rattle.transfer.specs.Attempt.{attempt_next, valid_attempt_next};
ghost use Rattle.i2c.specs.I2c.{mask, device_of, script_of, is_write, pauses, read_judged, read_tries, retried};
ghost use Rattle.i2c.specs.Retry.{wanted, try_now, locked_try, tries_left, after_try, back_then, after_release, access_retry, rest_retry, retry_next, due_retry, due_retry_next, valid_stage, valid_retry, valid_retry_next};
ghost use Rattle.hardware.specs.Registers.{reply};
ghost use Rattle.transfer.specs.declared.transfer.Handing.TheVariants.{Going as Goes};

use crate::How;
use crate::once::Request;
use bus::Taken;
use hardware::{ATTEMPT_BEGINS, Access, Answer, Error, Marks, Millis, Next, Port, R, UNMARKED};
use sync::acquire_bits::{AcquireBits, AcquireBitsNext};
use sync::release_bits::{ReleaseBits, ReleaseBitsNext};
use transfer::attempt::{Attempt, AttemptNext};
use transfer::transfer::Handing;

// Acquiring, Releasing: no mask of a transfer has TOKEN, so a lock is its bits of SW_FW_SYNC. Releasing: with how the
// attempt ended.
#[derive(Clone, Copy)]
pub enum Stage {
    Acquiring(AcquireBits),
    Trying(Attempt),
    Releasing(R<Taken>, ReleaseBits),
    Pausing,
}

// left: the attempts after this one; while acquiring, after the one to come.
#[derive(Clone, Copy)]
pub struct Retry {
    pub left: u8,
    pub stage: Stage,
}

pub type RetryNext = Next<(Marks, Retry), R<Taken>>;

// An attempt begins.
fn begin(left: u8) -> RetryNext
    ensures { Counts ((port : Port) (r : Request) (how : How) → retry_next port r how result ≡ erase (try_now port r how left)) ((tries : ℕ) (port : Port) (r : Request) → left < tries → valid_retry_next tries port r result ≡ true) (due_retry_next result ≤ suc left) }
{
    Next::Going((
        ATTEMPT_BEGINS,
        Retry {
            left,
            stage: Stage::Trying(Attempt::New),
        },
    ))
}

fn acquired(left: u8, n: AcquireBitsNext) -> RetryNext
    ensures { Counts ((port : Port) (r : Request) (how : How) → retry_next port r how result ≡ followed (acquire_bits_next port (mask port) n) (or_err (λ _. try_now port r how left))) ((tries : ℕ) (port : Port) (r : Request) → left < tries → valid_acquire_bits_next port.family n ≡ true → valid_retry_next tries port r result ≡ true) (due_retry_next result ≤ suc left) }
{
    match n {
        Next::Going(s) => Next::Going((
            UNMARKED,
            Retry {
                left,
                stage: Stage::Acquiring(s),
            },
        )),
        Next::End(o) => match o {
            Ok(()) => begin(left),
            Err(e) => Next::End(Err(e)),
        },
    }
}

// An attempt is made, under the lock where it is wanted.
fn locked(port: Port, how: How, left: u8) -> RetryNext
    ensures { Counts ((r : Request) → retry_next port r how result ≡ erase (locked_try port r how left)) ((tries : ℕ) (r : Request) → left < tries → valid_retry_next tries port r result ≡ true) (due_retry_next result ≤ suc left) }
{
    if how.lock {
        let family = port.family;
        return acquired(
            left,
            sync::acquire_bits::open(port, crate::mask(port), sync::regs::tries(family), 0),
        );
    }
    begin(left)
}

// The attempts that are left.
fn again(port: Port, r: Request, how: How, left: u8) -> RetryNext
    ensures { Counts (retry_next port r how result ≡ erase (tries_left port r how left)) ((tries : ℕ) → left ≤ tries → valid_retry_next tries port r result ≡ true) (due_retry_next result ≤ left) }
{
    if left == 0 {
        return Next::End(Err(Error::I2c(crate::once::device(r))));
    }
    locked(port, how, left - 1)
}

fn pauses(r: Request, lock: bool) -> bool
    ensures { result ≡ pauses r lock }
{
    match r {
        Request::ReadByte(_, _) => lock,
        Request::WriteByte(_, _, _) => false,
        Request::ReadCombined(_, _) => false,
        Request::WriteCombined(_, _, _) => false,
    }
}

fn judge(port: Port, r: Request, how: How, left: u8, g: R<Taken>) -> RetryNext
    ensures { Counts (is_write r ≡ false → retry_next port r how result ≡ erase (read_judged r how.lock (λ _. read_tries port r how left) (reply g))) ((tries : ℕ) → left < tries → valid_retry_next tries port r result ≡ true) (due_retry_next result ≤ left) }
{
    if crate::once::failed(g) {
        if pauses(r, how.lock) {
            return Next::Going((
                UNMARKED,
                Retry {
                    left,
                    stage: Stage::Pausing,
                },
            ));
        }
        return again(port, r, how, left);
    }
    Next::End(g)
}

fn after_release(port: Port, r: Request, how: How, left: u8, g: R<Taken>) -> RetryNext
    ensures { Counts (retry_next port r how result ≡ erase (after_release port r how left (reply g))) ((tries : ℕ) → left < tries → valid_retry_next tries port r result ≡ true) (due_retry_next result ≤ left) }
{
    if crate::once::is_write(r) {
        return Next::End(g);
    }
    judge(port, r, how, left, g)
}

fn released(
    port: Port,
    r: Request,
    how: How,
    left: u8,
    g: R<Taken>,
    n: ReleaseBitsNext,
) -> RetryNext
    ensures { Counts (retry_next port r how result ≡ followed (release_bits_next port (mask port) n) (or_err (λ _. after_release port r how left (reply g)))) ((tries : ℕ) → left < tries → valid_release_bits_next n ≡ true → valid_retry_next tries port r result ≡ true) (due_retry_next result ≤ left) }
{
    match n {
        Next::Going(s) => Next::Going((
            UNMARKED,
            Retry {
                left,
                stage: Stage::Releasing(g, s),
            },
        )),
        Next::End(o) => match o {
            Ok(()) => after_release(port, r, how, left, g),
            Err(e) => Next::End(Err(e)),
        },
    }
}

// The lock is given back where it was taken.
fn give_back(port: Port, r: Request, how: How, left: u8, g: R<Taken>) -> RetryNext
    ensures { Counts (retry_next port r how result ≡ erase (back_then port how.lock (after_release port r how left (reply g)))) ((tries : ℕ) → left < tries → valid_retry_next tries port r result ≡ true) (due_retry_next result ≤ left) }
{
    if how.lock {
        return released(
            port,
            r,
            how,
            left,
            g,
            sync::release_bits::open(port, crate::mask(port)),
        );
    }
    after_release(port, r, how, left, g)
}

// A write that failed is tried again while an attempt is left.
fn after_write(port: Port, r: Request, how: How, left: u8, g: R<Taken>) -> RetryNext
    ensures { Counts (is_write r ≡ true → retry_next port r how result ≡ erase (after_try port r how left (reply g))) ((tries : ℕ) → left < tries → valid_retry_next tries port r result ≡ true) (due_retry_next result ≤ left) }
{
    if crate::once::failed(g) {
        if left == 0 {
            return give_back(port, r, how, left, g);
        }
        return begin(left - 1);
    }
    give_back(port, r, how, left, g)
}

fn after_try(port: Port, r: Request, how: How, left: u8, g: R<Taken>) -> RetryNext
    ensures { Counts (retry_next port r how result ≡ erase (after_try port r how left (reply g))) ((tries : ℕ) → left < tries → valid_retry_next tries port r result ≡ true) (due_retry_next result ≤ left) }
{
    if crate::once::is_write(r) {
        return after_write(port, r, how, left, g);
    }
    give_back(port, r, how, left, g)
}

// An attempt goes on, and says whether a byte was acknowledged.
fn trying(left: u8, s: Attempt) -> RetryNext
    ensures { Counts ((port : Port) (r : Request) (how : How) → retry_next port r how result ≡ followed (attempt_next keeping how.sequence (layout_of port.family) (device_of r) (script_of r) (Goes s)) (after_try port r how left)) ((tries : ℕ) (port : Port) (r : Request) → left < tries → valid_attempt_next (layout_of port.family) (script_of r) (Goes s) ≡ true → valid_retry_next tries port r result ≡ true) (due_retry_next result ≤ left) }
{
    Next::Going((
        hardware::hears(transfer::attempt::heard(s)),
        Retry {
            left,
            stage: Stage::Trying(s),
        },
    ))
}

fn tried(port: Port, r: Request, how: How, left: u8, n: AttemptNext) -> RetryNext
    ensures { Counts (retry_next port r how result ≡ followed (attempt_next keeping how.sequence (layout_of port.family) (device_of r) (script_of r) n) (after_try port r how left)) ((tries : ℕ) → left < tries → valid_attempt_next (layout_of port.family) (script_of r) n ≡ true → valid_retry_next tries port r result ≡ true) (due_retry_next result ≤ left) }
{
    match n {
        Handing::Going(s) => trying(left, s),
        Handing::Read(_, s) => trying(left, s),
        Handing::End(g) => after_try(port, r, how, left, g),
    }
}

// The attempts of a call, tries of them for a read.
pub fn open(port: Port, r: Request, how: How, tries: u8) -> RetryNext
    ensures { Counts (retry_next port r how result ≡ erase (retried port r how tries)) ((most : ℕ) → wanted r tries ≤ most → valid_retry_next most port r result ≡ true) (due_retry_next result ≤ wanted r tries) }
{
    if crate::once::is_write(r) {
        return locked(port, how, 1);
    }
    again(port, r, how, tries)
}

pub fn access(port: Port, s: Retry) -> Access
    ensures { result ≡ access_retry port s }
{
    let stage = s.stage;
    let family = port.family;
    match stage {
        Stage::Acquiring(t) => sync::acquire_bits::access(port, crate::mask(port), t),
        Stage::Trying(t) => transfer::attempt::access(bus::layout_of(family), t),
        Stage::Releasing(_, t) => sync::release_bits::access(port, crate::mask(port), t),
        Stage::Pausing => Access::Wait(hardware::delay_ms(Millis(100))),
    }
}

#[tactic(auto, using(bus::proofs::Laws::picked_first, bus::proofs::Laws::picked_second, crate::proofs::Laws::less, hardware::proofs::Prog::over), unfolding(crate::specs::Retry::rest_retry, crate::specs::Retry::rest_stage, crate::specs::Retry::valid_retry, crate::specs::Retry::valid_stage, crate::specs::Retry::due_retry, crate::specs::Retry::due_stage))]
pub fn step(port: Port, r: Request, how: How, s: Retry, a: Answer) -> RetryNext
    ensures { Counts (retry_next port r how result ≡ erase (rest_retry port r how s a)) ((tries : ℕ) → valid_retry tries port r s ≡ true → valid_retry_next tries port r result ≡ true) (due_retry_next result ≤ due_retry s) }
{
    let stage = s.stage;
    let family = port.family;
    let q = how.sequence;
    match stage {
        Stage::Acquiring(t) => acquired(
            s.left,
            sync::acquire_bits::step(port, crate::mask(port), t, a),
        ),
        Stage::Trying(t) => tried(
            port,
            r,
            how,
            s.left,
            crate::once::step(q, bus::layout_of(family), r, t, a),
        ),
        Stage::Releasing(g, t) => released(
            port,
            r,
            how,
            s.left,
            g,
            sync::release_bits::step(port, crate::mask(port), t, a),
        ),
        Stage::Pausing => again(port, r, how, s.left),
    }
}

// The most attempts that are to come.
pub fn due(s: Retry) -> u32
    ensures { result ≡ due_retry s }
{
    let stage = s.stage;
    match stage {
        Stage::Acquiring(_) => s.left as u32 + 1,
        Stage::Trying(_) => s.left as u32,
        Stage::Releasing(_, _) => s.left as u32,
        Stage::Pausing => s.left as u32,
    }
}

fn valid_stage(port: Port, r: Request, stage: Stage) -> bool
    ensures { result ≡ valid_stage port r stage }
{
    let family = port.family;
    match stage {
        Stage::Acquiring(t) => sync::acquire_bits::valid(family, t),
        Stage::Trying(t) => crate::once::valid(bus::layout_of(family), r, t),
        Stage::Releasing(_, t) => sync::release_bits::valid(t),
        Stage::Pausing => true,
    }
}

// Fewer attempts are left than the request has.
pub fn valid(tries: u32, port: Port, r: Request, s: Retry) -> bool
    ensures { result ≡ valid_retry tries port r s }
{
    let stage = s.stage;
    if (s.left as u32) < tries {
        return valid_stage(port, r, stage);
    }
    false
}
