// 82599: SWSM.SWESMBI is set, and is ours if it reads back as set; 2,000 tries 50 µs apart.
#![tactic(auto, using(hardware::proofs::Laws::one_less, crate::proofs::Laws::swesmbi_more, hardware::proofs::Prog::going, hardware::proofs::Laws::below, hardware::proofs::Prog::fed, hardware::proofs::Prog::over), unfolding(crate::specs::Lock::swesmbi, crate::specs::Lock::swesmbi_next, hardware::specs::Registers::reply, hardware::specs::Prog::erase, crate::specs::Lock::valid_swesmbi_next, crate::specs::Lock::valid_swesmbi, crate::specs::Lock::access_swesmbi, crate::specs::Lock::rest_swesmbi, hardware::specs::Change::update_next, crate::specs::Lock::swesmbi_check, hardware::specs::Prog::followed, hardware::specs::Prog::or_err, crate::specs::Lock::swesmbi_seen, hardware::specs::Prog::pick))]

ghost use Rattle.std.specs.Prelude.{◌<◌, ◌≤◌, ◌≡◌, true};
ghost use Rattle.hardware.specs.Prog.{erase, followed, or_err};
ghost use Rattle.hardware.specs.Registers.{reply};
ghost use Rattle.hardware.specs.Change.{update_next};
ghost use Rattle.sync.specs.Regs.{TRIES, set_swesmbi};
ghost use Rattle.sync.specs.Lock.{swesmbi, swesmbi_seen, swesmbi_check, access_swesmbi, rest_swesmbi, swesmbi_next, valid_swesmbi, valid_swesmbi_next};

use crate::regs::{SWESMBI, SWSM};
use hardware::change::{Bits, Change};
use hardware::{Access, Answer, Micros, Next, R, Update, UpdateNext};

// The tries left after this one, first in each.
#[derive(Clone, Copy)]
pub enum Swesmbi {
    Setting(u32, Update),
    Checking(u32),
    Waiting(u32),
}

pub type SwesmbiNext = Next<Swesmbi, R<bool>>;

fn setting() -> Change
    ensures { result ≡ set_swesmbi }
{
    Change {
        register: SWSM,
        bits: Bits::Set(SWESMBI),
        flushed: false,
    }
}

pub fn open(tries: u32) -> SwesmbiNext
    ensures yields { swesmbi_next result ≡ erase (swesmbi tries) }
    ensures limits { tries ≤ TRIES → valid_swesmbi_next result ≡ true }
{
    if tries == 0 {
        return Next::End(Ok(false));
    }
    Next::Going(Swesmbi::Setting(tries - 1, Update::Reading))
}

pub fn access(s: Swesmbi) -> Access
    ensures { result ≡ access_swesmbi s }
{
    match s {
        Swesmbi::Setting(_, t) => hardware::change::access(setting(), t),
        Swesmbi::Checking(_) => Access::Read(SWSM),
        Swesmbi::Waiting(_) => Access::Wait(Micros(50)),
    }
}

fn set(left: u32, n: UpdateNext) -> SwesmbiNext
    ensures yields { swesmbi_next result ≡ followed (update_next set_swesmbi n) (or_err (λ _. swesmbi_check left)) }
    ensures limits { left < TRIES → valid_swesmbi_next result ≡ true }
{
    match n {
        Next::Going(t) => Next::Going(Swesmbi::Setting(left, t)),
        Next::End(o) => match o {
            Ok(()) => Next::Going(Swesmbi::Checking(left)),
            Err(e) => Next::End(Err(e)),
        },
    }
}

fn seen(left: u32, w: R<u32>) -> SwesmbiNext
    ensures yields { swesmbi_next result ≡ erase (or_err (swesmbi_seen (λ _. swesmbi left)) (reply w)) }
    ensures limits { left < TRIES → valid_swesmbi_next result ≡ true }
{
    match w {
        Ok(v) => {
            if hardware::none_of(v, SWESMBI) {
                return Next::Going(Swesmbi::Waiting(left));
            }
            Next::End(Ok(true))
        }
        Err(e) => Next::End(Err(e)),
    }
}

pub fn step(s: Swesmbi, a: Answer) -> SwesmbiNext
    ensures yields { swesmbi_next result ≡ erase (rest_swesmbi s a) }
    ensures limits { valid_swesmbi s ≡ true → valid_swesmbi_next result ≡ true }
{
    match s {
        Swesmbi::Setting(left, t) => set(left, hardware::change::step(setting(), t, a)),
        Swesmbi::Checking(left) => seen(left, hardware::read(a)),
        Swesmbi::Waiting(left) => open(left),
    }
}

pub fn valid(s: Swesmbi) -> bool
    ensures { result ≡ valid_swesmbi s }
{
    match s {
        Swesmbi::Setting(left, _) => left < crate::regs::TRIES,
        Swesmbi::Checking(left) => left < crate::regs::TRIES,
        Swesmbi::Waiting(left) => left < crate::regs::TRIES,
    }
}
