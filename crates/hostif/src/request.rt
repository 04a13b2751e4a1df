// The first half of a firmware command: FWRI is set, HICR must be enabled, the block is written to FLEX_MNG, HICR.C is
// set and polled for up to 500 ms, and SV is required.
#![tactic(auto, using(hardware::proofs::Prog::going, crate::proofs::Laws::words_at, crate::proofs::Laws::words_none, hardware::proofs::Ends::poll_ends, hardware::proofs::Prog::over, hardware::proofs::Longest::longest_opened, hardware::proofs::Longest::longest_next, crate::proofs::Left::sum_falls, hardware::proofs::Prog::fed), unfolding(crate::specs::Hostif::access_request, crate::specs::Hostif::request_next, crate::specs::Hostif::rest_request, hardware::specs::Change::update_next, crate::specs::Hostif::valid_request_next, crate::specs::Hostif::valid_request, crate::specs::Left::request_next_left, crate::specs::Left::request_left, hardware::specs::Prog::followed, hardware::specs::Prog::erase, hardware::specs::Prog::or_err, hardware::specs::Registers::reply, crate::specs::Hostif::start, crate::specs::Hostif::enabled, crate::specs::Hostif::hicr_read, crate::specs::Hostif::request, hardware::specs::Change::change, hardware::specs::Change::access_update, hardware::specs::Change::rest_update, crate::specs::Hostif::words, hardware::specs::Prog::pick, crate::specs::Hostif::completed, hardware::specs::Failures::failure_of, hardware::specs::Poll::poll_next, hardware::specs::Poll::valid_poll_next, crate::specs::Hostif::polling))]

ghost use Rattle.std.specs.Prelude.{ℕ, ◌+◌, ◌*◌, ◌-◌, ◌<◌, ◌≤◌, ◌≡◌, true, List, length, drop, get_or};
ghost use Rattle.hardware.specs.Prog.{erase, followed, or_err};
ghost use Rattle.hardware.specs.Registers.{reply};
ghost use Rattle.hardware.specs.Poll.{poll_next, valid_poll_next};
ghost use Rattle.hardware.specs.Change.{update_next};
ghost use Rattle.hardware.specs.Asked.{fits, InType};
ghost use Rattle.hardware.specs.Longest.{longest};
ghost use Rattle.hardware.specs.Promise.{Bounds};
ghost use Rattle.hostif.specs.Hostif.{POLLS, hicr_watch, set_fwri, words, completed, polling, start, enabled, hicr_read, access_request, rest_request, request_next, valid_request, valid_request_next};
ghost use Rattle.hostif.specs.Left.{START_LEFT, HICR_LEFT, request_left, request_next_left};

use hardware::change::{Bits, Change};
use hardware::poll::{Poll, PollNext, Watch};
use hardware::{Access, Answer, Error, Micros, Next, R, Update, UpdateNext};

pub const HICR: u32 = 0x1_5f00;

pub const FWSTS: u32 = 0x1_5f0c;

pub const FLEX_MNG: u32 = 0x1_5800;

pub const HICR_EN: u32 = 1 << 0;

pub const HICR_C: u32 = 1 << 1;

pub const HICR_SV: u32 = 1 << 2;

pub const FWSTS_FWRI: u32 = 1 << 9;

pub const POLLS: u32 = 50_000;

// Word and Start: with HICR as it was read. Word: the word of the block that is written.
#[derive(Clone, Copy)]
pub enum Request {
    Fwsts(Update),
    Hicr,
    Word(u32, u8),
    Start(u32),
    Polling(Poll),
}

pub type RequestNext = Next<Request, R<u32>>;

fn watch() -> Watch
    ensures { result ≡ hicr_watch }
{
    Watch {
        register: HICR,
        bit: HICR_C,
        us: Micros(10),
    }
}

fn fwri() -> Change
    ensures { result ≡ set_fwri }
{
    Change {
        register: FWSTS,
        bits: Bits::Set(FWSTS_FWRI),
        flushed: false,
    }
}

fn word_at(block: &[u32], at: usize) -> u32
    ensures { result ≡ get_or block.now at 0 }
{
    if at < block.len() {
        return block[at];
    }
    0
}

pub(crate) fn access(s: Request, block: &[u32]) -> Access
    ensures { result ≡ access_request s block.now }
{
    match s {
        Request::Fwsts(t) => hardware::change::access(fwri(), t),
        Request::Hicr => Access::Read(HICR),
        Request::Word(_, at) => {
            let address = FLEX_MNG + 4 * at as u32;
            Access::Write(address, word_at(block, at as usize))
        }
        Request::Start(hicr) => Access::Write(HICR, hicr | HICR_C),
        Request::Polling(t) => hardware::poll::access(watch(), t),
    }
}

fn fwsts(n: UpdateNext) -> RequestNext
    ensures { Bounds ((l : List ℕ) → request_next result l ≡ followed (update_next set_fwri n) (or_err (λ _. hicr_read l))) ((m : ℕ) → valid_request_next m result ≡ true) (request_next_left result ≤ longest (update_next set_fwri n) + HICR_LEFT) }
{
    match n {
        Next::Going(t) => Next::Going(Request::Fwsts(t)),
        Next::End(o) => match o {
            Ok(()) => Next::Going(Request::Hicr),
            Err(e) => Next::End(Err(e)),
        },
    }
}

#[tactic(auto, using(crate::proofs::Laws::first_word, crate::proofs::Laws::words_at, crate::proofs::Laws::words_none), unfolding(crate::specs::Hostif::request_next, hardware::specs::Prog::erase, hardware::specs::Prog::or_err, hardware::specs::Prog::pick, hardware::specs::Registers::reply, crate::specs::Hostif::start, crate::specs::Hostif::enabled, crate::specs::Hostif::hicr_read, crate::specs::Hostif::request, hardware::specs::Change::change, hardware::specs::Change::access_update, hardware::specs::Change::rest_update, crate::specs::Hostif::valid_request, crate::specs::Hostif::words, crate::specs::Hostif::valid_request_next, hardware::specs::Failures::failure_of, crate::specs::Left::request_next_left, crate::specs::Left::request_left))]
fn hicr(n: usize, w: R<u32>) -> RequestNext
    ensures { Bounds ((l : List ℕ) → length l ≡ n → request_next result l ≡ erase (or_err (enabled l) (reply w))) (valid_request_next n result ≡ true) (request_next_left result ≤ 64 + START_LEFT) }
{
    match w {
        Ok(v) => {
            if hardware::none_of(v, HICR_EN) {
                return Next::End(Err(Error::HostInterface(v)));
            }
            if n == 0 {
                return Next::Going(Request::Start(v));
            }
            Next::Going(Request::Word(v, 0))
        }
        Err(e) => Next::End(Err(e)),
    }
}

fn written(n: usize, hicr: u32, at: u8, o: R<()>) -> RequestNext
    requires { n ≤ 64 }
    ensures { Bounds ((l : List ℕ) → length l ≡ n → request_next result l ≡ erase (or_err (λ _. words (at + 1) (drop (at + 1) l) (start hicr)) (reply o))) (valid_request_next n result ≡ true) (request_next_left result ≤ 63 - at + START_LEFT) }
{
    match o {
        Ok(()) => {
            if (at as usize) + 1 < n {
                return Next::Going(Request::Word(hicr, at + 1));
            }
            Next::Going(Request::Start(hicr))
        }
        Err(e) => Next::End(Err(e)),
    }
}

fn complete(w: R<u32>) -> RequestNext
    ensures { Bounds ((l : List ℕ) → request_next result l ≡ erase (or_err completed (reply w))) ((m : ℕ) → valid_request_next m result ≡ true) (request_next_left result ≡ 0) }
{
    match w {
        Ok(last) => {
            if hardware::none_of(last, HICR_C) {
                if hardware::none_of(last, HICR_SV) {
                    return Next::End(Err(Error::HostInterface(last)));
                }
                return Next::End(Ok(last));
            }
            Next::End(Err(Error::HostInterface(last)))
        }
        Err(e) => Next::End(Err(e)),
    }
}

fn poll(n: PollNext) -> RequestNext
    ensures { Bounds ((l : List ℕ) → request_next result l ≡ followed (poll_next hicr_watch n) (or_err completed)) ((m : ℕ) → valid_poll_next POLLS n ≡ true → valid_request_next m result ≡ true) (request_next_left result ≤ longest (poll_next hicr_watch n)) }
{
    match n {
        Next::Going(t) => Next::Going(Request::Polling(t)),
        Next::End(w) => complete(w),
    }
}

fn started(hicr: u32, o: R<()>) -> RequestNext
    ensures { Bounds ((l : List ℕ) → request_next result l ≡ erase (or_err (λ _. polling hicr) (reply o))) ((m : ℕ) → valid_request_next m result ≡ true) (request_next_left result ≤ 2 * POLLS) }
{
    match o {
        Ok(()) => poll(hardware::poll::open(watch(), POLLS, hicr | HICR_C)),
        Err(e) => Next::End(Err(e)),
    }
}

// n: the number of the block's words.
pub(crate) fn step(n: usize, s: Request, a: Answer) -> RequestNext
    requires { n ≤ 64 }
    ensures { Bounds ((l : List ℕ) → length l ≡ n → request_next result l ≡ erase (rest_request s l a)) (valid_request n s ≡ true → valid_request_next n result ≡ true) ((l : List ℕ) → fits (access_request s l) a ≡ true → InType a → request_next_left result < request_left s) }
{
    match s {
        Request::Fwsts(t) => fwsts(hardware::change::step(fwri(), t, a)),
        Request::Hicr => hicr(n, hardware::read(a)),
        Request::Word(h, at) => written(n, h, at, hardware::write(a)),
        Request::Start(h) => started(h, hardware::write(a)),
        Request::Polling(t) => poll(hardware::poll::step(watch(), t, a)),
    }
}

pub(crate) fn valid(n: usize, s: Request) -> bool
    ensures { result ≡ valid_request n s }
{
    match s {
        Request::Fwsts(_) => true,
        Request::Hicr => true,
        Request::Word(_, at) => (at as usize) < n,
        Request::Start(_) => true,
        Request::Polling(t) => hardware::poll::valid(POLLS, t),
    }
}
