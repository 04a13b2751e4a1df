// A register is read until a bit of it is clear, with a wait after each read that found it set.
#![tactic(auto, using(crate::proofs::Laws::one_less, crate::proofs::Laws::poll_more, crate::proofs::Laws::below, crate::proofs::Prog::fed), unfolding(crate::specs::Poll::poll, crate::specs::Prog::erase, crate::specs::Registers::reply, crate::specs::Poll::poll_next, crate::specs::Poll::valid_poll_next, crate::specs::Poll::valid_poll, crate::specs::Poll::access_poll, crate::specs::Prog::or_err, crate::specs::Poll::polled, crate::specs::Prog::pick, crate::specs::Poll::rest_poll))]

ghost use Rattle.std.specs.Prelude.{ℕ, ◌<◌, ◌≤◌, ◌≡◌, true};
ghost use Rattle.hardware.specs.Prog.{erase, or_err};
ghost use Rattle.hardware.specs.Registers.{reply};
ghost use Rattle.hardware.specs.Poll.{poll, polled, access_poll, rest_poll, poll_next, valid_poll, valid_poll_next};

use crate::{Access, Answer, Micros, Next, R};

#[derive(Clone, Copy)]
pub struct Watch {
    pub register: u32,
    pub bit: u32,
    pub us: Micros,
}

// The reads that are left after this one; while waiting also the value last read.
#[derive(Clone, Copy)]
pub enum Poll {
    Reading(u32),
    Waiting(u32, u32),
}

pub type PollNext = Next<Poll, R<u32>>;

pub fn open(w: Watch, tries: u32, last: u32) -> PollNext
    ensures yields { poll_next w result ≡ erase (poll w tries last) }
    ensures limits { (n : ℕ) → tries ≤ n → valid_poll_next n result ≡ true }
{
    if tries == 0 {
        return Next::End(Ok(last));
    }
    Next::Going(Poll::Reading(tries - 1))
}

pub fn access(w: Watch, s: Poll) -> Access
    ensures { result ≡ access_poll w s }
{
    match s {
        Poll::Reading(_) => Access::Read(w.register),
        Poll::Waiting(_, _) => {
            let us = w.us;
            Access::Wait(us)
        }
    }
}

fn seen(w: Watch, left: u32, v: R<u32>) -> PollNext
    ensures yields { poll_next w result ≡ erase (or_err (polled w (poll w left)) (reply v)) }
    ensures limits { (n : ℕ) → left < n → valid_poll_next n result ≡ true }
{
    match v {
        Ok(v) => {
            if crate::none_of(v, w.bit) {
                return Next::End(Ok(v));
            }
            Next::Going(Poll::Waiting(left, v))
        }
        Err(e) => Next::End(Err(e)),
    }
}

pub fn step(w: Watch, s: Poll, a: Answer) -> PollNext
    ensures yields { poll_next w result ≡ erase (rest_poll w s a) }
    ensures limits { (n : ℕ) → valid_poll n s ≡ true → valid_poll_next n result ≡ true }
{
    match s {
        Poll::Reading(left) => seen(w, left, crate::read(a)),
        Poll::Waiting(left, last) => open(w, left, last),
    }
}

pub fn valid(tries: u32, s: Poll) -> bool
    ensures { result ≡ valid_poll tries s }
{
    match s {
        Poll::Reading(left) => left < tries,
        Poll::Waiting(left, _) => left < tries,
    }
}
