// A command in progress: its line calls one after the other.
#![tactic(auto, using(crate::proofs::Laws::picked, crate::proofs::Laws::valid_calls, crate::proofs::Left::line_opens, crate::proofs::Laws::calls_more, crate::proofs::Laws::fewer_than, crate::proofs::Left::one_call, crate::proofs::Laws::under, crate::proofs::Laws::itself, crate::proofs::Laws::nonzero, crate::proofs::Laws::some_call, crate::proofs::Left::all_calls, crate::proofs::Laws::picked_first, crate::proofs::Laws::picked_second, crate::proofs::Left::line_falls), unfolding(crate::specs::Command::job_next, crate::specs::Bus::or_held, hardware::specs::Prog::erase, hardware::specs::Registers::reply, crate::specs::Command::finished, crate::specs::Command::valid_job_next, crate::specs::Left::job_next_left, hardware::specs::Prog::pick, hardware::specs::Failures::failure_of, crate::specs::Command::access_job, crate::specs::Command::rest_job, crate::specs::Line::line_next, crate::specs::Command::valid_job, crate::specs::Left::job_left, crate::specs::Command::calls_left, crate::specs::Line::valid_line_next, crate::specs::Command::commanded))]

ghost use Rattle.std.specs.Prelude.{ℕ, ◌+◌, ◌*◌, ◌<◌, ◌≤◌, ◌≡◌, true, ltb, leb};
ghost use Rattle.hardware.specs.Asked.{fits, InType};
ghost use Rattle.hardware.specs.Prog.{erase};
ghost use Rattle.hardware.specs.Promise.{Bounds};
ghost use Rattle.bus.specs.Bus.{Bus};
ghost use Rattle.bus.specs.Line.{called, line_next, valid_line_next};
ghost use Rattle.bus.specs.Command.{call_at, call_count, finished, calls_left, commanded, access_job, heard_job, rest_job, job_next, valid_job, valid_job_next};
ghost use Rattle.bus.specs.Steps.{CALL_STEPS, JOB_STEPS};
ghost use Rattle.bus.specs.Left.{line_left, job_left, job_next_left};
ghost use Rattle.hardware.specs.declared.Next.TheVariants.{Going};

use crate::Layout;
use crate::command::Command;
use crate::line::{LineNext, LineState};
use hardware::{Access, Answer, Error, Next, R};

// left: the line calls after this one.
#[derive(Clone, Copy)]
pub struct Job {
    pub left: u8,
    pub state: LineState,
}

// The end: the control word, and the byte that was heard.
pub type JobNext = Next<Job, (u32, R<u8>)>;

fn finish(l: Layout, device: u8, c: Command, ctl: u32, bits: u8) -> JobNext
    ensures { Bounds ((k : ℕ → Bus) → job_next l device c result k ≡ erase (finished device c k bits ctl)) (valid_job_next l c result ≡ true) (job_next_left l result ≡ 0) }
{
    match c {
        Command::Start => Next::End((ctl, Ok(bits))),
        Command::Send(_) => {
            if bits == 0 {
                return Next::End((ctl, Ok(bits)));
            }
            Next::End((ctl, Err(Error::I2c(device))))
        }
        Command::Read(_) => Next::End((ctl, Ok(bits))),
        Command::Stop => Next::End((ctl, Ok(bits))),
        Command::Free(_) => Next::End((ctl, Ok(bits))),
    }
}

// A line call is made, with so many after it.
pub fn begin(l: Layout, c: Command, ctl: u32, bits: u8, left: u8) -> Job
    ensures { Bounds ((device : ℕ) (k : ℕ → Bus) → job_next l device c (Going result) k ≡ erase (called l (call_at l c left) bits (calls_left l device c left k) ctl)) (ltb left (call_count l c) ≡ true → valid_job l c result ≡ true) (job_left l result ≤ CALL_STEPS + left * CALL_STEPS) }
{
    Job {
        left,
        state: crate::line::open(l, crate::command::call(l, c, left), ctl, bits),
    }
}

// The last n calls.
fn from(l: Layout, device: u8, c: Command, ctl: u32, bits: u8, n: u8) -> JobNext
    ensures { Bounds ((k : ℕ → Bus) → job_next l device c result k ≡ erase (calls_left l device c n k bits ctl)) (leb n (call_count l c) ≡ true → valid_job_next l c result ≡ true) (job_next_left l result ≤ n * CALL_STEPS) }
{
    if n == 0 {
        return finish(l, device, c, ctl, bits);
    }
    Next::Going(begin(l, c, ctl, bits, n - 1))
}

fn lined(l: Layout, device: u8, c: Command, left: u8, n: LineNext) -> JobNext
    ensures { Bounds ((k : ℕ → Bus) → job_next l device c result k ≡ line_next l n (calls_left l device c left k)) (ltb left (call_count l c) ≡ true → valid_line_next n ≡ true → valid_job_next l c result ≡ true) (job_next_left l result ≤ line_left l n + left * CALL_STEPS) }
{
    match n {
        Next::Going(state) => Next::Going(Job { left, state }),
        Next::End((ctl, bits, o)) => match o {
            Ok(()) => from(l, device, c, ctl, bits, left),
            Err(e) => Next::End((ctl, Err(e))),
        },
    }
}

pub fn open(l: Layout, c: Command, ctl: u32) -> Job
    ensures { Bounds ((device : ℕ) (k : ℕ → Bus) → job_next l device c (Going result) k ≡ erase (commanded l device c k ctl)) (valid_job l c result ≡ true) (job_left l result ≤ JOB_STEPS) }
{
    begin(l, c, ctl, 0, crate::command::count(l, c) - 1)
}

pub fn access(l: Layout, s: Job) -> Access
    ensures { result ≡ access_job l s }
{
    let state = s.state;
    crate::line::access(l, state)
}

pub fn heard(s: Job) -> u8
    ensures { result ≡ heard_job s }
{
    let state = s.state;
    let line = state.line;
    crate::line::heard(line)
}

pub fn step(l: Layout, device: u8, c: Command, s: Job, a: Answer) -> JobNext
    ensures { Bounds ((k : ℕ → Bus) → job_next l device c result k ≡ erase (rest_job l device c s a k)) (valid_job l c s ≡ true → valid_job_next l c result ≡ true) (fits (access_job l s) a ≡ true → InType a → job_next_left l result < job_left l s) }
{
    let state = s.state;
    lined(l, device, c, s.left, crate::line::step(l, state, a))
}

pub fn valid(l: Layout, c: Command, s: Job) -> bool
    ensures { result ≡ valid_job l c s }
{
    let state = s.state;
    let line = state.line;
    if s.left < crate::command::count(l, c) {
        return crate::line::valid(line);
    }
    false
}
