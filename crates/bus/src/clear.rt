// The clearing sequences after a failed transfer. That of the Rust: a start, SDA released, nine pulses of SCL, a start and a
// stop. The other is in `rounds.rt`.
#![tactic(auto, using(hardware::proofs::Prog::heard_on, crate::proofs::Commands::job_stop, hardware::proofs::Prog::over, crate::proofs::Commands::job_start, crate::proofs::Commands::job_free, crate::proofs::Laws::picked_first, crate::proofs::Laws::picked_second), unfolding(hardware::specs::Prog::followed, crate::specs::Command::job_next, crate::specs::Bus::or_held, hardware::specs::Registers::reply, crate::specs::Bus::quieted, crate::specs::Bus::or_quiet, hardware::specs::Prog::erase, hardware::specs::Prog::pick, crate::specs::Clear::clear_next, crate::specs::Clear::valid_clear_next, crate::specs::Clear::access_clear, crate::specs::Clear::rest_clear, crate::specs::Clear::rest_part, crate::specs::Clear::valid_clear, crate::specs::Clear::valid_part, crate::specs::Clear::command_of, crate::specs::Command::valid_job_next, crate::specs::Bus::clear_stop, crate::specs::Bus::quiet, crate::specs::Bus::clear_again, crate::specs::Bus::clear_free, crate::specs::Command::freed, crate::specs::Bus::clear))]

ghost use Rattle.std.specs.Prelude.{◌≡◌, true};
ghost use Rattle.hardware.specs.Prog.{erase, followed};
ghost use Rattle.bus.specs.declared.command.Command.TheVariants.{Start as StartCommand, Stop as StopCommand, Free as FreeCommand};
ghost use Rattle.bus.specs.declared.command.Piece.TheVariants.{Pulses};
ghost use Rattle.bus.specs.Bus.{done, none, quieted, clear_stop, clear_again, clear_free, clear};
ghost use Rattle.bus.specs.Command.{job_next, valid_job_next};
ghost use Rattle.bus.specs.Clear.{command_of, access_clear, heard_clear, rest_clear, clear_next, valid_part, valid_clear, valid_clear_next};

use crate::Layout;
use crate::command::{Command, Piece};
use crate::job::{Job, JobNext};
use hardware::{Access, Answer, Next, R};

// A sequence's parts: the first three are the Rust's, the last three the other's, and Stop is of both. Probe and Lower hold
// the rounds after this one.
#[derive(Clone, Copy)]
pub enum Part {
    First,
    Free,
    Again,
    Stop,
    Probe(u8),
    Lower(u8),
    Pull,
}

#[derive(Clone, Copy)]
pub struct Clear {
    pub part: Part,
    pub job: Job,
}

pub type ClearNext = Next<Clear, (u32, R<()>)>;

fn stopped(l: Layout, n: JobNext) -> ClearNext
    ensures yields { clear_next l result ≡ followed (job_next l 0 StopCommand n (λ _. done none)) (quieted (done none)) }
    ensures limits { valid_job_next l StopCommand n ≡ true → valid_clear_next l result ≡ true }
{
    match n {
        Next::Going(j) => Next::Going(Clear {
            part: Part::Stop,
            job: j,
        }),
        Next::End((ctl, b)) => match b {
            Ok(_) => Next::End((ctl, Ok(()))),
            Err(e) => {
                if crate::is_i2c(e) {
                    return Next::End((ctl, Ok(())));
                }
                Next::End((ctl, Err(e)))
            }
        },
    }
}

pub fn stop(l: Layout, ctl: u32) -> ClearNext
    ensures yields { clear_next l result ≡ erase (clear_stop l ctl) }
    ensures limits { valid_clear_next l result ≡ true }
{
    stopped(l, Next::Going(crate::job::open(l, Command::Stop, ctl)))
}

fn started(l: Layout, n: JobNext) -> ClearNext
    ensures yields { clear_next l result ≡ followed (job_next l 0 StartCommand n (λ _. done none)) (quieted (clear_stop l)) }
    ensures limits { valid_job_next l StartCommand n ≡ true → valid_clear_next l result ≡ true }
{
    match n {
        Next::Going(j) => Next::Going(Clear {
            part: Part::Again,
            job: j,
        }),
        Next::End((ctl, b)) => match b {
            Ok(_) => stop(l, ctl),
            Err(e) => {
                if crate::is_i2c(e) {
                    return stop(l, ctl);
                }
                Next::End((ctl, Err(e)))
            }
        },
    }
}

fn again(l: Layout, ctl: u32) -> ClearNext
    ensures yields { clear_next l result ≡ erase (clear_again l ctl) }
    ensures limits { valid_clear_next l result ≡ true }
{
    started(l, Next::Going(crate::job::open(l, Command::Start, ctl)))
}

fn freed(l: Layout, n: JobNext) -> ClearNext
    ensures yields { clear_next l result ≡ job_next l 0 (FreeCommand Pulses) n (λ _. clear_again l) }
    ensures limits { valid_job_next l (FreeCommand Pulses) n ≡ true → valid_clear_next l result ≡ true }
{
    match n {
        Next::Going(j) => Next::Going(Clear {
            part: Part::Free,
            job: j,
        }),
        Next::End((ctl, b)) => match b {
            Ok(_) => again(l, ctl),
            Err(e) => Next::End((ctl, Err(e))),
        },
    }
}

fn free(l: Layout, ctl: u32) -> ClearNext
    ensures yields { clear_next l result ≡ erase (clear_free l ctl) }
    ensures limits { valid_clear_next l result ≡ true }
{
    freed(
        l,
        Next::Going(crate::job::open(l, Command::Free(Piece::Pulses), ctl)),
    )
}

fn first(l: Layout, n: JobNext) -> ClearNext
    ensures yields { clear_next l result ≡ followed (job_next l 0 StartCommand n (λ _. done none)) (quieted (clear_free l)) }
    ensures limits { valid_job_next l StartCommand n ≡ true → valid_clear_next l result ≡ true }
{
    match n {
        Next::Going(j) => Next::Going(Clear {
            part: Part::First,
            job: j,
        }),
        Next::End((ctl, b)) => match b {
            Ok(_) => free(l, ctl),
            Err(e) => {
                if crate::is_i2c(e) {
                    return free(l, ctl);
                }
                Next::End((ctl, Err(e)))
            }
        },
    }
}

pub fn open(l: Layout, ctl: u32) -> ClearNext
    ensures yields { clear_next l result ≡ erase (clear l ctl) }
    ensures limits { valid_clear_next l result ≡ true }
{
    first(l, Next::Going(crate::job::open(l, Command::Start, ctl)))
}

pub fn access(l: Layout, s: Clear) -> Access
    ensures { result ≡ access_clear l s }
{
    let j = s.job;
    crate::job::access(l, j)
}

pub fn heard(s: Clear) -> u8
    ensures { result ≡ heard_clear s }
{
    let j = s.job;
    crate::job::heard(j)
}

pub fn step(l: Layout, s: Clear, a: Answer) -> ClearNext
    ensures yields { clear_next l result ≡ erase (rest_clear l s a) }
    ensures limits { valid_clear l s ≡ true → valid_clear_next l result ≡ true }
{
    let part = s.part;
    let j = s.job;
    match part {
        Part::First => first(l, crate::job::step(l, 0, Command::Start, j, a)),
        Part::Free => freed(
            l,
            crate::job::step(l, 0, Command::Free(Piece::Pulses), j, a),
        ),
        Part::Again => started(l, crate::job::step(l, 0, Command::Start, j, a)),
        Part::Stop => stopped(l, crate::job::step(l, 0, Command::Stop, j, a)),
        Part::Probe(left) => {
            crate::rounds::probed(
                l,
                left,
                crate::job::step(l, 0, Command::Free(Piece::Probe), j, a),
            )
        }
        Part::Lower(left) => {
            crate::rounds::lowered(
                l,
                left,
                crate::job::step(l, 0, Command::Free(Piece::Lower), j, a),
            )
        }
        Part::Pull => crate::rounds::pulled(
            l,
            crate::job::step(l, 0, Command::Free(Piece::Pull), j, a),
        ),
    }
}

fn command(p: Part) -> Command
    ensures { result ≡ command_of p }
{
    match p {
        Part::First => Command::Start,
        Part::Free => Command::Free(Piece::Pulses),
        Part::Again => Command::Start,
        Part::Stop => Command::Stop,
        Part::Probe(_) => Command::Free(Piece::Probe),
        Part::Lower(_) => Command::Free(Piece::Lower),
        Part::Pull => Command::Free(Piece::Pull),
    }
}

fn valid_part(p: Part) -> bool
    ensures { result ≡ valid_part p }
{
    match p {
        Part::First => true,
        Part::Free => true,
        Part::Again => true,
        Part::Stop => true,
        Part::Probe(left) => left < 10,
        Part::Lower(left) => left < 10,
        Part::Pull => true,
    }
}

pub fn valid(l: Layout, s: Clear) -> bool
    ensures { result ≡ valid_clear l s }
{
    let part = s.part;
    let j = s.job;
    if valid_part(part) {
        return crate::job::valid(l, command(part), j);
    }
    false
}
