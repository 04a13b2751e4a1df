// The clearing sequence of up to ten rounds: SDA is released; a round raises SCL and reads SDA; once it is high, SDA is pulled
// while SCL is high, SCL lowered, and a stop follows; while it is low, SCL is lowered and the next round follows.
#![tactic(auto, using(crate::proofs::Commands::job_free, crate::proofs::Commands::round_more, crate::proofs::Laws::fewer_than, crate::proofs::Laws::picked, crate::proofs::Laws::under, crate::proofs::Commands::round_probes), unfolding(crate::specs::Clear::clear_next, crate::specs::Clear::access_clear, crate::specs::Clear::rest_clear, crate::specs::Clear::rest_part, crate::specs::Command::job_next, crate::specs::Clear::valid_clear_next, crate::specs::Clear::valid_clear, crate::specs::Clear::valid_part, crate::specs::Clear::command_of, crate::specs::Command::valid_job_next, hardware::specs::Prog::pick, crate::specs::Bus::or_held, hardware::specs::Registers::reply, hardware::specs::Prog::erase, crate::specs::Command::freed, crate::specs::Bus::pulled, crate::specs::Bus::rounds, crate::specs::Command::call_count, crate::specs::Command::free_count, crate::specs::Clear::probed, crate::specs::Bus::clear_rounds))]

ghost use Rattle.std.specs.Prelude.{◌≡◌, true, leb, ltb};
ghost use Rattle.hardware.specs.Prog.{erase};
ghost use Rattle.bus.specs.declared.command.Command.TheVariants.{Free as FreeCommand};
ghost use Rattle.bus.specs.declared.command.Piece.TheVariants.{Probe, Lower, Pull};
ghost use Rattle.bus.specs.Bus.{wait, scl_low, clear_stop, pulled, rounds, clear_rounds};
ghost use Rattle.bus.specs.Command.{job_next, valid_job_next};
ghost use Rattle.bus.specs.Clear.{probed, clear_next, valid_clear_next};

use crate::Layout;
use crate::clear::{Clear, ClearNext, Part};
use crate::command::{Command, Piece};
use crate::job::JobNext;
use hardware::Next;

pub fn pulled(l: Layout, n: JobNext) -> ClearNext
    ensures yields { clear_next l result ≡ job_next l 0 (FreeCommand Pull) n (λ _. clear_stop l) }
    ensures limits { valid_job_next l (FreeCommand Pull) n ≡ true → valid_clear_next l result ≡ true }
{
    match n {
        Next::Going(j) => Next::Going(Clear {
            part: Part::Pull,
            job: j,
        }),
        Next::End((ctl, b)) => match b {
            Ok(_) => crate::clear::stop(l, ctl),
            Err(e) => Next::End((ctl, Err(e))),
        },
    }
}

fn pull(l: Layout, ctl: u32) -> ClearNext
    ensures yields { clear_next l result ≡ erase (pulled l ctl) }
    ensures limits { valid_clear_next l result ≡ true }
{
    Next::Going(Clear {
        part: Part::Pull,
        job: crate::job::open(l, Command::Free(Piece::Pull), ctl),
    })
}

// So many rounds.
fn from(l: Layout, left: u8, ctl: u32) -> ClearNext
    ensures yields { clear_next l result ≡ erase (rounds l left ctl) }
    ensures limits { leb left 10 ≡ true → valid_clear_next l result ≡ true }
{
    if left == 0 {
        return Next::End((ctl, Ok(())));
    }
    Next::Going(Clear {
        part: Part::Probe(left - 1),
        job: crate::job::begin(l, Command::Free(Piece::Probe), ctl, 0, 2),
    })
}

pub fn lowered(l: Layout, left: u8, n: JobNext) -> ClearNext
    ensures yields { clear_next l result ≡ job_next l 0 (FreeCommand Lower) n (λ _. rounds l left) }
    ensures limits { ltb left 10 ≡ true → valid_job_next l (FreeCommand Lower) n ≡ true → valid_clear_next l result ≡ true }
{
    match n {
        Next::Going(j) => Next::Going(Clear {
            part: Part::Lower(left),
            job: j,
        }),
        Next::End((ctl, b)) => match b {
            Ok(_) => from(l, left, ctl),
            Err(e) => Next::End((ctl, Err(e))),
        },
    }
}

fn lower(l: Layout, left: u8, ctl: u32) -> ClearNext
    ensures yields { clear_next l result ≡ erase (scl_low l (wait 5 (rounds l left)) ctl) }
    ensures limits { ltb left 10 ≡ true → valid_clear_next l result ≡ true }
{
    Next::Going(Clear {
        part: Part::Lower(left),
        job: crate::job::open(l, Command::Free(Piece::Lower), ctl),
    })
}

pub fn probed(l: Layout, left: u8, n: JobNext) -> ClearNext
    ensures yields { clear_next l result ≡ job_next l 0 (FreeCommand Probe) n (probed l left) }
    ensures limits { ltb left 10 ≡ true → valid_job_next l (FreeCommand Probe) n ≡ true → valid_clear_next l result ≡ true }
{
    match n {
        Next::Going(j) => Next::Going(Clear {
            part: Part::Probe(left),
            job: j,
        }),
        Next::End((ctl, b)) => match b {
            Ok(bits) => {
                if bits == 0 {
                    return lower(l, left, ctl);
                }
                pull(l, ctl)
            }
            Err(e) => Next::End((ctl, Err(e))),
        },
    }
}

pub fn open(l: Layout, ctl: u32) -> ClearNext
    ensures yields { clear_next l result ≡ erase (clear_rounds l ctl) }
    ensures limits { valid_clear_next l result ≡ true }
{
    Next::Going(Clear {
        part: Part::Probe(9),
        job: crate::job::open(l, Command::Free(Piece::Probe), ctl),
    })
}
