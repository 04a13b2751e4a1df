// The direct way through a step that stays inside a command: one match in the place of the limits, the access that was
// awaited, what follows its answer and the access after it. It never refuses: where it says `None`, the step goes the plain way.
#![tactic(auto, using(crate::proofs::Laws::picked, crate::proofs::Laws::valid_calls, crate::proofs::Laws::fewer, crate::proofs::Laws::moved_map, crate::proofs::Laws::calls_more), unfolding(crate::specs::Quick::QuickBy, crate::specs::Line::line_next, hardware::specs::Marks::acknowledged, crate::specs::Line::heard_at, crate::specs::Line::heard_goal, crate::specs::Line::access_line, crate::specs::Line::access_at, crate::specs::Line::rest_line, crate::specs::Line::rest_at, hardware::specs::Prog::erase, crate::specs::Bus::or_held, hardware::specs::Registers::raw, hardware::specs::Registers::written, hardware::specs::Registers::flushed, crate::specs::Bus::flushing, crate::specs::Line::settled, crate::specs::Line::reached, crate::specs::Line::settle_us, crate::specs::Bus::wait, crate::specs::Bus::get, hardware::specs::Asked::fits, crate::specs::Line::valid_line, crate::specs::Line::valid_goal, hardware::specs::Registers::reply, crate::specs::Bus::sda_free, hardware::specs::Prog::pick, crate::specs::Bus::put, crate::specs::Bus::sda_seen, crate::specs::Bus::scl_seen, crate::specs::Bus::look_seen, crate::specs::Bus::sample_seen, crate::specs::Line::sensed, crate::specs::Quick::MovedBy, crate::specs::Command::job_next, crate::specs::Command::access_job, crate::specs::Command::rest_job, crate::specs::Command::valid_job))]

ghost use Rattle.std.specs.Prelude.{ℕ, ◌≡◌, Some};
ghost use Rattle.hardware.specs.Registers.{micros};
ghost use Rattle.bus.specs.Line.{settle_us};
ghost use Rattle.bus.specs.Quick.{line_of, QuickBy, BegunBy, MovedBy, JobMoves};

use crate::Layout;
use crate::command::Command;
use crate::job::Job;
use crate::line::{Goal, Line, LineState};
use hardware::{Access, Answer, Micros};

// On: the line call goes on, with its next access. Ended: it ended well, with the control word and the bits heard.
#[derive(Clone, Copy)]
pub enum Quick {
    On(LineState, Access),
    Ended(u32, u8),
}

// SDA is looked at.
fn check(l: Layout, ctl: u32, bits: u8) -> Option<Quick>
    ensures { result ≡ Some (Quick.On (line_of ctl bits Line.Check) (Access.Read l.reg)) }
{
    Some(Quick::On(crate::line::at(ctl, bits, Line::Check), Access::Read(l.reg)))
}

// The wait after a word was put.
fn wait(ctl: u32, bits: u8, g: Goal) -> Option<Quick>
    ensures { result ≡ Some (Quick.On (line_of ctl bits (Line.Settle g)) (Access.Wait (micros (settle_us g)))) }
{
    Some(Quick::On(
        crate::line::at(ctl, bits, Line::Settle(g)),
        Access::Wait(Micros(crate::line::settle_us(g))),
    ))
}

fn written(ctl: u32, bits: u8, g: Goal) -> Option<Quick>
    ensures { (l : Layout) → QuickBy l (line_of ctl bits (Line.Write g)) Answer.Done result }
{
    if crate::line::valid_goal(g) {
        return Some(Quick::On(
            crate::line::at(ctl, bits, Line::Flush(g)),
            Access::Read(hardware::STATUS),
        ));
    }
    None
}

fn flushed(l: Layout, ctl: u32, bits: u8, g: Goal) -> Option<Quick>
    ensures { (v : ℕ) → QuickBy l (line_of ctl bits (Line.Flush g)) (Answer.Value v) result }
{
    if crate::line::valid_goal(g) {
        return match g {
            Goal::High => wait(ctl, bits, g),
            Goal::Free => check(l, ctl, bits),
            Goal::Low => wait(ctl, bits, g),
            Goal::Release => wait(ctl, bits, g),
            Goal::Down(_) => wait(ctl, bits, g),
            Goal::Up(_) => wait(ctl, bits, g),
            Goal::Close => Some(Quick::Ended(ctl, bits)),
        };
    }
    None
}

// SDA was raised: on the X552 and X553 its output enable goes off first.
fn free(l: Layout, ctl: u32, bits: u8) -> Option<Quick>
    ensures { QuickBy l (line_of ctl bits (Line.Settle Goal.High)) Answer.Done result }
{
    if l.sdaoen == 0 {
        return check(l, ctl, bits);
    }
    let word = ctl | l.sdaoen;
    Some(Quick::On(
        crate::line::at(word, bits, Line::Write(Goal::Free)),
        Access::Write(l.reg, word),
    ))
}

fn settled(l: Layout, ctl: u32, bits: u8, g: Goal) -> Option<Quick>
    ensures { QuickBy l (line_of ctl bits (Line.Settle g)) Answer.Done result }
{
    if crate::line::valid_goal(g) {
        return match g {
            Goal::High => free(l, ctl, bits),
            Goal::Free => check(l, ctl, bits),
            Goal::Low => Some(Quick::Ended(ctl, bits)),
            Goal::Release => Some(Quick::Ended(ctl, bits)),
            Goal::Down(_) => Some(Quick::Ended(ctl, bits)),
            Goal::Up(left) => Some(Quick::On(
                crate::line::at(ctl, bits, Line::Rise(left)),
                Access::Read(l.reg),
            )),
            Goal::Close => Some(Quick::Ended(ctl, bits)),
        };
    }
    None
}

fn checked(l: Layout, ctl: u32, bits: u8, v: u32) -> Option<Quick>
    ensures { QuickBy l (line_of ctl bits Line.Check) (Answer.Value v) result }
{
    if hardware::none_of(v, l.sdain) {
        return None;
    }
    Some(Quick::Ended(ctl, bits))
}

fn risen(l: Layout, ctl: u32, bits: u8, left: u16, v: u32) -> Option<Quick>
    ensures { QuickBy l (line_of ctl bits (Line.Rise left)) (Answer.Value v) result }
{
    if left < 500 {
        if hardware::none_of(v, l.sclin) {
            return None;
        }
        return Some(Quick::Ended(ctl, bits));
    }
    None
}

fn value(l: Layout, ctl: u32, bits: u8, line: Line, v: u32) -> Option<Quick>
    ensures { QuickBy l (line_of ctl bits line) (Answer.Value v) result }
{
    match line {
        Line::Look => Some(Quick::Ended(v | l.bben, bits)),
        Line::Pause(_) => None,
        Line::Sample => Some(Quick::Ended(
            ctl,
            crate::line::shift(bits, crate::line::sda_level(l, v)),
        )),
        Line::Ack(_) => None,
        Line::Rest(_) => None,
        Line::Write(_) => None,
        Line::Flush(g) => flushed(l, ctl, bits, g),
        Line::Settle(_) => None,
        Line::Check => checked(l, ctl, bits, v),
        Line::Rise(left) => risen(l, ctl, bits, left, v),
    }
}

fn paused(ctl: u32, bits: u8, us: u8) -> Option<Quick>
    ensures { (l : Layout) → QuickBy l (line_of ctl bits (Line.Pause us)) Answer.Done result }
{
    if us < 6 {
        return Some(Quick::Ended(ctl, bits));
    }
    None
}

fn done(l: Layout, ctl: u32, bits: u8, line: Line) -> Option<Quick>
    ensures { QuickBy l (line_of ctl bits line) Answer.Done result }
{
    match line {
        Line::Look => None,
        Line::Pause(us) => paused(ctl, bits, us),
        Line::Sample => None,
        Line::Ack(_) => None,
        Line::Rest(_) => None,
        Line::Write(g) => written(ctl, bits, g),
        Line::Flush(_) => None,
        Line::Settle(g) => settled(l, ctl, bits, g),
        Line::Check => None,
        Line::Rise(_) => None,
    }
}

fn step(l: Layout, s: LineState, a: Answer) -> Option<Quick>
    ensures { QuickBy l s a result }
{
    let line = s.line;
    match a {
        Answer::Value(v) => value(l, s.ctl, s.bits, line, v),
        Answer::Done => done(l, s.ctl, s.bits, line),
        Answer::Failed => None,
    }
}

// The line call that has so many after it is made.
fn begin(l: Layout, c: Command, ctl: u32, bits: u8, left: u8) -> Option<(Access, Job)>
    ensures { MovedBy (BegunBy l c ctl bits left) result }
{
    let state = crate::line::open(l, crate::command::call(l, c, left), ctl, bits);
    Some((crate::line::access(l, state), Job { left, state }))
}

// A step of a command's job.
pub fn job(l: Layout, c: Command, j: Job, a: Answer) -> Option<(Access, Job)>
    ensures { (device : ℕ) → MovedBy (JobMoves l device c j a) result }
{
    let left = j.left;
    let state = j.state;
    if left < crate::command::count(l, c) {
        match step(l, state, a) {
            Some(Quick::On(next, x)) => {
                return Some((x, Job { left, state: next }));
            }
            Some(Quick::Ended(ctl, bits)) => {
                if 0 < left {
                    return begin(l, c, ctl, bits, left - 1);
                }
            }
            None => {}
        }
    }
    None
}
