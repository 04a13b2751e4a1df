// The direct way through a step of a request that stays inside a command: only the job moves. It never refuses: where it says
// `None`, the step goes the plain way.
#![tactic(auto, using(bus::proofs::Laws::moved_map, bus::proofs::Laws::picked_first, bus::proofs::Laws::picked_second, crate::proofs::Moves::carrying_on), unfolding(crate::specs::Direct::FoundIn, script::specs::Script::on_command, script::specs::Script::starts, script::specs::Script::command_at, script::specs::Script::head_command, script::specs::Script::head_sends, script::specs::Script::alone, crate::specs::I2c::script_of, script::specs::Scripts::read_byte_script, hardware::specs::Prog::pick, script::specs::Scripts::write_byte_script, crate::specs::Direct::within, bus::specs::Quick::MovedBy, crate::specs::Direct::WentBy))]

ghost use Rattle.std.specs.Prelude.{◌≡◌};
ghost use Rattle.bus.specs.Quick.{MovedBy};
ghost use Rattle.i2c.specs.Direct.{carrying, FoundAt, FoundIn, within, RequestMoves, WentBy};

use crate::handshake::Handshake;
use crate::once::Request;
use crate::retry::{Retry, Stage};
use bus::Taken;
use bus::command::Command;
use bus::job::Job;
use hardware::{Access, Answer, Meter, Port};
use transfer::attempt::Attempt;
use transfer::transfer::Transfer;

// The command at a position of a request's script.
fn read_byte(device: u8, offset: u8, at: usize) -> Option<Command>
    ensures { FoundAt (Request.ReadByte device offset) at result }
{
    match at {
        0 => Some(Command::Start),
        1 => Some(Command::Send(device)),
        3 => Some(Command::Send(offset)),
        5 => Some(Command::Start),
        6 => Some(Command::Send(device | 1)),
        8 => Some(Command::Read(true)),
        9 => Some(Command::Stop),
        _ => None,
    }
}

fn write_byte(device: u8, offset: u8, value: u8, at: usize) -> Option<Command>
    ensures { FoundAt (Request.WriteByte device offset value) at result }
{
    match at {
        0 => Some(Command::Start),
        1 => Some(Command::Send(device)),
        3 => Some(Command::Send(offset)),
        5 => Some(Command::Send(value)),
        7 => Some(Command::Stop),
        _ => None,
    }
}

fn scripted(script: &[u8], at: usize) -> Option<Command>
    ensures { FoundIn script.now at result }
{
    if script::cursor::on_command(script, at) {
        return Some(script::cursor::command(script, at));
    }
    None
}

fn command(r: Request, at: usize) -> Option<Command>
    ensures { FoundAt r at result }
{
    match r {
        Request::ReadByte(device, offset) => read_byte(device, offset, at),
        Request::WriteByte(device, offset, value) => write_byte(device, offset, value, at),
        Request::ReadCombined(device, reg) => {
            let script = script::write::read_combined_script(device, reg);
            scripted(&script, at)
        }
        Request::WriteCombined(device, reg, value) => {
            let script = script::write::write_combined_script(device, reg, value);
            scripted(&script, at)
        }
    }
}

// Whether so many attempts are within the limits.
fn within(tries: u32, cap: u32, made: u32, left: u8) -> bool
    ensures { result ≡ within tries cap made left }
{
    if (left as u32) < tries {
        return made as u64 + left as u64 <= cap as u64;
    }
    false
}

// A step of the job at a position of the script, with so many attempts left. tries, cap: the limits of the request.
pub fn job(
    port: Port,
    r: Request,
    tries: u32,
    cap: u32,
    m: Meter,
    left: u8,
    at: usize,
    j: Job,
    a: Answer,
) -> Option<(Access, Job)>
    ensures { MovedBy (λ x next. (taken : Taken) → RequestMoves port r tries cap m (carrying left at taken j) a x (carrying left at taken next)) result }
{
    if within(tries, cap, m.transfers, left) {
        let family = port.family;
        let c = command(r, at)?;
        return bus::quick::job(bus::layout_of(family), c, j, a);
    }
    None
}

// A step of an attempt that carries out its script.
fn moving(
    port: Port,
    r: Request,
    tries: u32,
    cap: u32,
    m: Meter,
    left: u8,
    s: Transfer,
    a: Answer,
) -> Option<(Access, Handshake)>
    ensures { WentBy (RequestMoves port r tries cap m (carrying left s.at s.taken s.job) a) result }
{
    let at = s.at;
    let taken = s.taken;
    let j = s.job;
    let (x, job) = job(port, r, tries, cap, m, left, at, j, a)?;
    Some((
        x,
        Handshake::Inside(Retry {
            left,
            stage: Stage::Trying(Attempt::Moving(Transfer { at, taken, job })),
        }),
    ))
}

// A step of a request.
pub fn request(
    port: Port,
    r: Request,
    tries: u32,
    cap: u32,
    m: Meter,
    h: Handshake,
    a: Answer,
) -> Option<(Access, Handshake)>
    ensures { WentBy (RequestMoves port r tries cap m h a) result }
{
    match h {
        Handshake::Inside(t) => {
            let stage = t.stage;
            match stage {
                Stage::Trying(attempt) => match attempt {
                    Attempt::Moving(s) => {
                        return moving(port, r, tries, cap, m, t.left, s, a);
                    }
                    Attempt::New => {}
                    Attempt::Clearing(_) => {}
                },
                Stage::Acquiring(_) => {}
                Stage::Releasing(_, _) => {}
                Stage::Pausing => {}
            }
        }
        Handshake::Asking(_, _) => {}
        Handshake::Granting(_, _) => {}
        Handshake::Waiting(_, _) => {}
        Handshake::Giving(_, _) => {}
    }
    None
}
