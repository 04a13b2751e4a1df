// A firmware command: SW_MNG is held while the block is handed over and the response read back into it.
#![tactic(auto, using(hardware::proofs::Prog::going, hardware::proofs::Prog::over, hardware::proofs::Longest::longest_erase, hardware::proofs::Longest::longest_next, crate::proofs::Left::sum_falls), unfolding(hardware::specs::Registers::reply, crate::specs::Hostif::hicr_read, crate::specs::Hostif::request, crate::specs::Hostif::respond, crate::specs::Hostif::both, crate::specs::Hostif::closed, crate::specs::Hostif::released, crate::specs::Hostif::requested, crate::specs::Hostif::acquired, hardware::specs::Change::change, hardware::specs::Change::access_update, hardware::specs::Change::rest_update, crate::specs::Hostif::valid_command, crate::specs::Hostif::command_next, crate::specs::Hostif::access_command, crate::specs::Hostif::rest_command, sync::specs::Resource::release_bits_next, crate::specs::Hostif::valid_command_next, sync::specs::Resource::valid_release_bits_next, crate::specs::Left::command_next_left, crate::specs::Left::command_left, hardware::specs::Prog::followed, hardware::specs::Prog::erase, crate::specs::Hostif::response_next, crate::specs::Hostif::valid_response_next, crate::specs::Left::response_next_left, crate::specs::Hostif::access_response, crate::specs::Hostif::rest_response, crate::specs::Hostif::valid_response, crate::specs::Left::response_left, crate::specs::Hostif::request_next, crate::specs::Hostif::valid_request_next, crate::specs::Left::request_next_left, sync::specs::Resource::acquire_bits_next, sync::specs::Resource::valid_acquire_bits_next, crate::specs::Hostif::access_request, crate::specs::Hostif::rest_request, crate::specs::Hostif::valid_request, crate::specs::Hostif::command, sync::specs::Resource::acquire_bits))]

ghost use Rattle.std.specs.Prelude.{ℕ, ◌+◌, ◌<◌, ◌≤◌, ◌≡◌, true, List, length};
ghost use Rattle.hardware.specs.Asked.{fits, InType};
ghost use Rattle.hardware.specs.Prog.{erase, followed};
ghost use Rattle.hardware.specs.Registers.{reply};
ghost use Rattle.hardware.specs.Longest.{longest};
ghost use Rattle.hardware.specs.Promise.{Bounds};
ghost use Rattle.sync.specs.Regs.{SW_MNG};
ghost use Rattle.sync.specs.Resource.{acquire_bits_next, valid_acquire_bits_next, release_bits_next, valid_release_bits_next};
ghost use Rattle.hostif.specs.Hostif.{both, closed, request_next, valid_request_next, response_next, valid_response_next, released, requested, acquired, command, access_command, rest_command, command_next, valid_command, valid_command_next};
ghost use Rattle.hostif.specs.Left.{request_next_left, response_next_left, release_left, respond_left, acquired_left, opened_left, command_left, command_next_left};

use crate::request::{Request, RequestNext};
use crate::response::{Response, ResponseNext};
use hardware::{Access, Answer, Next, Port, R, Update};
use sync::acquire_bits::{AcquireBits, AcquireBitsNext};
use sync::regs::SW_MNG;
use sync::release_bits::{ReleaseBits, ReleaseBitsNext};

// Releasing: with how the command closed.
#[derive(Clone, Copy)]
pub enum Command {
    Acquiring(AcquireBits),
    Requesting(Request),
    Responding(Response),
    Releasing(ReleaseBits, R<u8>),
}

pub type CommandNext = Next<Command, R<u8>>;

// The command's own failure goes first, then the release's.
fn outcome_of(s: R<u8>, o: R<()>) -> R<u8>
    ensures { reply result ≡ both (reply s) (reply o) }
{
    let b = s?;
    o?;
    Ok(b)
}

fn releasing(port: Port, s: R<u8>, n: ReleaseBitsNext) -> CommandNext
    ensures { Bounds ((l : List ℕ) → command_next port result l ≡ followed (release_bits_next port SW_MNG n) (closed (reply s) l)) ((m : ℕ) → valid_release_bits_next n ≡ true → valid_command_next port m result ≡ true) (command_next_left port result ≤ longest (release_bits_next port SW_MNG n)) }
{
    match n {
        Next::Going(t) => Next::Going(Command::Releasing(t, s)),
        Next::End(o) => Next::End(outcome_of(s, o)),
    }
}

fn release(port: Port, s: R<u8>) -> CommandNext
    ensures { Bounds ((l : List ℕ) → command_next port result l ≡ erase (released port (record { status = reply s; block = l }))) ((m : ℕ) → valid_command_next port m result ≡ true) (command_next_left port result ≤ release_left port) }
{
    releasing(port, s, sync::release_bits::open(port, SW_MNG))
}

fn responding(port: Port, n: ResponseNext) -> CommandNext
    ensures { Bounds ((l : List ℕ) → command_next port result l ≡ followed (response_next n l) (released port)) ((m : ℕ) → valid_response_next m n ≡ true → valid_command_next port m result ≡ true) (command_next_left port result ≤ response_next_left n + release_left port) }
{
    match n {
        Next::Going(t) => Next::Going(Command::Responding(t)),
        Next::End(s) => release(port, s),
    }
}

fn request_done(port: Port, w: R<u32>) -> CommandNext
    ensures { Bounds ((l : List ℕ) → command_next port result l ≡ erase (requested port l (reply w))) ((m : ℕ) → valid_command_next port m result ≡ true) (command_next_left port result ≤ respond_left port) }
{
    match w {
        Ok(last) => Next::Going(Command::Responding(Response::Head(last))),
        Err(e) => release(port, Err(e)),
    }
}

fn requesting(port: Port, n: RequestNext) -> CommandNext
    ensures { Bounds ((l : List ℕ) → command_next port result l ≡ followed (request_next n l) (requested port l)) ((m : ℕ) → valid_request_next m n ≡ true → valid_command_next port m result ≡ true) (command_next_left port result ≤ request_next_left n + respond_left port) }
{
    match n {
        Next::Going(t) => Next::Going(Command::Requesting(t)),
        Next::End(w) => request_done(port, w),
    }
}

fn acquiring(port: Port, n: AcquireBitsNext) -> CommandNext
    ensures { Bounds ((l : List ℕ) → command_next port result l ≡ followed (acquire_bits_next port SW_MNG n) (acquired port l)) ((m : ℕ) → valid_acquire_bits_next port.family n ≡ true → valid_command_next port m result ≡ true) (command_next_left port result ≤ longest (acquire_bits_next port SW_MNG n) + acquired_left port) }
{
    match n {
        Next::Going(t) => Next::Going(Command::Acquiring(t)),
        Next::End(o) => match o {
            Ok(()) => Next::Going(Command::Requesting(Request::Fwsts(Update::Reading))),
            Err(e) => Next::End(Err(e)),
        },
    }
}

pub(crate) fn open(port: Port) -> CommandNext
    ensures { Bounds ((l : List ℕ) → command_next port result l ≡ erase (command port l)) ((m : ℕ) → valid_command_next port m result ≡ true) (command_next_left port result ≤ opened_left port) }
{
    let family = port.family;
    acquiring(
        port,
        sync::acquire_bits::open(port, SW_MNG, sync::regs::tries(family), 0),
    )
}

pub(crate) fn access(port: Port, s: Command, block: &[u32]) -> Access
    ensures { result ≡ access_command port s block.now }
{
    match s {
        Command::Acquiring(t) => sync::acquire_bits::access(port, SW_MNG, t),
        Command::Requesting(t) => crate::request::access(t, block),
        Command::Responding(t) => crate::response::access(t),
        Command::Releasing(t, _) => sync::release_bits::access(port, SW_MNG, t),
    }
}

pub(crate) fn step(port: Port, s: Command, block: &mut [u32], a: Answer) -> CommandNext
    requires { length block.old ≤ 64 }
    ensures { Bounds (command_next port result block.new ≡ erase (rest_command port s block.old a)) (valid_command port (length block.old) s ≡ true → valid_command_next port (length block.old) result ≡ true) (fits (access_command port s block.old) a ≡ true → InType a → command_next_left port result < command_left port s) }
{
    match s {
        Command::Acquiring(t) => acquiring(port, sync::acquire_bits::step(port, SW_MNG, t, a)),
        Command::Requesting(t) => requesting(port, crate::request::step(block.len(), t, a)),
        Command::Responding(t) => responding(port, crate::response::step(t, block, a)),
        Command::Releasing(t, b) => releasing(
            port,
            b,
            sync::release_bits::step(port, SW_MNG, t, a),
        ),
    }
}

pub(crate) fn valid(port: Port, n: usize, s: Command) -> bool
    ensures { result ≡ valid_command port n s }
{
    match s {
        Command::Acquiring(t) => {
            let family = port.family;
            sync::acquire_bits::valid(family, t)
        }
        Command::Requesting(t) => crate::request::valid(n, t),
        Command::Responding(t) => crate::response::valid(n, t),
        Command::Releasing(t, _) => sync::release_bits::valid(t),
    }
}
