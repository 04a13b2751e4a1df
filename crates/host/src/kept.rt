// Which of two failed accesses a result is by. A call's failure is that of the last access that failed, but where a command
// gives its lock back after its body failed: the body's failure goes first, as in the Rust's `locked`.
ghost use Rattle.std.specs.Prelude.{◌≡◌};
ghost use Rattle.host.specs.Kept.{failed, in_command, in_stage, in_release, in_command_call, in_token_call, in_acquire_call, in_release_call, failure_kept};

use acquire::acquire::Stage;
use acquire::calls::{AcquireCall, ReleaseCall};
use acquire::release::Release;
use flat::State;
use hardware::R;
use hostif::calls::{CommandCall, TokenCall};
use hostif::command::Command;
use hostif::token::Token;

#[tactic(auto, unfolding(crate::specs::Kept::failed))]
fn failed(b: R<u8>) -> bool
    ensures { result ≡ failed b }
{
    match b {
        Ok(_) => false,
        Err(_) => true,
    }
}

#[tactic(auto, unfolding(crate::specs::Kept::in_command))]
fn in_command(c: Command) -> bool
    ensures { result ≡ in_command c }
{
    match c {
        Command::Acquiring(_) => false,
        Command::Requesting(_) => false,
        Command::Responding(_) => false,
        Command::Releasing(_, b) => failed(b),
    }
}

fn in_token(t: Token) -> bool
    ensures { result ≡ in_command t.command }
{
    let c = t.command;
    in_command(c)
}

#[tactic(auto, unfolding(crate::specs::Kept::in_stage))]
fn in_stage(s: Stage) -> bool
    ensures { result ≡ in_stage s }
{
    match s {
        Stage::Bits(_, _) => false,
        Stage::Token(t) => in_token(t),
        Stage::Releasing(_, _) => false,
        Stage::Waiting => false,
    }
}

#[tactic(auto, unfolding(crate::specs::Kept::in_release))]
fn in_release(s: Release) -> bool
    ensures { result ≡ in_release s }
{
    match s {
        Release::Token(t) => in_token(t),
        Release::Bits(_, _) => false,
    }
}

#[tactic(auto, unfolding(crate::specs::Kept::in_command_call))]
fn in_command_call(c: CommandCall) -> bool
    ensures { result ≡ in_command_call c }
{
    match c {
        Some((_, t)) => in_command(t),
        None => false,
    }
}

#[tactic(auto, unfolding(crate::specs::Kept::in_token_call))]
fn in_token_call(c: TokenCall) -> bool
    ensures { result ≡ in_token_call c }
{
    match c {
        Some((_, _, t)) => in_token(t),
        None => false,
    }
}

#[tactic(auto, unfolding(crate::specs::Kept::in_acquire_call))]
fn in_acquire_call(c: AcquireCall) -> bool
    ensures { result ≡ in_acquire_call c }
{
    match c {
        Some((_, _, t)) => {
            let s = t.stage;
            in_stage(s)
        }
        None => false,
    }
}

#[tactic(auto, unfolding(crate::specs::Kept::in_release_call))]
fn in_release_call(c: ReleaseCall) -> bool
    ensures { result ≡ in_release_call c }
{
    match c {
        Some((_, _, t)) => in_release(t),
        None => false,
    }
}

// Whether the failure of an access that failed before stays the result's, where the one that this state awaits fails too.
#[unsafe(no_mangle)]
#[tactic(auto, unfolding(crate::specs::Kept::failure_kept, crate::specs::Kept::kept_as))]
pub extern "C" fn sulfryk_failure_kept(state: State) -> bool
    ensures { result ≡ failure_kept state }
{
    let call = state.call;
    match call {
        5 => in_acquire_call(flat::of_acquire::acquire_call(state)),
        6 => in_release_call(flat::of_acquire::release_call(state)),
        7 => in_token_call(flat::of_hostif::token_call(state)),
        8 => in_command_call(flat::of_hostif::command_call(state)),
        _ => false,
    }
}
