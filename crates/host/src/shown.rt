// What a call tells, as a block. old: the state that stays where the call is refused.
ghost use Rattle.std.specs.Prelude.{◌≡◌};
ghost use Rattle.hardware.specs.Numbers.{refusal_number};
ghost use Rattle.host.specs.Direct.{moved_block};
ghost use Rattle.host.specs.Shown.{block_of, refused_block, over_transfer, shown_transfer, over_setup, shown_setup, over_identify, shown_identify, over_rate, shown_rate, over_light, shown_light, over_acquire, shown_acquire, over_release, shown_release, over_token, shown_token, over_command, shown_command, over_script, shown_script, over_page, shown_page};

use crate::{Block, Next};
use acquire::calls::{AcquireTold, ReleaseTold};
use bus::job::Job;
use flat::State;
use hardware::{Access, BLANK, Refusal, Told};
use hostif::calls::{CommandTold, TokenTold};
use i2c::calls::{SetupTold, TransferTold};
use identify::calls::IdentifyTold;
use light::calls::LightTold;
use page::calls::PageTold;
use softrate::calls::RateTold;
use transfer::calls::{Said, ScriptTold};

fn block(next: Next, state: State) -> Block
    ensures { result ≡ block_of next state }
{
    Block { next, state }
}

// The next access of a state whose job moved.
pub fn moved(x: Access, s: State, j: Job) -> Block
    ensures { result ≡ moved_block s x j }
{
    block(crate::numbers::asked(x, 0), crate::direct::with_job(s, j))
}

// Refused with a number, the state as it was.
#[tactic(auto, unfolding(crate::specs::Shown::refused_block))]
pub fn refused(number: u32, old: State) -> Block
    ensures { result ≡ refused_block number old }
{
    block(crate::numbers::refused(number), old)
}

fn turned(q: Refusal, old: State) -> Block
    ensures { result ≡ refused_block (refusal_number q) old }
{
    refused(hardware::refusal_number(q) as u32, old)
}

// The finished state.
#[tactic(auto, unfolding(crate::specs::Shown::over_transfer))]
pub fn transfer_over() -> State
    ensures { result ≡ over_transfer }
{
    flat::of_i2c::of_transfer_call(None)
}

#[tactic(auto, unfolding(crate::specs::Shown::shown_transfer))]
pub fn transfer(old: State, t: TransferTold) -> Block
    ensures { result ≡ shown_transfer old t }
{
    match t {
        Ok(Told::Ask(x, s)) => block(
            crate::numbers::asked(x, 0),
            flat::of_i2c::of_transfer_call(s),
        ),
        Ok(Told::End((w, m))) => block(crate::numbers::word(w, m), transfer_over()),
        Err(q) => turned(q, old),
    }
}

// The finished state.
#[tactic(auto, unfolding(crate::specs::Shown::over_setup))]
pub fn setup_over() -> State
    ensures { result ≡ over_setup }
{
    flat::of_i2c::of_setup_call(None)
}

#[tactic(auto, unfolding(crate::specs::Shown::shown_setup))]
pub fn setup(old: State, t: SetupTold) -> Block
    ensures { result ≡ shown_setup old t }
{
    match t {
        Ok(Told::Ask(x, s)) => block(crate::numbers::asked(x, 0), flat::of_i2c::of_setup_call(s)),
        Ok(Told::End(o)) => block(crate::numbers::outcome(o, BLANK), setup_over()),
        Err(q) => turned(q, old),
    }
}

// The finished state.
#[tactic(auto, unfolding(crate::specs::Shown::over_identify))]
pub fn identify_over() -> State
    ensures { result ≡ over_identify }
{
    flat::of_identify::of_identify_call(None)
}

#[tactic(auto, unfolding(crate::specs::Shown::shown_identify))]
pub fn identify(old: State, t: IdentifyTold) -> Block
    ensures { result ≡ shown_identify old t }
{
    match t {
        Ok(Told::Ask(x, s)) => block(
            crate::numbers::asked(x, 0),
            flat::of_identify::of_identify_call(s),
        ),
        Ok(Told::End((f, m))) => block(crate::numbers::identified(f, m), identify_over()),
        Err(q) => turned(q, old),
    }
}

// The finished state.
#[tactic(auto, unfolding(crate::specs::Shown::over_rate))]
pub fn rate_over() -> State
    ensures { result ≡ over_rate }
{
    flat::of_softrate::of_rate_call(None)
}

#[tactic(auto, unfolding(crate::specs::Shown::shown_rate))]
pub fn rate(old: State, t: RateTold) -> Block
    ensures { result ≡ shown_rate old t }
{
    match t {
        Ok(Told::Ask(x, s)) => block(
            crate::numbers::asked(x, 0),
            flat::of_softrate::of_rate_call(s),
        ),
        Ok(Told::End((f, m))) => block(crate::numbers::flag(f, m), rate_over()),
        Err(q) => turned(q, old),
    }
}

// The finished state.
#[tactic(auto, unfolding(crate::specs::Shown::over_light))]
pub fn light_over() -> State
    ensures { result ≡ over_light }
{
    flat::of_light::of_light_call(None)
}

#[tactic(auto, unfolding(crate::specs::Shown::shown_light))]
pub fn light(old: State, t: LightTold) -> Block
    ensures { result ≡ shown_light old t }
{
    match t {
        Ok(Told::Ask(x, s)) => block(
            crate::numbers::asked(x, 0),
            flat::of_light::of_light_call(s),
        ),
        Ok(Told::End((r, m))) => block(crate::numbers::measured(r, m), light_over()),
        Err(q) => turned(q, old),
    }
}

// The finished state.
#[tactic(auto, unfolding(crate::specs::Shown::over_acquire))]
pub fn acquire_over() -> State
    ensures { result ≡ over_acquire }
{
    flat::of_acquire::of_acquire_call(None)
}

#[tactic(auto, unfolding(crate::specs::Shown::shown_acquire))]
pub fn acquire(old: State, t: AcquireTold) -> Block
    ensures { result ≡ shown_acquire old t }
{
    match t {
        Ok(Told::Ask(x, s)) => block(
            crate::numbers::asked(x, 0),
            flat::of_acquire::of_acquire_call(s),
        ),
        Ok(Told::End(o)) => block(crate::numbers::outcome(o, BLANK), acquire_over()),
        Err(q) => turned(q, old),
    }
}

// The finished state.
#[tactic(auto, unfolding(crate::specs::Shown::over_release))]
pub fn release_over() -> State
    ensures { result ≡ over_release }
{
    flat::of_acquire::of_release_call(None)
}

#[tactic(auto, unfolding(crate::specs::Shown::shown_release))]
pub fn release(old: State, t: ReleaseTold) -> Block
    ensures { result ≡ shown_release old t }
{
    match t {
        Ok(Told::Ask(x, s)) => block(
            crate::numbers::asked(x, 0),
            flat::of_acquire::of_release_call(s),
        ),
        Ok(Told::End(o)) => block(crate::numbers::outcome(o, BLANK), release_over()),
        Err(q) => turned(q, old),
    }
}

// The finished state.
#[tactic(auto, unfolding(crate::specs::Shown::over_token))]
pub fn token_over() -> State
    ensures { result ≡ over_token }
{
    flat::of_hostif::of_token_call(None)
}

#[tactic(auto, unfolding(crate::specs::Shown::shown_token))]
pub fn token(old: State, t: TokenTold) -> Block
    ensures { result ≡ shown_token old t }
{
    match t {
        Ok(Told::Ask(x, s)) => block(
            crate::numbers::asked(x, 0),
            flat::of_hostif::of_token_call(s),
        ),
        Ok(Told::End(f)) => block(crate::numbers::flag(f, BLANK), token_over()),
        Err(q) => turned(q, old),
    }
}

// The finished state.
#[tactic(auto, unfolding(crate::specs::Shown::over_command))]
pub fn command_over() -> State
    ensures { result ≡ over_command }
{
    flat::of_hostif::of_command_call(None)
}

#[tactic(auto, unfolding(crate::specs::Shown::shown_command))]
pub fn command(old: State, t: CommandTold) -> Block
    ensures { result ≡ shown_command old t }
{
    match t {
        Ok(Told::Ask(x, s)) => block(
            crate::numbers::asked(x, 0),
            flat::of_hostif::of_command_call(s),
        ),
        Ok(Told::End(b)) => block(crate::numbers::byte(b), command_over()),
        Err(q) => turned(q, old),
    }
}

// The finished state.
#[tactic(auto, unfolding(crate::specs::Shown::over_script))]
pub fn script_over() -> State
    ensures { result ≡ over_script }
{
    flat::of_transfer::of_script_call(None)
}

#[tactic(auto, unfolding(crate::specs::Shown::shown_script))]
pub fn script(old: State, t: ScriptTold) -> Block
    ensures { result ≡ shown_script old t }
{
    match t {
        Ok(Said::Ask(x, s)) => block(
            crate::numbers::asked(x, 0),
            flat::of_transfer::of_script_call(s),
        ),
        Ok(Said::Read(b, x, s)) => block(
            crate::numbers::asked(x, 256 + b as u32),
            flat::of_transfer::of_script_call(s),
        ),
        Ok(Said::End(o, m)) => block(crate::numbers::outcome(o, m), script_over()),
        Err(q) => turned(q, old),
    }
}

// The finished state.
#[tactic(auto, unfolding(crate::specs::Shown::over_page))]
pub fn page_over() -> State
    ensures { result ≡ over_page }
{
    flat::of_page::of_page_call(None)
}

#[tactic(auto, unfolding(crate::specs::Shown::shown_page))]
pub fn page(old: State, t: PageTold) -> Block
    ensures { result ≡ shown_page old t }
{
    match t {
        Ok(Told::Ask(x, s)) => block(crate::numbers::asked(x, 0), flat::of_page::of_page_call(s)),
        Ok(Told::End((p, m))) => block(crate::numbers::paged(p, m), page_over()),
        Err(q) => turned(q, old),
    }
}
