// The steps, one for each kind of loan: nothing, a block, a script, a buffer. kind and value are the answer: 0 the value that was
// read, 1 done, 2 failed; any other kind is refused with 12, before every question. A state of a call that is lent something
// else is refused with 10.
ghost use Rattle.std.specs.Prelude.{◌≡◌};
ghost use Rattle.host.specs.Step.{answered, AnsweredBy, SteppedTransfer, SteppedSetup, SteppedIdentify, SteppedRate, SteppedLight, SteppedAcquire, SteppedRelease, SteppedToken, LentBy, Stepped, CommandStepped, ScriptStepped, PageStepped};

use crate::Block;
use flat::State;
use hardware::Answer;

#[tactic(auto, unfolding(crate::specs::Step::answered))]
fn answered(kind: u32, value: u32) -> Option<Answer>
    ensures { result ≡ answered kind value }
{
    match kind {
        0 => Some(Answer::Value(value)),
        1 => Some(Answer::Done),
        2 => Some(Answer::Failed),
        _ => None,
    }
}

fn transfer(old: State, a: Answer) -> Block
    ensures { SteppedTransfer old a result }
{
    crate::shown::transfer(old, i2c::calls::plain(flat::of_i2c::transfer_call(old), a))
}

fn setup(old: State, a: Answer) -> Block
    ensures { SteppedSetup old a result }
{
    crate::shown::setup(
        old,
        i2c::calls::qsfp_setup_step(flat::of_i2c::setup_call(old), a),
    )
}

fn identify(old: State, a: Answer) -> Block
    ensures { SteppedIdentify old a result }
{
    crate::shown::identify(
        old,
        identify::calls::plain(flat::of_identify::identify_call(old), a),
    )
}

fn rate(old: State, a: Answer) -> Block
    ensures { SteppedRate old a result }
{
    crate::shown::rate(
        old,
        softrate::calls::plain(flat::of_softrate::rate_call(old), a),
    )
}

fn light(old: State, a: Answer) -> Block
    ensures { SteppedLight old a result }
{
    crate::shown::light(old, light::calls::plain(flat::of_light::light_call(old), a))
}

fn acquire(old: State, a: Answer) -> Block
    ensures { SteppedAcquire old a result }
{
    crate::shown::acquire(
        old,
        acquire::calls::acquire_step(flat::of_acquire::acquire_call(old), a),
    )
}

fn release(old: State, a: Answer) -> Block
    ensures { SteppedRelease old a result }
{
    crate::shown::release(
        old,
        acquire::calls::release_step(flat::of_acquire::release_call(old), a),
    )
}

fn token(old: State, a: Answer) -> Block
    ensures { SteppedToken old a result }
{
    crate::shown::token(
        old,
        hostif::calls::token_step(flat::of_hostif::token_call(old), a),
    )
}

// By the number of the state's call.
#[tactic(auto, using(crate::proofs::Laws::by_call), unfolding(crate::specs::Step::AnsweredBy, crate::specs::Step::SteppedAs, crate::specs::Step::Stepped))]
fn stepped(old: State, kind: u32, value: u32) -> Block
    ensures { AnsweredBy (answered kind value) (λ a. Stepped old a) old result }
{
    match answered(kind, value) {
        Some(a) => {
            let call = old.call;
            match call {
                0 => transfer(old, a),
                1 => setup(old, a),
                2 => identify(old, a),
                3 => rate(old, a),
                4 => light(old, a),
                5 => acquire(old, a),
                6 => release(old, a),
                7 => token(old, a),
                _ => crate::shown::refused(10, old),
            }
        }
        None => crate::shown::refused(12, old),
    }
}

#[unsafe(no_mangle)]
#[tactic(auto, unfolding(bus::specs::Quick::MovedBy))]
pub extern "C" fn sulfryk_step(state: State, kind: u32, value: u32) -> Block
    ensures { AnsweredBy (answered kind value) (λ a. Stepped state a) state result }
{
    // The direct way where there is one, else the plain one. The local takes fewer instructions than the call as the arm's
    // value (`docs/MEASURED.md`).
    match crate::direct::moved(state, answered(kind, value)) {
        Some((x, j)) => crate::shown::moved(x, state, j),
        None => {
            let b = stepped(state, kind, value);
            b
        }
    }
}

#[tactic(auto, unfolding(crate::specs::Step::CommandStepped))]
fn command_on(old: State, block: &mut [u32], a: Answer) -> Block
    ensures { CommandStepped old block.old block.new a result }
{
    let call = old.call;
    match call {
        8 => crate::shown::command(
            old,
            hostif::calls::command_step(flat::of_hostif::command_call(old), block, a),
        ),
        _ => crate::shown::refused(10, old),
    }
}

#[unsafe(no_mangle)]
#[tactic(auto, unfolding(crate::specs::Step::LentBy))]
pub extern "C" fn sulfryk_command_step(
    state: State,
    block: &mut [u32],
    kind: u32,
    value: u32,
) -> Block
    ensures { LentBy (answered kind value) (λ a. CommandStepped state block.old block.new a) state block.old block.new result }
{
    match answered(kind, value) {
        Some(a) => command_on(state, block, a),
        None => crate::shown::refused(12, state),
    }
}

#[tactic(auto, unfolding(crate::specs::Step::ScriptStepped))]
fn script_on(old: State, script: &[u8], a: Answer) -> Block
    ensures { ScriptStepped old script.now a result }
{
    let call = old.call;
    match call {
        9 => crate::shown::script(
            old,
            transfer::calls::script_step(flat::of_transfer::script_call(old), script, a),
        ),
        _ => crate::shown::refused(10, old),
    }
}

#[unsafe(no_mangle)]
#[tactic(auto, unfolding(crate::specs::Step::AnsweredBy))]
pub extern "C" fn sulfryk_script_step(state: State, script: &[u8], kind: u32, value: u32) -> Block
    ensures { AnsweredBy (answered kind value) (λ a. ScriptStepped state script.now a) state result }
{
    match answered(kind, value) {
        Some(a) => script_on(state, script, a),
        None => crate::shown::refused(12, state),
    }
}

#[tactic(auto, unfolding(crate::specs::Step::PageStepped))]
fn page_on(old: State, buffer: &mut [u8], a: Answer) -> Block
    ensures { PageStepped old buffer.old buffer.new a result }
{
    let call = old.call;
    match call {
        10 => crate::shown::page(
            old,
            page::calls::plain(flat::of_page::page_call(old), buffer, a),
        ),
        _ => crate::shown::refused(10, old),
    }
}

#[unsafe(no_mangle)]
#[tactic(auto, unfolding(crate::specs::Step::LentBy))]
pub extern "C" fn sulfryk_page_step(state: State, buffer: &mut [u8], kind: u32, value: u32) -> Block
    ensures { LentBy (answered kind value) (λ a. PageStepped state buffer.old buffer.new a) state buffer.old buffer.new result }
{
    match answered(kind, value) {
        Some(a) => page_on(state, buffer, a),
        None => crate::shown::refused(12, state),
    }
}
