// A mask is acquired. With TOKEN, the bits of SW_FW_SYNC and then the firmware's token; while the firmware is busy the
// bits are given back, and both are asked for again 5 ms later, 1,000 tries in all.
#![tactic(auto, using(hardware::proofs::Prog::going, hardware::proofs::Prog::over, crate::proofs::Laws::token_alone, crate::proofs::Laws::token_bits, hardware::proofs::Laws::one_less, hardware::proofs::Laws::both_true), unfolding(crate::specs::Acquire::acquire_next, crate::specs::Acquire::access_acquire, crate::specs::Acquire::access_acquire_at, crate::specs::Acquire::rest_acquire, crate::specs::Acquire::rest_acquire_at, crate::specs::Acquire::release_next, crate::specs::Acquire::access_release, crate::specs::Acquire::rest_release, sync::specs::Resource::acquire_bits_next, sync::specs::Resource::release_bits_next, hostif::specs::Hostif::token_next, hardware::specs::Prog::followed, hardware::specs::Prog::erase, hardware::specs::Prog::or_err, hardware::specs::Prog::pick, hardware::specs::Registers::reply, hostif::specs::Acquire::hw_of, hostif::specs::Acquire::with_bits, hostif::specs::Acquire::acquired_all, hostif::specs::Acquire::not_granted, hostif::specs::Acquire::given_back, hostif::specs::Acquire::token_seen, hostif::specs::Acquire::gave, hostif::specs::Acquire::give_bits, hostif::specs::Acquire::token_given, hostif::specs::Acquire::acquire, hostif::specs::Acquire::release, crate::specs::Acquire::valid_acquire_at, crate::specs::Acquire::valid_acquire, crate::specs::Acquire::valid_release, crate::specs::Calls::said_acquire, crate::specs::Calls::said_release, crate::specs::Calls::step_acquire, crate::specs::Calls::step_release, crate::specs::Calls::open_acquire, crate::specs::Calls::open_release, hardware::specs::Asked::question, hardware::specs::Asked::and_then, hardware::specs::Asked::opened, crate::specs::Acquire::valid_acquire_next, sync::specs::Resource::valid_release_bits_next, hostif::specs::Hostif::valid_token_next, hostif::specs::Acquire::try_token, sync::specs::Resource::acquire_bits, hostif::specs::Acquire::after_bits, sync::specs::Resource::valid_acquire_bits_next, hostif::specs::Acquire::acquire_token, hardware::specs::Failures::failure_of))]

ghost use Rattle.std.specs.Prelude.{◌<◌, ◌≤◌, ◌≡◌, true};
ghost use Rattle.hardware.specs.Prog.{erase, followed, or_err};
ghost use Rattle.hardware.specs.Registers.{reply};
ghost use Rattle.sync.specs.Resource.{acquire_bits, acquire_bits_next, valid_acquire_bits_next, release_bits_next, valid_release_bits_next};
ghost use Rattle.hostif.specs.Hostif.{token_next, valid_token_next};
ghost use Rattle.hostif.specs.Acquire.{TOKEN_TRIES, hw_of, not_granted, given_back, token_seen, acquire_token, try_token, after_bits, acquire};
ghost use Rattle.acquire.specs.Acquire.{access_acquire_at, access_acquire, rest_acquire_at, rest_acquire, acquire_next, valid_acquire_at, valid_acquire, valid_acquire_next};

use hardware::{Access, Answer, Error, Millis, Next, Port, R};
use hostif::token::{Token, TokenNext};
use sync::acquire_bits::{AcquireBits, AcquireBitsNext};
use sync::regs::TOKEN;
use sync::release_bits::{ReleaseBits, ReleaseBitsNext};

pub const TOKEN_TRIES: u32 = 1000;

pub const TOKEN_DELAY_MS: u16 = 5;

// Bits: with whether the token comes after them. Releasing: with what the firmware said.
#[derive(Clone, Copy)]
pub enum Stage {
    Bits(AcquireBits, bool),
    Token(Token),
    Releasing(ReleaseBits, R<bool>),
    Waiting,
}

// left: the tries for the token after this one.
#[derive(Clone, Copy)]
pub struct Acquire {
    pub left: u32,
    pub stage: Stage,
}

pub type AcquireNext = Next<Acquire, R<()>>;

// The mask's bits of SW_FW_SYNC.
pub fn hw(mask: u32) -> u32
    ensures { result ≡ hw_of mask }
{
    mask & !TOKEN
}

fn token_refused(port: Port, hw: u32, left: u32, g: R<bool>) -> AcquireNext
    ensures yields { acquire_next port hw result ≡ erase (not_granted (λ _. acquire_token port hw left) (reply g)) }
    ensures limits { left < TOKEN_TRIES → valid_acquire_next port result ≡ true }
{
    match g {
        Ok(_) => Next::Going(Acquire {
            left,
            stage: Stage::Waiting,
        }),
        Err(e) => Next::End(Err(e)),
    }
}

fn releasing(port: Port, hw: u32, left: u32, g: R<bool>, n: ReleaseBitsNext) -> AcquireNext
    ensures yields { acquire_next port hw result ≡ followed (release_bits_next port hw n) (or_err (λ _. not_granted (λ _. acquire_token port hw left) (reply g))) }
    ensures limits { left < TOKEN_TRIES → valid_release_bits_next n ≡ true → valid_acquire_next port result ≡ true }
{
    match n {
        Next::Going(t) => Next::Going(Acquire {
            left,
            stage: Stage::Releasing(t, g),
        }),
        Next::End(o) => match o {
            Ok(()) => token_refused(port, hw, left, g),
            Err(e) => Next::End(Err(e)),
        },
    }
}

// The token did not come: the bits go back first.
fn give_back(port: Port, hw: u32, left: u32, g: R<bool>) -> AcquireNext
    ensures yields { acquire_next port hw result ≡ erase (given_back port hw (λ _. acquire_token port hw left) (reply g)) }
    ensures limits { left < TOKEN_TRIES → valid_acquire_next port result ≡ true }
{
    if hw == 0 {
        return token_refused(port, hw, left, g);
    }
    releasing(port, hw, left, g, sync::release_bits::open(port, hw))
}

fn token_done(port: Port, hw: u32, left: u32, g: R<bool>) -> AcquireNext
    ensures yields { acquire_next port hw result ≡ erase (token_seen port hw (λ _. acquire_token port hw left) (reply g)) }
    ensures limits { left < TOKEN_TRIES → valid_acquire_next port result ≡ true }
{
    match g {
        Ok(b) => {
            if b {
                return Next::End(Ok(()));
            }
            give_back(port, hw, left, Ok(false))
        }
        Err(e) => give_back(port, hw, left, Err(e)),
    }
}

fn token(port: Port, hw: u32, left: u32, n: TokenNext) -> AcquireNext
    ensures yields { acquire_next port hw result ≡ followed (token_next port true n) (token_seen port hw (λ _. acquire_token port hw left)) }
    ensures limits { left < TOKEN_TRIES → valid_token_next port n ≡ true → valid_acquire_next port result ≡ true }
{
    match n {
        Next::Going(t) => Next::Going(Acquire {
            left,
            stage: Stage::Token(t),
        }),
        Next::End(g) => token_done(port, hw, left, g),
    }
}

fn try_token(port: Port, hw: u32, left: u32) -> AcquireNext
    ensures yields { acquire_next port hw result ≡ erase (try_token port hw left) }
    ensures limits { left < TOKEN_TRIES → valid_acquire_next port result ≡ true }
{
    token(port, hw, left, hostif::token::open(port, true))
}

// token: whether it comes after the bits.
fn bits(port: Port, hw: u32, left: u32, token: bool, n: AcquireBitsNext) -> AcquireNext
    ensures yields { acquire_next port hw result ≡ followed (acquire_bits_next port hw n) (or_err (λ _. after_bits port hw left token)) }
    ensures limits { left < TOKEN_TRIES → valid_acquire_bits_next port.family n ≡ true → valid_acquire_next port result ≡ true }
{
    match n {
        Next::Going(t) => Next::Going(Acquire {
            left,
            stage: Stage::Bits(t, token),
        }),
        Next::End(o) => match o {
            Ok(()) => {
                if token {
                    return try_token(port, hw, left);
                }
                Next::End(Ok(()))
            }
            Err(e) => Next::End(Err(e)),
        },
    }
}

fn first(port: Port, hw: u32) -> AcquireBitsNext
    ensures yields { acquire_bits_next port hw result ≡ erase (acquire_bits port hw) }
    ensures limits { valid_acquire_bits_next port.family result ≡ true }
{
    let family = port.family;
    sync::acquire_bits::open(port, hw, sync::regs::tries(family), 0)
}

// A try for the bits and the token.
fn open_token(port: Port, hw: u32, tries: u32) -> AcquireNext
    ensures yields { acquire_next port hw result ≡ erase (acquire_token port hw tries) }
    ensures limits { tries ≤ TOKEN_TRIES → valid_acquire_next port result ≡ true }
{
    if tries == 0 {
        return Next::End(Err(Error::Firmware(
            hostif::token::TOKEN_COMMAND,
            hostif::token::TOKEN_BUSY,
        )));
    }
    if hw == 0 {
        return try_token(port, hw, tries - 1);
    }
    bits(port, hw, tries - 1, true, first(port, hw))
}

#[tactic(auto, using(hardware::proofs::Prog::over), unfolding(hostif::specs::Acquire::acquire, hostif::specs::Acquire::after_bits, hardware::specs::Prog::pick, hardware::specs::Prog::erase))]
pub fn open(port: Port, mask: u32) -> AcquireNext
    ensures yields { acquire_next port (hw_of mask) result ≡ erase (acquire port mask) }
    ensures limits { valid_acquire_next port result ≡ true }
{
    let m = hw(mask);
    if hardware::none_of(mask, TOKEN) {
        return bits(port, m, 0, false, first(port, m));
    }
    open_token(port, m, TOKEN_TRIES)
}

fn stage_access(port: Port, hw: u32, s: Stage) -> Access
    ensures { result ≡ access_acquire_at port hw s }
{
    match s {
        Stage::Bits(t, _) => sync::acquire_bits::access(port, hw, t),
        Stage::Token(t) => hostif::token::access(port, t),
        Stage::Releasing(t, _) => sync::release_bits::access(port, hw, t),
        Stage::Waiting => Access::Wait(hardware::delay_ms(Millis(TOKEN_DELAY_MS))),
    }
}

pub fn access(port: Port, hw: u32, s: Acquire) -> Access
    ensures { result ≡ access_acquire port hw s }
{
    let stage = s.stage;
    stage_access(port, hw, stage)
}

fn stage_step(port: Port, hw: u32, left: u32, s: Stage, a: Answer) -> AcquireNext
    ensures yields { acquire_next port hw result ≡ erase (rest_acquire_at port hw left s a) }
    ensures limits { left < TOKEN_TRIES → valid_acquire_at port s ≡ true → valid_acquire_next port result ≡ true }
{
    match s {
        Stage::Bits(t, token) => bits(
            port,
            hw,
            left,
            token,
            sync::acquire_bits::step(port, hw, t, a),
        ),
        Stage::Token(t) => token(port, hw, left, hostif::token::step(port, true, t, a)),
        Stage::Releasing(t, g) => releasing(
            port,
            hw,
            left,
            g,
            sync::release_bits::step(port, hw, t, a),
        ),
        Stage::Waiting => open_token(port, hw, left),
    }
}

pub fn step(port: Port, hw: u32, s: Acquire, a: Answer) -> AcquireNext
    ensures yields { acquire_next port hw result ≡ erase (rest_acquire port hw s a) }
    ensures limits { valid_acquire port s ≡ true → valid_acquire_next port result ≡ true }
{
    let stage = s.stage;
    stage_step(port, hw, s.left, stage, a)
}

fn stage_valid(port: Port, s: Stage) -> bool
    ensures { result ≡ valid_acquire_at port s }
{
    let family = port.family;
    match s {
        Stage::Bits(t, _) => sync::acquire_bits::valid(family, t),
        Stage::Token(t) => hostif::token::valid(port, t),
        Stage::Releasing(t, _) => sync::release_bits::valid(t),
        Stage::Waiting => true,
    }
}

pub fn valid(port: Port, s: Acquire) -> bool
    ensures { result ≡ valid_acquire port s }
{
    if s.left < TOKEN_TRIES {
        let stage = s.stage;
        return stage_valid(port, stage);
    }
    false
}
