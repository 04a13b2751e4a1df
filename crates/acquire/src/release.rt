// A mask is released: the token first, then the bits of SW_FW_SYNC, which are released even if the token's release
// failed.
#![tactic(auto, using(hardware::proofs::Prog::going, hardware::proofs::Prog::over), unfolding(crate::specs::Acquire::acquire_next, crate::specs::Acquire::access_acquire, crate::specs::Acquire::access_acquire_at, crate::specs::Acquire::rest_acquire, crate::specs::Acquire::rest_acquire_at, crate::specs::Acquire::release_next, crate::specs::Acquire::access_release, crate::specs::Acquire::rest_release, sync::specs::Resource::acquire_bits_next, sync::specs::Resource::release_bits_next, hostif::specs::Hostif::token_next, crate::specs::Acquire::valid_release_next, crate::specs::Acquire::valid_release, sync::specs::Resource::valid_release_bits_next, hardware::specs::Prog::followed, hardware::specs::Prog::or_err, hardware::specs::Registers::reply, hardware::specs::Prog::erase, hostif::specs::Acquire::give_bits, hostif::specs::Acquire::with_bits, hardware::specs::Prog::pick, hostif::specs::Acquire::token_given, hostif::specs::Acquire::gave, hostif::specs::Hostif::valid_token_next, hostif::specs::Acquire::release, hostif::specs::Acquire::try_token, crate::specs::Acquire::valid_acquire_at, crate::specs::Calls::step_acquire, crate::specs::Calls::step_release, crate::specs::Calls::open_acquire, crate::specs::Calls::open_release, hardware::specs::Asked::question, hardware::specs::Asked::and_then, hardware::specs::Asked::opened, sync::specs::Resource::acquire_bits))]

ghost use Rattle.std.specs.Prelude.{◌≡◌, true, false};
ghost use Rattle.hardware.specs.Prog.{erase, followed, or_err, ret};
ghost use Rattle.hardware.specs.Registers.{reply};
ghost use Rattle.sync.specs.Resource.{release_bits_next, valid_release_bits_next};
ghost use Rattle.hostif.specs.Hostif.{token_next, valid_token_next};
ghost use Rattle.hostif.specs.Acquire.{hw_of, give_bits, token_given, release};
ghost use Rattle.acquire.specs.Acquire.{access_release, rest_release, release_next, valid_release, valid_release_next};

use crate::acquire::hw;
use hardware::{Access, Answer, Next, Port, R};
use hostif::token::{Token, TokenNext};
use sync::regs::TOKEN;
use sync::release_bits::{ReleaseBits, ReleaseBitsNext};

// Bits: with how the token's release ended.
#[derive(Clone, Copy)]
pub enum Release {
    Token(Token),
    Bits(ReleaseBits, R<()>),
}

pub type ReleaseNext = Next<Release, R<()>>;

fn bits(port: Port, hw: u32, w: R<()>, n: ReleaseBitsNext) -> ReleaseNext
    ensures yields { release_next port hw result ≡ followed (release_bits_next port hw n) (or_err (λ _. ret (reply w))) }
    ensures limits { valid_release_bits_next n ≡ true → valid_release_next port result ≡ true }
{
    match n {
        Next::Going(t) => Next::Going(Release::Bits(t, w)),
        Next::End(o) => match o {
            Ok(()) => Next::End(w),
            Err(e) => Next::End(Err(e)),
        },
    }
}

fn open_bits(port: Port, hw: u32, w: R<()>) -> ReleaseNext
    ensures yields { release_next port hw result ≡ erase (give_bits port hw (reply w)) }
    ensures limits { valid_release_next port result ≡ true }
{
    if hw == 0 {
        return Next::End(w);
    }
    bits(port, hw, w, sync::release_bits::open(port, hw))
}

fn token_done(port: Port, hw: u32, g: R<bool>) -> ReleaseNext
    ensures yields { release_next port hw result ≡ erase (token_given port hw (reply g)) }
    ensures limits { valid_release_next port result ≡ true }
{
    match g {
        Ok(_) => open_bits(port, hw, Ok(())),
        Err(e) => open_bits(port, hw, Err(e)),
    }
}

fn token(port: Port, hw: u32, n: TokenNext) -> ReleaseNext
    ensures yields { release_next port hw result ≡ followed (token_next port false n) (token_given port hw) }
    ensures limits { valid_token_next port n ≡ true → valid_release_next port result ≡ true }
{
    match n {
        Next::Going(t) => Next::Going(Release::Token(t)),
        Next::End(g) => token_done(port, hw, g),
    }
}

pub fn open(port: Port, mask: u32) -> ReleaseNext
    ensures yields { release_next port (hw_of mask) result ≡ erase (release port mask) }
    ensures limits { valid_release_next port result ≡ true }
{
    let bits = hw(mask);
    if hardware::none_of(mask, TOKEN) {
        return open_bits(port, bits, Ok(()));
    }
    token(port, bits, hostif::token::open(port, false))
}

pub fn access(port: Port, hw: u32, s: Release) -> Access
    ensures { result ≡ access_release port hw s }
{
    match s {
        Release::Token(t) => hostif::token::access(port, t),
        Release::Bits(t, _) => sync::release_bits::access(port, hw, t),
    }
}

pub fn step(port: Port, hw: u32, s: Release, a: Answer) -> ReleaseNext
    ensures yields { release_next port hw result ≡ erase (rest_release port hw s a) }
    ensures limits { valid_release port s ≡ true → valid_release_next port result ≡ true }
{
    match s {
        Release::Token(t) => token(port, hw, hostif::token::step(port, false, t, a)),
        Release::Bits(t, w) => bits(port, hw, w, sync::release_bits::step(port, hw, t, a)),
    }
}

pub fn valid(port: Port, s: Release) -> bool
    ensures { result ≡ valid_release port s }
{
    match s {
        Release::Token(t) => hostif::token::valid(port, t),
        Release::Bits(t, _) => sync::release_bits::valid(t),
    }
}
