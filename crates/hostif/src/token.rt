// The firmware's PHY token, asked for or given back by a command of two words.
#![tactic(auto, using(hardware::proofs::Prog::going, hardware::proofs::Prog::over, crate::proofs::Laws::two_words), unfolding(crate::specs::Hostif::tokened, crate::specs::Hostif::header, crate::specs::Hostif::valid_token, hardware::specs::Prog::pick, crate::specs::Hostif::token_second, hardware::specs::Registers::reply, crate::specs::Hostif::token_status, hardware::specs::Failures::failure_of, crate::specs::Hostif::command_next, crate::specs::Hostif::token_next, crate::specs::Hostif::access_token, crate::specs::Hostif::rest_token, crate::specs::Hostif::valid_token_next, crate::specs::Hostif::valid_command_next, hardware::specs::Prog::followed, hardware::specs::Prog::erase, crate::specs::Hostif::token, crate::specs::Hostif::token_block))]

ghost use Rattle.std.specs.Prelude.{◌≡◌, true, [], ◌∷◌};
ghost use Rattle.hardware.specs.Prog.{erase, followed};
ghost use Rattle.hardware.specs.Registers.{reply};
ghost use Rattle.hostif.specs.Hostif.{header, command_next, valid_command_next, token_second, token_status, tokened, token, access_token, rest_token, token_next, valid_token, valid_token_next};

use crate::command::{Command, CommandNext};
use hardware::{Access, Answer, Error, Next, Port, R};

pub const TOKEN_COMMAND: u8 = 0x0a;

pub const TOKEN_BUSY: u8 = 0x80;

pub const TOKEN_OK: u8 = 0x01;

// The block's two words stand beside the command.
#[derive(Clone, Copy)]
pub struct Token {
    pub first: u32,
    pub second: u32,
    pub command: Command,
}

pub type TokenNext = Next<Token, R<bool>>;

// Byte 3 of a header is FF, byte 1 the length, byte 0 the command.
pub fn header(command: u8, len: u8) -> u32
    ensures { result ≡ header command len }
{
    0xff00_0000 + len as u32 * 256 + command as u32
}

fn second(port: Port, take: bool) -> u32
    ensures { result ≡ token_second port take }
{
    if take {
        return port.lan as u32;
    }
    port.lan as u32 + 256
}

fn status(take: bool, s: R<u8>) -> R<bool>
    ensures { reply result ≡ token_status take (reply s) }
{
    let b = s?;
    if b == TOKEN_OK {
        return Ok(true);
    }
    if b == TOKEN_BUSY {
        if take {
            return Ok(false);
        }
    }
    Err(Error::Firmware(TOKEN_COMMAND, b))
}

fn commanded(port: Port, take: bool, first: u32, second: u32, n: CommandNext) -> TokenNext
    ensures yields { token_next port take result ≡ followed (command_next port n (first ∷ second ∷ [])) (tokened take) }
    ensures limits { valid_command_next port 2 n ≡ true → valid_token_next port result ≡ true }
{
    match n {
        Next::Going(command) => Next::Going(Token {
            first,
            second,
            command,
        }),
        Next::End(s) => Next::End(status(take, s)),
    }
}

pub fn open(port: Port, take: bool) -> TokenNext
    ensures yields { token_next port take result ≡ erase (token port take) }
    ensures limits { valid_token_next port result ≡ true }
{
    commanded(
        port,
        take,
        header(TOKEN_COMMAND, 2),
        second(port, take),
        crate::command::open(port),
    )
}

pub fn access(port: Port, s: Token) -> Access
    ensures { result ≡ access_token port s }
{
    let block = [s.first, s.second];
    let command = s.command;
    crate::command::access(port, command, &block)
}

pub fn step(port: Port, take: bool, s: Token, a: Answer) -> TokenNext
    ensures yields { token_next port take result ≡ erase (rest_token port take s a) }
    ensures limits { valid_token port s ≡ true → valid_token_next port result ≡ true }
{
    let mut block = [s.first, s.second];
    let command = s.command;
    let n = crate::command::step(port, command, &mut block, a);
    commanded(port, take, block[0], block[1], n)
}

pub fn valid(port: Port, s: Token) -> bool
    ensures { result ≡ valid_token port s }
{
    let command = s.command;
    crate::command::valid(port, 2, command)
}
