// The stepwise calls of `command` and `token`. A command's block is lent at its opening and at every step.
#![tactic(auto, using(hardware::proofs::Laws::opened_valid, hardware::proofs::Laws::admits_fits, hardware::proofs::Laws::admits_typed, hardware::proofs::Laws::admits_no, hardware::proofs::Laws::admits_valid, hardware::proofs::Laws::admits_yes, hardware::proofs::Laws::both_true, crate::proofs::Left::command_some, crate::proofs::Laws::block_fits_lem), unfolding(crate::specs::Calls::block_fits, hardware::specs::Prog::pick, crate::specs::Calls::said_command, crate::specs::Hostif::command_next, crate::specs::Calls::stands_command, crate::specs::Hostif::valid_command_next, crate::specs::Calls::valid_command_call, crate::specs::Left::command_next_left, crate::specs::Left::call_left, crate::specs::Left::told_left, crate::specs::Calls::open_command, hardware::specs::Lent::lent, hardware::specs::Asked::and_then, hardware::specs::Asked::question, hardware::specs::Asked::opened, crate::specs::Calls::stepped, crate::specs::Calls::step_command, crate::specs::Calls::said_token, crate::specs::Hostif::token_next, crate::specs::Calls::stands_token, crate::specs::Hostif::valid_token_next, crate::specs::Calls::valid_token_call, crate::specs::Calls::open_token, crate::specs::Calls::step_token))]

ghost use Rattle.std.specs.Prelude.{ℕ, ◌-◌, ◌<◌, ◌≤◌, ◌≡◌, true, List, length, Some};
ghost use Rattle.hardware.specs.Asked.{fits as fitsAnswer, yes, open_port, valid_port, InType};
ghost use Rattle.hardware.specs.Promise.{Keeps, Bounds};
ghost use Rattle.hardware.specs.Prog.{erase};
ghost use Rattle.hostif.specs.Hostif.{command_next, access_command, rest_command, valid_command, valid_command_next, token_next, valid_token_next};
ghost use Rattle.hostif.specs.Left.{opened_left, command_left, command_next_left, call_left, told_left};
ghost use Rattle.hostif.specs.Calls.{block_fits, open_command, valid_command_call, stepped, step_command, said_command, stands_command, open_token, valid_token_call, step_token, said_token, stands_token};
ghost use Rattle.hardware.specs.Lent.{goes, lent};

use crate::command::{Command, CommandNext};
use crate::token::{Token, TokenNext};
use hardware::{Answer, Next, Port, R, Refusal, Told};

// The state of a call, none once it is over.
pub type CommandCall = Option<(Port, Command)>;

pub type CommandTold = Result<Told<CommandCall, R<u8>>, Refusal>;

// The same. take: whether the token is asked for or given back.
pub type TokenCall = Option<(Port, bool, Token)>;

pub type TokenTold = Result<Told<TokenCall, R<bool>>, Refusal>;

fn fits(n: usize) -> bool
    ensures { (l : List ℕ) → length l ≡ n → result ≡ block_fits l }
{
    if 1 <= n {
        return n <= 64;
    }
    false
}

fn command_told(port: Port, block: &[u32], n: CommandNext) -> CommandTold
    ensures { Bounds (said_command result block.now ≡ goes (command_next port n block.now)) (valid_port port ≡ true → valid_command_next port (length block.now) n ≡ true → stands_command result block.now) (told_left result ≤ command_next_left port n) }
{
    match n {
        Next::Going(t) => Ok(Told::Ask(crate::command::access(port, t, block), Some((port, t)))),
        Next::End(b) => Ok(Told::End(b)),
    }
}

pub fn command_open(family: u32, device: u16, lan: u32, block: &[u32]) -> CommandTold
    ensures { Bounds (said_command result block.now ≡ open_command family device lan block.now) (stands_command result block.now) ((port : Port) → open_port family device lan ≡ yes port → told_left result ≤ opened_left port) }
{
    let p = hardware::open_port(family, device, lan)?;
    if fits(block.len()) {
        return command_told(p, block, crate::command::open(p));
    }
    Err(Refusal::Block)
}

fn go(port: Port, t: Command, block: &mut [u32], a: Answer) -> CommandTold
    requires { length block.old ≤ 64 }
    ensures { Bounds (said_command result block.new ≡ goes (erase (rest_command port t block.old a))) (valid_port port ≡ true → valid_command port (length block.old) t ≡ true → stands_command result block.new) (fitsAnswer (access_command port t block.old) a ≡ true → InType a → told_left result < command_left port t) }
{
    let n = crate::command::step(port, t, block, a);
    command_told(port, block, n)
}

fn valid_command(port: Port, n: usize, t: Command) -> bool
    ensures { result ≡ valid_command_call port n t }
{
    if hardware::valid_port(port) {
        return crate::command::valid(port, n, t);
    }
    false
}

fn command_on(port: Port, t: Command, block: &mut [u32], a: Answer) -> CommandTold
    requires { length block.old ≤ 64 }
    ensures { Bounds (said_command result block.new ≡ lent block.old (stepped (Some (port, t)) block.old a)) (stands_command result block.new) (told_left result < command_left port t) }
{
    let valid = valid_command(port, block.len(), t);
    hardware::admit(valid, crate::command::access(port, t, block), a)?;
    go(port, t, block, a)
}

pub fn command_step(s: CommandCall, block: &mut [u32], a: Answer) -> CommandTold
    ensures { Bounds (said_command result block.new ≡ step_command s block.old a) (stands_command result block.new) (told_left result ≤ call_left s - 1) }
{
    if fits(block.len()) {
        return match s {
            Some((port, t)) => command_on(port, t, block, a),
            None => Err(Refusal::Finished),
        };
    }
    Err(Refusal::Block)
}

fn token_told(port: Port, take: bool, n: TokenNext) -> TokenTold
    ensures { Keeps (said_token result ≡ yes (token_next port take n)) (valid_port port ≡ true → valid_token_next port n ≡ true → stands_token result) }
{
    match n {
        Next::Going(t) => Ok(Told::Ask(crate::token::access(port, t), Some((port, take, t)))),
        Next::End(b) => Ok(Told::End(b)),
    }
}

pub fn token_open(family: u32, device: u16, lan: u32, take: bool) -> TokenTold
    ensures { Keeps (said_token result ≡ open_token family device lan take) (stands_token result) }
{
    let p = hardware::open_port(family, device, lan)?;
    token_told(p, take, crate::token::open(p, take))
}

fn valid_token(port: Port, t: Token) -> bool
    ensures { result ≡ valid_token_call port t }
{
    if hardware::valid_port(port) {
        return crate::token::valid(port, t);
    }
    false
}

pub fn token_step(s: TokenCall, a: Answer) -> TokenTold
    ensures { Keeps (said_token result ≡ step_token s a) (stands_token result) }
{
    let (port, take, t) = s.ok_or(Refusal::Finished)?;
    hardware::admit(valid_token(port, t), crate::token::access(port, t), a)?;
    token_told(port, take, crate::token::step(port, take, t, a))
}
