// The commands of a lent script, by position, and the questions 5 to 7 about a whole script.
#![tactic(auto, using(crate::proofs::Laws::sending_here, crate::proofs::Laws::sending_short, crate::proofs::Laws::first_at, crate::proofs::Laws::sending_at, crate::proofs::Laws::width_one, crate::proofs::Laws::width_two, crate::proofs::Laws::places_at, crate::proofs::Laws::places_past, crate::proofs::Laws::free_wrong, crate::proofs::Laws::commands_second), unfolding(crate::specs::Script::alone, hardware::specs::Prog::pick, crate::specs::Script::single, crate::specs::Script::command_at, crate::specs::Script::head_command, crate::specs::Script::head_sends, crate::specs::Script::next_at, crate::specs::Script::head_width, crate::specs::Script::head_known, crate::specs::Script::follows, crate::specs::Script::leads, crate::specs::Script::at_end, crate::specs::Script::length_fits, crate::specs::Script::judged, crate::specs::Script::judged_as, crate::specs::Script::operand, crate::specs::Script::device, crate::specs::Script::first_address))]

ghost use Rattle.std.specs.Prelude.{◌≡◌, ℕ, List, length, drop};
ghost use Rattle.std.specs.Iterator.{YieldsFirst, item_count};
ghost use Rattle.script.specs.Script.{places, alone, single, head_sends, command_at, next_at, head_known, complete, follows, at_end, is_script, length_fits, judged, judged_as, on_command, operand, device};

use bus::command::Command;
use hardware::Refusal;

// Where a walk over the commands stands. Begin: a phrase has to come. Address: its address. Sending, Reading: after an
// even or an odd address. Between: after the last read. End: after the stop. Wrong: no script goes on so.
#[derive(Clone, Copy, PartialEq, Eq)]
pub enum Where {
    Begin,
    Address,
    Sending,
    Reading,
    Between,
    End,
    Wrong,
}

fn alone(b: u8) -> Command
    ensures { result ≡ alone b }
{
    match b {
        0x10 => Command::Start,
        0x30 => Command::Read(false),
        0x31 => Command::Read(true),
        _ => Command::Stop,
    }
}

fn single(b: u8) -> bool
    ensures { result ≡ single b }
{
    match b {
        0x10 => true,
        0x30 => true,
        0x31 => true,
        0x40 => true,
        _ => false,
    }
}

// Whether a send and its operand stand at the position.
fn sending(script: &[u8], at: usize) -> bool
    ensures { result ≡ head_sends (drop at script.now) }
{
    // Asked of what is left: by `at < script.len().saturating_sub(1)` the compiler makes the width a sum and no branch, and a
    // walk then waits for each byte before it has the next position.
    if 1 < script.len().saturating_sub(at) {
        return script[at] == 0x20;
    }
    false
}

// The command at a position.
pub fn command(script: &[u8], at: usize) -> Command
    ensures { result ≡ command_at script.now at }
{
    if sending(script, at) {
        return Command::Send(script[at + 1]);
    }
    if at < script.len() {
        return alone(script[at]);
    }
    Command::Stop
}

// The position behind the command at a position.
pub fn next(script: &[u8], at: usize) -> usize
    ensures { result ≡ next_at script.now at }
{
    if sending(script, at) {
        return at + 2;
    }
    if at < script.len() {
        return at + 1;
    }
    at
}

// Whether the command at a position is known and complete.
fn known(script: &[u8], at: usize) -> bool
    ensures { result ≡ head_known (drop at script.now) }
{
    if sending(script, at) {
        return true;
    }
    if at < script.len() {
        return single(script[at]);
    }
    false
}

// The positions of the commands from one on, in their order.
#[derive(Drop)]
struct Places<'a> {
    script: &'a [u8],
    at: usize,
}

impl<'a> Iterator for Places<'a> {
    type Item = usize;

    ghost next_gives = { YieldsFirst (λ s. places s.script.now s.at) };

    ghost remaining = { item_count (λ s. places s.script.now s.at) };

    fn next(&mut self) -> Option<usize> {
        let at = self.at;
        // Asked first: what looks at the command then need not ask again.
        if sending(self.script, at) {
            self.at = at + 2;
            return Some(at);
        }
        if at < self.script.len() {
            self.at = at + 1;
            return Some(at);
        }
        None
    }
}

fn places_of(script: &[u8]) -> Places<'_>
    ensures { places result.script.now result.at ≡ places script.now 0 }
{
    Places { script, at: 0 }
}

// Question 6.
fn complete(script: &[u8]) -> bool
    ensures { result ≡ complete script.now }
{
    places_of(script).all(|at| known(script, at))
}

fn started(w: Where) -> Where
    ensures { result ≡ follows w Command.Start }
{
    match w {
        Where::Begin => Where::Address,
        Where::Address => Where::Wrong,
        Where::Sending => Where::Address,
        Where::Reading => Where::Wrong,
        Where::Between => Where::Address,
        Where::End => Where::Wrong,
        Where::Wrong => Where::Wrong,
    }
}

fn sent(w: Where, a: u8) -> Where
    ensures { result ≡ follows w (Command.Send a) }
{
    match w {
        Where::Begin => Where::Wrong,
        Where::Address => {
            if a % 2 == 0 {
                return Where::Sending;
            }
            Where::Reading
        }
        Where::Sending => Where::Sending,
        Where::Reading => Where::Wrong,
        Where::Between => Where::Wrong,
        Where::End => Where::Wrong,
        Where::Wrong => Where::Wrong,
    }
}

fn taken(w: Where, level: bool) -> Where
    ensures { result ≡ follows w (Command.Read level) }
{
    match w {
        Where::Begin => Where::Wrong,
        Where::Address => Where::Wrong,
        Where::Sending => Where::Wrong,
        Where::Reading => {
            if level {
                return Where::Between;
            }
            Where::Reading
        }
        Where::Between => Where::Wrong,
        Where::End => Where::Wrong,
        Where::Wrong => Where::Wrong,
    }
}

fn stopped(w: Where) -> Where
    ensures { result ≡ follows w Command.Stop }
{
    match w {
        Where::Begin => Where::Wrong,
        Where::Address => Where::Wrong,
        Where::Sending => Where::End,
        Where::Reading => Where::Wrong,
        Where::Between => Where::End,
        Where::End => Where::Wrong,
        Where::Wrong => Where::Wrong,
    }
}

fn follows(w: Where, c: Command) -> Where
    ensures { result ≡ follows w c }
{
    match c {
        Command::Start => started(w),
        Command::Send(a) => sent(w, a),
        Command::Read(level) => taken(w, level),
        Command::Stop => stopped(w),
        Command::Free(_) => Where::Wrong,
    }
}

fn closed(w: Where) -> bool
    ensures { result ≡ at_end w }
{
    w == Where::End
}

// Question 7.
fn is_script(script: &[u8]) -> bool
    ensures { result ≡ is_script script.now }
{
    closed(places_of(script).fold(Where::Begin, |w, at| follows(w, command(script, at))))
}

// Question 5.
fn length_fits(n: usize) -> bool
    ensures { (s : List ℕ) → length s ≡ n → result ≡ length_fits s }
{
    if 1 <= n {
        return n <= 64;
    }
    false
}

// Questions 5, 6 and 7, in this order.
pub fn judge(script: &[u8]) -> Result<(), Refusal>
    ensures { judged_as result ≡ judged script.now }
{
    if length_fits(script.len()) {
        if complete(script) {
            if is_script(script) {
                return Ok(());
            }
            return Err(Refusal::Script);
        }
        return Err(Refusal::Command);
    }
    Err(Refusal::ScriptLength)
}

// Whether the position is that of a command.
pub fn on_command(script: &[u8], at: usize) -> bool
    ensures { result ≡ on_command script.now at }
{
    places_of(script).any(|place| place == at)
}

fn operand(c: Command) -> u8
    ensures { result ≡ operand c }
{
    match c {
        Command::Start => 0,
        Command::Send(b) => b,
        Command::Read(_) => 0,
        Command::Stop => 0,
        Command::Free(_) => 0,
    }
}

// The first address, which a script sends by its second command, with the lowest bit cleared.
pub fn device(script: &[u8]) -> u8
    ensures { result ≡ device script.now }
{
    let address = operand(command(script, next(script, 0)));
    address - address % 2
}
