// The cursor over the script that a caller lends: a reader holds the slice and the position of a command.
ghost use Rattle.std.specs.Prelude.{◌≡◌};
ghost use Rattle.script.specs.Script.{command_at, next_at, step_at};

use crate::cursor;
use bus::command::Command;

#[derive(Clone, Copy)]
pub struct Reader<'a> {
    pub script: &'a [u8],
    pub at: usize,
}

// A command, and the position behind it.
#[derive(Clone, Copy)]
pub struct Step {
    pub command: Command,
    pub next: usize,
}

pub fn open<'a>(script: &'a [u8], at: usize) -> Reader<'a>
    ensures { (result.script ≡ script.entry) × (result.at ≡ at) }
{
    Reader { script, at }
}

// The command that the reader stands on.
pub fn current<'a>(r: Reader<'a>) -> Command
    ensures { result ≡ command_at r.entry.script.now r.entry.at }
{
    cursor::command(r.script, r.at)
}

// The reader behind that command.
pub fn advance<'a>(r: Reader<'a>) -> Reader<'a>
    ensures { (result.script ≡ r.entry.script) × (result.at ≡ next_at r.entry.script.now r.entry.at) }
{
    let next = cursor::next(r.script, r.at);
    Reader {
        script: r.script,
        at: next,
    }
}

// Both, for callers that hold no reader.
pub fn at(script: &[u8], at: usize) -> Step
    ensures { result ≡ step_at script.now at }
{
    let here = open(script, at);
    let command = current(here);
    let behind = advance(here);
    let next = behind.at;
    Step { command, next }
}
