// The commands of a lent script, one after the other.
#![tactic(auto, using(bus::proofs::Laws::picked, script::proofs::Laws::commands_past, crate::proofs::Laws::transfer_at, crate::proofs::Laws::told_end, crate::proofs::Laws::told_twice, script::proofs::Laws::on_next, crate::proofs::Laws::after_other, crate::proofs::Laws::after_read_lem, crate::proofs::Left::next_behind, bus::proofs::Laws::picked_first, bus::proofs::Laws::picked_second), unfolding(crate::specs::Transfer::is_read, crate::specs::Transfer::took_by, hardware::specs::Prog::pick, script::specs::Script::step_at, crate::specs::Transfer::transfer_next, crate::specs::Transfer::asking, crate::specs::Transfer::access_transfer, crate::specs::Transfer::rest_transfer, bus::specs::Command::job_next, crate::specs::Transfer::valid_transfer_next, crate::specs::Transfer::valid_transfer, crate::specs::Left::transfer_left, crate::specs::Left::transfer_next_left, crate::specs::Transfer::transfer, hardware::specs::Prog::erase, bus::specs::Command::valid_job_next, bus::specs::Left::job_next_left, bus::specs::Bus::or_held, hardware::specs::Registers::reply))]

ghost use Rattle.std.specs.Prelude.{ℕ, ◌+◌, ◌<◌, ◌≤◌, ◌≡◌, true, length, drop, List};
ghost use Rattle.hardware.specs.Asked.{fits, InType};
ghost use Rattle.hardware.specs.Prog.{erase};
ghost use Rattle.hardware.specs.Promise.{Bounds};
ghost use Rattle.bus.specs.Command.{job_next, valid_job_next};
ghost use Rattle.bus.specs.Steps.{CLEAR_STEPS, JOB_STEPS};
ghost use Rattle.bus.specs.Left.{job_next_left};
ghost use Rattle.script.specs.Script.{commands, command_at, on_command};
ghost use Rattle.transfer.specs.Transfer.{Mode, is_read, took_by, tells, transfer, ran_on, access_transfer, heard_transfer, rest_transfer, transfer_next, valid_transfer, valid_transfer_next};
ghost use Rattle.transfer.specs.Left.{behind, transfer_left, transfer_next_left};

use bus::command::Command;
use bus::job::{Job, JobNext};
use bus::{Layout, Taken};
use hardware::{Access, Answer, Next, R};

// at: the position of the command in the script.
#[derive(Clone, Copy)]
pub struct Transfer {
    pub at: usize,
    pub taken: Taken,
    pub job: Job,
}

// What follows an answer. Read: with the byte that is handed out.
#[derive(Clone, Copy)]
pub enum Handing<S, T> {
    Going(S),
    Read(u8, S),
    End(T),
}

// The end: the control word, the bytes read and how the script ended.
pub type TransferNext = Handing<Transfer, (u32, Taken, R<()>)>;

fn is_read(c: Command) -> bool
    ensures { result ≡ is_read c }
{
    match c {
        Command::Start => false,
        Command::Send(_) => false,
        Command::Read(_) => true,
        Command::Stop => false,
        Command::Free(_) => false,
    }
}

fn took(c: Command, t: Taken, b: u8) -> Taken
    ensures { result ≡ took_by c t b }
{
    if is_read(c) {
        return Taken {
            high: t.low,
            low: t.last,
            last: b,
        };
    }
    t
}

// What is left of a script from a position on.
pub fn from(l: Layout, script: &[u8], at: usize, taken: Taken, ctl: u32) -> TransferNext
    ensures { Bounds ((m : Mode) (device : ℕ) → transfer_next m l device script.now result ≡ erase (transfer m l device (commands (drop at script.now)) taken ctl)) ((at < length script.now → on_command script.now at ≡ true) → valid_transfer_next l script.now result ≡ true) ((n : ℕ) → CLEAR_STEPS ≤ n → (at < length script.now → JOB_STEPS + behind at ≤ n) → transfer_next_left l result ≤ n) }
{
    if at < script.len() {
        let here = script::reader::at(script, at);
        let c = here.command;
        return Handing::Going(Transfer {
            at,
            taken,
            job: bus::job::open(l, c, ctl),
        });
    }
    Handing::End((ctl, taken, Ok(())))
}

// A byte was read; it is handed out with the access that follows.
fn told(b: u8, n: TransferNext) -> TransferNext
    ensures { Bounds ((m : Mode) (l : Layout) (device : ℕ) (s : List ℕ) → transfer_next m l device s result ≡ tells m b (transfer_next m l device s n)) ((l : Layout) (s : List ℕ) → valid_transfer_next l s n ≡ true → valid_transfer_next l s result ≡ true) ((l : Layout) → transfer_next_left l result ≡ transfer_next_left l n) }
{
    match n {
        Handing::Going(t) => Handing::Read(b, t),
        Handing::Read(_, t) => Handing::Read(b, t),
        Handing::End((ctl, taken, o)) => Handing::End((ctl, taken, o)),
    }
}

// The command at a position is done, with the byte that was heard.
fn after(l: Layout, script: &[u8], at: usize, taken: Taken, b: u8, ctl: u32) -> TransferNext
    ensures { Bounds ((m : Mode) (device : ℕ) → transfer_next m l device script.now result ≡ erase (ran_on m l device script.now at taken b ctl)) (on_command script.now at ≡ true → valid_transfer_next l script.now result ≡ true) (length script.now ≤ 64 → transfer_next_left l result ≤ behind at) }
{
    let here = script::reader::at(script, at);
    let c = here.command;
    let next = here.next;
    let n = from(l, script, next, took(c, taken, b), ctl);
    if is_read(c) {
        return told(b, n);
    }
    n
}

fn jobbed(l: Layout, device: u8, script: &[u8], at: usize, taken: Taken, n: JobNext) -> TransferNext
    ensures { Bounds ((m : Mode) → transfer_next m l device script.now result ≡ job_next l device (command_at script.now at) n (ran_on m l device script.now at taken)) (on_command script.now at ≡ true → valid_job_next l (command_at script.now at) n ≡ true → valid_transfer_next l script.now result ≡ true) (length script.now ≤ 64 → transfer_next_left l result ≤ job_next_left l n + behind at) }
{
    match n {
        Next::Going(job) => Handing::Going(Transfer { at, taken, job }),
        Next::End((ctl, o)) => match o {
            Ok(b) => after(l, script, at, taken, b, ctl),
            Err(e) => Handing::End((ctl, taken, Err(e))),
        },
    }
}

pub fn access(l: Layout, s: Transfer) -> Access
    ensures { result ≡ access_transfer l s }
{
    let job = s.job;
    bus::job::access(l, job)
}

pub fn heard(s: Transfer) -> u8
    ensures { result ≡ heard_transfer s }
{
    let job = s.job;
    bus::job::heard(job)
}

pub fn step(l: Layout, device: u8, script: &[u8], s: Transfer, a: Answer) -> TransferNext
    ensures { Bounds ((m : Mode) → transfer_next m l device script.now result ≡ erase (rest_transfer m l device script.now s a)) (valid_transfer l script.now s ≡ true → valid_transfer_next l script.now result ≡ true) (length script.now ≤ 64 → fits (access_transfer l s) a ≡ true → InType a → transfer_next_left l result < transfer_left l s) }
{
    let at = s.at;
    let taken = s.taken;
    let job = s.job;
    let here = script::reader::at(script, at);
    let c = here.command;
    jobbed(
        l,
        device,
        script,
        at,
        taken,
        bus::job::step(l, device, c, job, a),
    )
}

pub fn valid(l: Layout, script: &[u8], s: Transfer) -> bool
    ensures { result ≡ valid_transfer l script.now s }
{
    let at = s.at;
    let job = s.job;
    if script::cursor::on_command(script, at) {
        let here = script::reader::at(script, at);
        let c = here.command;
        return bus::job::valid(l, c, job);
    }
    false
}
