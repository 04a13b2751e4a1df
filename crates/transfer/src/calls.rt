// The stepwise call of a script: one attempt, without lock or handshake. The script is lent at the opening and at every
// step.
#![tactic(auto, using(bus::proofs::Laws::picked, hardware::proofs::Laws::held_on, crate::proofs::Laws::heard_tally, crate::proofs::Laws::hears_one, crate::proofs::Laws::told_tally, hardware::proofs::Laws::held_blank, hardware::proofs::Laws::opened_valid, crate::proofs::Laws::judged_accepted, crate::proofs::Laws::judged_no, crate::proofs::Laws::judged_yes, crate::proofs::Laws::script_begins, hardware::proofs::Laws::admits_fits, hardware::proofs::Laws::admits_typed, hardware::proofs::Laws::admits_no, hardware::proofs::Laws::admits_valid, hardware::proofs::Laws::admits_yes, hardware::proofs::Laws::both_true, crate::proofs::Laws::script_rest, crate::proofs::Left::attempt_some), unfolding(crate::specs::Calls::said_script, hardware::specs::Registers::reply, hardware::specs::Prog::tally, crate::specs::Calls::dropped, crate::specs::Calls::without, crate::specs::Calls::stands_script, crate::specs::Left::script_left, crate::specs::Calls::rest_script, crate::specs::Attempt::attempt_next, crate::specs::Attempt::awaiting, crate::specs::Attempt::valid_attempt_next, crate::specs::Calls::valid_script, crate::specs::Left::call_left, crate::specs::Left::attempt_next_left, hardware::specs::Prog::followed, hardware::specs::Prog::erase, crate::specs::Calls::open_script, hardware::specs::Asked::and_then, hardware::specs::Asked::opened, crate::specs::Attempt::valid_attempt, crate::specs::Left::attempt_left, hardware::specs::Marks::valid_held, hardware::specs::Prog::pick, crate::specs::Calls::stepped_script))]

ghost use Rattle.std.specs.Prelude.{ℕ, ◌+◌, ◌-◌, ◌<◌, ◌≤◌, ◌≡◌, true, List, length, Some};
ghost use Rattle.hardware.specs.Asked.{yes};
ghost use Rattle.hardware.specs.Marks.{hears, meter_on, valid_held};
ghost use Rattle.hardware.specs.Promise.{Bounds};
ghost use Rattle.hardware.specs.Prog.{tally, followed};
ghost use Rattle.bus.specs.Layout.{layout_of};
ghost use Rattle.script.specs.Script.{device, on_command};
ghost use Rattle.transfer.specs.declared.attempt.Sequence.TheVariants.{Pulses};
ghost use Rattle.transfer.specs.Transfer.{handing};
ghost use Rattle.transfer.specs.Attempt.{heard_attempt, attempt_next, valid_attempt_next};
ghost use Rattle.transfer.specs.Calls.{dropped, open_script, valid_script, stepped_script, step_script, said_script, stands_script};
ghost use Rattle.transfer.specs.Left.{COMMANDS_STEPS, attempt_next_left, call_left, script_left};
ghost use Rattle.hardware.specs.Registers.{reply};

use crate::attempt::{Attempt, AttemptNext, Sequence};
use crate::transfer::Handing;
use bus::Taken;
use hardware::{Access, Answer, BEGUN, Meter, Port, R, Refusal};

// The state of a call, none once it is over.
pub type ScriptCall = Option<(Port, Meter, Attempt)>;

// Read: a byte that was read is handed out with the next access. End: the result, and what was metered.
#[derive(Clone, Copy)]
pub enum Said {
    Ask(Access, ScriptCall),
    Read(u8, Access, ScriptCall),
    End(R<()>, Meter),
}

pub type ScriptTold = Result<Said, Refusal>;

// The end of a script, the meter beside its result: what was metered before a failure counts.
fn ended(g: R<Taken>, m: Meter) -> ScriptTold
    ensures { Bounds ((s : List ℕ) → said_script result s ≡ yes (tally m (dropped (reply g)))) ((s : List ℕ) → stands_script result s) (script_left result ≡ 0) }
{
    match g {
        Ok(_) => Ok(Said::End(Ok(()), m)),
        Err(e) => Ok(Said::End(Err(e), m)),
    }
}

// The state that awaits the next access, with what is metered before it.
fn going(port: Port, m: Meter, t: Attempt) -> ScriptCall
    ensures { result ≡ Some (port, (meter_on (hears (heard_attempt t)) m), t) }
{
    let k = hardware::hears(crate::attempt::heard(t));
    Some((port, hardware::meter_on(k, m), t))
}

fn told(port: Port, m: Meter, n: AttemptNext) -> ScriptTold
    ensures { Bounds ((s : List ℕ) → m.transfers ≡ 1 → said_script result s ≡ yes (tally m (followed (attempt_next handing Pulses (layout_of port.family) (device s) s n) dropped))) ((s : List ℕ) → valid_held port m ≡ true → m.transfers ≡ 1 → valid_attempt_next (layout_of port.family) s n ≡ true → stands_script result s) (script_left result ≤ attempt_next_left (layout_of port.family) n) }
{
    let family = port.family;
    let l = bus::layout_of(family);
    match n {
        Handing::Going(t) => Ok(Said::Ask(crate::attempt::access(l, t), going(port, m, t))),
        Handing::Read(b, t) => {
            Ok(Said::Read(b, crate::attempt::access(l, t), going(port, m, t)))
        }
        Handing::End(g) => ended(g, m),
    }
}

pub fn script_open(family: u32, device: u16, lan: u32, script: &[u8]) -> ScriptTold
    ensures { Bounds (said_script result script.now ≡ open_script family device lan script.now) (stands_script result script.now) (script_left result ≤ 1 + COMMANDS_STEPS) }
{
    let p = hardware::open_port(family, device, lan)?;
    script::cursor::judge(script)?;
    told(p, BEGUN, Handing::Going(Attempt::New))
}

fn valid(port: Port, m: Meter, script: &[u8], t: Attempt) -> bool
    ensures { result ≡ valid_script port m script.now t }
{
    if hardware::valid_held(port, m) {
        if m.transfers == 1 {
            let family = port.family;
            return crate::attempt::valid(bus::layout_of(family), script, t);
        }
    }
    false
}

fn script_on(port: Port, m: Meter, t: Attempt, script: &[u8], a: Answer) -> ScriptTold
    ensures { Bounds (said_script result script.now ≡ stepped_script (Some (port, m, t)) script.now a) (on_command script.now 0 ≡ true → stands_script result script.now) (length script.now ≤ 64 → script_left result < call_left (Some (port, m, t))) }
{
    let family = port.family;
    let l = bus::layout_of(family);
    hardware::admit(valid(port, m, script, t), crate::attempt::access(l, t), a)?;
    let device = script::cursor::device(script);
    told(
        port,
        m,
        crate::attempt::step(Sequence::Pulses, l, device, script, t, a),
    )
}

#[tactic(auto, using(script::proofs::Laws::on_first, crate::proofs::Laws::judged_accepted, crate::proofs::Laws::judged_no, crate::proofs::Laws::judged_yes, crate::proofs::Left::accepted_length), unfolding(crate::specs::Calls::step_script, crate::specs::Calls::stepped_script, crate::specs::Calls::said_script, crate::specs::Calls::stands_script, crate::specs::Left::script_left))]
pub fn script_step(s: ScriptCall, script: &[u8], a: Answer) -> ScriptTold
    ensures { Bounds (said_script result script.now ≡ step_script s script.now a) (stands_script result script.now) (script_left result ≤ call_left s - 1) }
{
    script::cursor::judge(script)?;
    let (port, m, t) = s.ok_or(Refusal::Finished)?;
    script_on(port, m, t, script, a)
}
