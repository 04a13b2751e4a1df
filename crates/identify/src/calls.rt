// The stepwise calls of `identify` and `identify_qsfp`.
#![tactic(auto, using(bus::proofs::Laws::picked, hardware::proofs::Laws::held_on, hardware::proofs::Prog::asked_on, hardware::proofs::Laws::held_blank, hardware::proofs::Prog::tally_erase, hardware::proofs::Laws::opened_valid, i2c::proofs::Moves::went_map, crate::proofs::Moves::identify_on, bus::proofs::Laws::picked_first, bus::proofs::Laws::picked_second, hardware::proofs::Laws::admits_no, hardware::proofs::Laws::admits_valid, hardware::proofs::Laws::admits_yes, crate::proofs::Laws::valid_below), unfolding(crate::specs::Calls::said_identify, crate::specs::Walk::identify_next, crate::specs::Calls::stands_identify, crate::specs::Calls::valid_call, crate::specs::Walk::valid_identify_next, hardware::specs::Prog::tally, crate::specs::Calls::open_identify, sfp::specs::Identify::identify, sfp::specs::Identify::identifier_of, hardware::specs::Asked::and_then, hardware::specs::Asked::opened, crate::specs::Place::placed, crate::specs::Place::tries_at, crate::specs::Place::most, crate::specs::Place::on_at, crate::specs::Place::valid_place, crate::specs::Place::cap_at, hardware::specs::Prog::pick, crate::specs::Calls::open_qsfp, sfp::specs::Qsfp::identify_qsfp, i2c::specs::Direct::WentBy, crate::specs::Calls::step_identify))]

ghost use Rattle.std.specs.Prelude.{◌<◌, ◌≤◌, ◌≡◌, true, Ok, Some};
ghost use Rattle.hardware.specs.Asked.{yes, valid_port};
ghost use Rattle.hardware.specs.Promise.{Keeps};
ghost use Rattle.hardware.specs.Prog.{blank, tally};
ghost use Rattle.hardware.specs.Marks.{FULL, valid_held};
ghost use Rattle.i2c.specs.I2c.{standard};
ghost use Rattle.i2c.specs.Direct.{WentBy};
ghost use Rattle.identify.specs.Place.{tries_at, cap_at, valid_place, placed};
ghost use Rattle.identify.specs.Walk.{identify_next, valid_identify_next};
ghost use Rattle.identify.specs.Calls.{open_identify, open_qsfp, valid_call, step_identify, said_identify, stands_identify};
ghost use Rattle.hardware.specs.declared.Told.TheVariants.{Ask};

use crate::place::Place;
use crate::walk::{Identify, IdentifyNext};
use hardware::{Access, Answer, BLANK, Meter, Next, Port, R, Refusal, Told};
use i2c::handshake::Handshake;
use sfp::Identity;
use transfer::attempt::Sequence;

// The state of a call, none once it is over: with the clearing sequence of its transfers, and the meter.
pub type IdentifyCall = Option<(Port, Sequence, Meter, Identify)>;

// The end: the identity, and the meter.
pub type IdentifyTold = Result<Told<IdentifyCall, (R<Identity>, Meter)>, Refusal>;

fn told(port: Port, q: Sequence, m: Meter, n: IdentifyNext) -> IdentifyTold
    ensures { Keeps (m.transfers < FULL → said_identify result ≡ yes (tally m (identify_next q port n))) (valid_held port m ≡ true → valid_identify_next port m n ≡ true → stands_identify result) }
{
    match n {
        Next::Going((k, s)) => Ok(Told::Ask(
            crate::walk::access(port, s),
            Some((port, q, hardware::meter_on(k, m), s)),
        )),
        Next::End(f) => Ok(Told::End((f, m))),
    }
}

// The call from its first place on.
fn opened(port: Port, q: Sequence, p: Place) -> IdentifyTold
    ensures { Keeps (said_identify result ≡ yes (tally blank (placed q port p))) (valid_port port ≡ true → valid_place p ≡ true → tries_at port p ≤ cap_at port p → stands_identify result) }
{
    told(port, q, BLANK, crate::walk::begin(port, q, p))
}

// Questions 1 and 2. sequence: the clearing after a failed attempt, by its name.
pub fn identify_open_with(family: u32, device: u16, lan: u32, sequence: Sequence) -> IdentifyTold
    ensures { Keeps (said_identify result ≡ open_identify sequence family device lan) (stands_identify result) }
{
    let p = hardware::open_port(family, device, lan)?;
    opened(p, sequence, Place::Identifier(4))
}

pub fn identify_qsfp_open_with(
    family: u32,
    device: u16,
    lan: u32,
    sequence: Sequence,
) -> IdentifyTold
    ensures { Keeps (said_identify result ≡ open_qsfp sequence family device lan) (stands_identify result) }
{
    let p = hardware::open_port(family, device, lan)?;
    opened(p, sequence, Place::QsfpIdentifier)
}

// Both with the default sequence.
pub fn identify_open(family: u32, device: u16, lan: u32) -> IdentifyTold
    ensures { Keeps (said_identify result ≡ open_identify standard family device lan) (stands_identify result) }
{
    identify_open_with(family, device, lan, i2c::standard())
}

pub fn identify_qsfp_open(family: u32, device: u16, lan: u32) -> IdentifyTold
    ensures { Keeps (said_identify result ≡ open_qsfp standard family device lan) (stands_identify result) }
{
    identify_qsfp_open_with(family, device, lan, i2c::standard())
}

fn valid(port: Port, m: Meter, t: Identify) -> bool
    ensures { result ≡ valid_call port m t }
{
    if hardware::valid_held(port, m) {
        return crate::walk::valid(port, m, t);
    }
    false
}

// A step inside a command.
fn direct(port: Port, m: Meter, t: Identify, a: Answer) -> Option<(Access, Handshake)>
    ensures { WentBy (λ x g. (q : Sequence) → Keeps (said_identify (Ok (Ask x (Some (port, q, m, (record { place = t.place; request = g }))))) ≡ step_identify (Some (port, q, m, t)) a) (stands_identify (Ok (Ask x (Some (port, q, m, (record { place = t.place; request = g }))))))) result }
{
    let p = t.place;
    let h = t.request;
    if hardware::valid_held(port, m) {
        if crate::place::valid(p) {
            return i2c::direct::request(
                port,
                crate::place::request(p),
                crate::place::tries(port, p) as u32,
                crate::place::cap(port, p),
                m,
                h,
                a,
            );
        }
    }
    None
}

// Questions 10 to 12, of both, one after the other.
pub fn plain(s: IdentifyCall, a: Answer) -> IdentifyTold
    ensures { Keeps (said_identify result ≡ step_identify s a) (stands_identify result) }
{
    let (port, q, m, t) = s.ok_or(Refusal::Finished)?;
    match hardware::admit(valid(port, m, t), crate::walk::access(port, t), a) {
        Ok(()) => told(port, q, m, crate::walk::step(port, q, t, a)),
        Err(n) => Err(n),
    }
}

// The same: the direct way where there is one, else the plain one.
#[tactic(auto, unfolding(i2c::specs::Direct::WentBy))]
pub fn identify_step(s: IdentifyCall, a: Answer) -> IdentifyTold
    ensures { Keeps (said_identify result ≡ step_identify s a) (stands_identify result) }
{
    if let Some((port, q, m, t)) = s {
        if let Some((x, g)) = direct(port, m, t, a) {
            let place = t.place;
            return Ok(Told::Ask(x, Some((port, q, m, Identify { place, request: g }))));
        }
    }
    let n = plain(s, a);
    n
}
