// The stepwise call of `soft_rate_select`.
#![tactic(auto, using(bus::proofs::Laws::picked, hardware::proofs::Laws::held_on, hardware::proofs::Prog::asked_on, hardware::proofs::Laws::held_blank, hardware::proofs::Prog::tally_erase, crate::proofs::Laws::first_placed, hardware::proofs::Laws::opened_valid, i2c::proofs::Moves::went_map, crate::proofs::Moves::rate_on, bus::proofs::Laws::picked_first, bus::proofs::Laws::picked_second, hardware::proofs::Laws::admits_no, hardware::proofs::Laws::admits_valid, hardware::proofs::Laws::admits_yes, crate::proofs::Laws::valid_below), unfolding(crate::specs::Calls::said_rate, crate::specs::Walk::rate_next, crate::specs::Calls::stands_rate, crate::specs::Calls::valid_call, crate::specs::Walk::valid_rate_next, hardware::specs::Prog::tally, crate::specs::Spot::valid_spot, crate::specs::Spot::cap_at, crate::specs::Spot::before, crate::specs::Spot::up_to, crate::specs::Spot::tries_at, hardware::specs::Prog::pick, crate::specs::Calls::open_rate, hardware::specs::Asked::and_then, hardware::specs::Asked::opened, i2c::specs::Direct::WentBy, crate::specs::Calls::step_rate))]

ghost use Rattle.std.specs.Prelude.{◌<◌, ◌≡◌, true, Ok, Some};
ghost use Rattle.hardware.specs.Asked.{yes, valid_port};
ghost use Rattle.hardware.specs.Promise.{Keeps};
ghost use Rattle.hardware.specs.Prog.{blank, tally};
ghost use Rattle.hardware.specs.Marks.{FULL, valid_held};
ghost use Rattle.i2c.specs.I2c.{standard};
ghost use Rattle.i2c.specs.Direct.{WentBy};
ghost use Rattle.sfp.specs.Rate.{soft_rate_select};
ghost use Rattle.softrate.specs.Walk.{rate_next, valid_rate_next};
ghost use Rattle.softrate.specs.Calls.{open_rate, valid_call, step_rate, said_rate, stands_rate};
ghost use Rattle.hardware.specs.declared.Told.TheVariants.{Ask};

use crate::spot::{Place, Spot};
use crate::walk::{Rate, RateNext};
use hardware::{Access, Answer, BLANK, Meter, Next, Port, R, Refusal, Told};
use i2c::handshake::Handshake;
use transfer::attempt::Sequence;

// The state of a call, none once it is over: with the clearing sequence of its transfers, whether 10G is selected, and the meter.
pub type RateCall = Option<(Port, Sequence, bool, Meter, Rate)>;

// The end: whether both bytes were written, and the meter.
pub type RateTold = Result<Told<RateCall, (R<bool>, Meter)>, Refusal>;

fn told(port: Port, q: Sequence, ten: bool, m: Meter, n: RateNext) -> RateTold
    ensures { Keeps (m.transfers < FULL → said_rate result ≡ yes (tally m (rate_next q port ten n))) (valid_held port m ≡ true → valid_rate_next port ten m n ≡ true → stands_rate result) }
{
    match n {
        Next::Going((k, s)) => Ok(Told::Ask(
            crate::walk::access(port, s),
            Some((port, q, ten, hardware::meter_on(k, m), s)),
        )),
        Next::End(f) => Ok(Told::End((f, m))),
    }
}

// The call from its first byte on.
fn opened(port: Port, q: Sequence, ten: bool) -> RateTold
    ensures { Keeps (said_rate result ≡ yes (tally blank (soft_rate_select q port ten))) (valid_port port ≡ true → stands_rate result) }
{
    let first = Spot {
        second: false,
        ok: true,
        place: Place::Reading,
    };
    told(port, q, ten, BLANK, crate::walk::begin(port, q, ten, first))
}

// Questions 1 and 2. ten: 10G is selected, else 1G. sequence: the clearing after a failed attempt, by its name.
pub fn soft_rate_select_open_with(
    family: u32,
    device: u16,
    lan: u32,
    ten: bool,
    sequence: Sequence,
) -> RateTold
    ensures { Keeps (said_rate result ≡ open_rate sequence family device lan ten) (stands_rate result) }
{
    let p = hardware::open_port(family, device, lan)?;
    opened(p, sequence, ten)
}

// With the default sequence.
pub fn soft_rate_select_open(family: u32, device: u16, lan: u32, ten: bool) -> RateTold
    ensures { Keeps (said_rate result ≡ open_rate standard family device lan ten) (stands_rate result) }
{
    soft_rate_select_open_with(family, device, lan, ten, i2c::standard())
}

fn valid(port: Port, ten: bool, m: Meter, t: Rate) -> bool
    ensures { result ≡ valid_call port ten m t }
{
    if hardware::valid_held(port, m) {
        return crate::walk::valid(port, ten, m, t);
    }
    false
}

// A step inside a command.
fn direct(port: Port, ten: bool, m: Meter, t: Rate, a: Answer) -> Option<(Access, Handshake)>
    ensures { WentBy (λ x g. (q : Sequence) → Keeps (said_rate (Ok (Ask x (Some (port, q, ten, m, (record { spot = t.spot; request = g }))))) ≡ step_rate (Some (port, q, ten, m, t)) a) (stands_rate (Ok (Ask x (Some (port, q, ten, m, (record { spot = t.spot; request = g }))))))) result }
{
    let spot = t.spot;
    let place = spot.place;
    let h = t.request;
    if hardware::valid_held(port, m) {
        if crate::spot::valid(spot) {
            return i2c::direct::request(
                port,
                crate::spot::request(ten, spot),
                crate::spot::tries(port, place) as u32,
                crate::spot::cap(port, spot),
                m,
                h,
                a,
            );
        }
    }
    None
}

// Questions 10 to 12, one after the other.
pub fn plain(s: RateCall, a: Answer) -> RateTold
    ensures { Keeps (said_rate result ≡ step_rate s a) (stands_rate result) }
{
    let (port, q, ten, m, t) = s.ok_or(Refusal::Finished)?;
    hardware::admit(valid(port, ten, m, t), crate::walk::access(port, t), a)?;
    told(port, q, ten, m, crate::walk::step(port, q, ten, t, a))
}

// The same: the direct way where there is one, else the plain one.
#[tactic(auto, unfolding(i2c::specs::Direct::WentBy))]
pub fn soft_rate_select_step(s: RateCall, a: Answer) -> RateTold
    ensures { Keeps (said_rate result ≡ step_rate s a) (stands_rate result) }
{
    if let Some((port, q, ten, m, t)) = s {
        if let Some((x, g)) = direct(port, ten, m, t, a) {
            let spot = t.spot;
            return Ok(Told::Ask(x, Some((port, q, ten, m, Rate { spot, request: g }))));
        }
    }
    let n = plain(s, a);
    n
}
