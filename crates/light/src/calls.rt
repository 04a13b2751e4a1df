// The stepwise call of light and temperature.
#![tactic(auto, using(bus::proofs::Laws::picked, hardware::proofs::Laws::held_on, hardware::proofs::Prog::asked_on, hardware::proofs::Laws::held_blank, hardware::proofs::Prog::tally_erase, crate::proofs::Laws::cap_first, hardware::proofs::Laws::opened_valid, i2c::proofs::Moves::went_map, crate::proofs::Moves::light_on_lem, bus::proofs::Laws::picked_first, bus::proofs::Laws::picked_second, hardware::proofs::Laws::admits_no, hardware::proofs::Laws::admits_valid, hardware::proofs::Laws::admits_yes, crate::proofs::Laws::valid_below), unfolding(crate::specs::Calls::said_light, crate::specs::Walk::light_next, crate::specs::Calls::stands_light, crate::specs::Calls::valid_call, crate::specs::Walk::valid_light_next, hardware::specs::Prog::tally, crate::specs::Calls::open_on, hardware::specs::Asked::question, crate::specs::Light::light, crate::specs::Calls::open_light, hardware::specs::Asked::and_then, hardware::specs::Asked::opened, hardware::specs::Prog::pick, i2c::specs::Direct::WentBy, crate::specs::Calls::step_light))]

ghost use Rattle.std.specs.Prelude.{◌<◌, ◌≡◌, true, Ok, Some};
ghost use Rattle.hardware.specs.Asked.{yes, valid_port};
ghost use Rattle.hardware.specs.Marks.{FULL, valid_held};
ghost use Rattle.hardware.specs.Promise.{Keeps};
ghost use Rattle.hardware.specs.Prog.{tally};
ghost use Rattle.i2c.specs.I2c.{standard};
ghost use Rattle.i2c.specs.Direct.{WentBy};
ghost use Rattle.light.specs.Walk.{light_next, valid_light_next};
ghost use Rattle.light.specs.Calls.{open_on, open_light, valid_call, step_light, said_light, stands_light};
ghost use Rattle.hardware.specs.declared.Told.TheVariants.{Ask};

use crate::sensed::{FRESH, Measured};
use crate::walk::{Light, LightNext};
use hardware::{Access, Answer, BLANK, Meter, Next, Port, Refusal, Told};
use i2c::handshake::Handshake;
use transfer::attempt::Sequence;

// The state of a call, none once it is over: with the clearing sequence of its transfers, the attempts for each byte, and the meter.
pub type LightCall = Option<(Port, Sequence, u8, Meter, Light)>;

// The end: what the module says, and the meter.
pub type LightTold = Result<Told<LightCall, (Measured, Meter)>, Refusal>;

fn told(port: Port, q: Sequence, tries: u8, m: Meter, n: LightNext) -> LightTold
    ensures { Keeps (m.transfers < FULL → said_light result ≡ yes (tally m (light_next q port tries n))) (valid_held port m ≡ true → valid_light_next port tries m n ≡ true → stands_light result) }
{
    match n {
        Next::Going((k, s)) => Ok(Told::Ask(
            crate::walk::access(port, s),
            Some((port, q, tries, hardware::meter_on(k, m), s)),
        )),
        Next::End(r) => Ok(Told::End((r, m))),
    }
}

// Question 4.
fn opened(port: Port, q: Sequence, attempts: u32) -> LightTold
    ensures { Keeps (said_light result ≡ open_on q attempts port) (valid_port port ≡ true → stands_light result) }
{
    if 255 < attempts {
        return Err(Refusal::Attempts);
    }
    let tries = attempts as u8;
    told(
        port,
        q,
        tries,
        BLANK,
        crate::walk::begin(port, q, tries, 30, FRESH),
    )
}

// Questions 1, 2 and 4. attempts: of each byte. sequence: the clearing after a failed attempt, by its name.
pub fn light_open_with(
    family: u32,
    device: u16,
    lan: u32,
    attempts: u32,
    sequence: Sequence,
) -> LightTold
    ensures { Keeps (said_light result ≡ open_light sequence family device lan attempts) (stands_light result) }
{
    let p = hardware::open_port(family, device, lan)?;
    opened(p, sequence, attempts)
}

// With the default sequence.
pub fn light_open(family: u32, device: u16, lan: u32, attempts: u32) -> LightTold
    ensures { Keeps (said_light result ≡ open_light standard family device lan attempts) (stands_light result) }
{
    light_open_with(family, device, lan, attempts, i2c::standard())
}

fn valid(port: Port, tries: u8, m: Meter, t: Light) -> bool
    ensures { result ≡ valid_call port tries m t }
{
    if hardware::valid_held(port, m) {
        return crate::walk::valid(port, tries, m, t);
    }
    false
}

// A step inside a command.
fn direct(port: Port, tries: u8, m: Meter, t: Light, a: Answer) -> Option<(Access, Handshake)>
    ensures { WentBy (λ x g. (q : Sequence) → Keeps (said_light (Ok (Ask x (Some (port, q, tries, m, (record { left = t.left; sensed = t.sensed; request = g }))))) ≡ step_light (Some (port, q, tries, m, t)) a) (stands_light (Ok (Ask x (Some (port, q, tries, m, (record { left = t.left; sensed = t.sensed; request = g }))))))) result }
{
    let left = t.left;
    let h = t.request;
    if hardware::valid_held(port, m) {
        if left <= 30 {
            return i2c::direct::request(
                port,
                crate::walk::request(left),
                tries as u32,
                crate::walk::cap(tries, left),
                m,
                h,
                a,
            );
        }
    }
    None
}

// Questions 10 to 12, one after the other.
pub fn plain(s: LightCall, a: Answer) -> LightTold
    ensures { Keeps (said_light result ≡ step_light s a) (stands_light result) }
{
    let (port, q, tries, m, t) = s.ok_or(Refusal::Finished)?;
    hardware::admit(valid(port, tries, m, t), crate::walk::access(port, t), a)?;
    told(port, q, tries, m, crate::walk::step(port, q, tries, t, a))
}

// The same: the direct way where there is one, else the plain one.
#[tactic(auto, unfolding(i2c::specs::Direct::WentBy))]
pub fn light_step(s: LightCall, a: Answer) -> LightTold
    ensures { Keeps (said_light result ≡ step_light s a) (stands_light result) }
{
    if let Some((port, q, tries, m, t)) = s {
        if let Some((x, g)) = direct(port, tries, m, t, a) {
            let sensed = t.sensed;
            return Ok(Told::Ask(
                x,
                Some((
                    port,
                    q,
                    tries,
                    m,
                    Light {
                        left: t.left,
                        request: g,
                        sensed,
                    },
                )),
            ));
        }
    }
    let n = plain(s, a);
    n
}
