// The registers that are not the machine's, where every lock and grant comes at once.
ghost use Rattle.std.specs.Prelude.{◌≡◌};
ghost use Rattle.bus.specs.Layout.{layout_of};
ghost use Rattle.bench.specs.AtOnce.{at_once_at, at_once, or_at_once};
ghost use Rattle.bench.specs.Mux.{has_mux};
ghost use Rattle.bench.specs.Register.{accessed};

use crate::register::BenchState;
use hardware::{Access, Answer, Port};

// SWSM, in which SWESMBI is set and SMBI clear; SDP1 of ESDP is set likewise.
const SWSM: u32 = 0x1_0140;

#[tactic(auto, unfolding(crate::specs::AtOnce::at_once_at, hardware::specs::Prog::pick))]
fn at_once_at(register: u32) -> u32
    ensures { result ≡ at_once_at register }
{
    if register == SWSM {
        return 2;
    }
    if register == hardware::ESDP {
        return 2;
    }
    0
}

#[tactic(auto, unfolding(crate::specs::AtOnce::at_once))]
pub fn at_once(x: Access) -> Answer
    ensures { result ≡ at_once x }
{
    match x {
        Access::Read(register) => Answer::Value(at_once_at(register)),
        Access::Write(_, _) => Answer::Done,
        Access::Wait(_) => Answer::Done,
    }
}

// The answer to an access: of the machine's own by the bench, which moves on, and of any other at once.
#[tactic(auto, unfolding(crate::specs::AtOnce::or_at_once))]
pub fn met(port: Port, d: &mut BenchState, x: Access) -> Answer
    ensures state { d.new ≡ (accessed (layout_of port.family) (has_mux port) x d.old).state }
    ensures answer { result ≡ or_at_once (accessed (layout_of port.family) (has_mux port) x d.old).answer x }
{
    let reply = crate::register::access(port, *d, x);
    *d = reply.state;
    match reply.answer {
        Some(a) => a,
        None => at_once(x),
    }
}
