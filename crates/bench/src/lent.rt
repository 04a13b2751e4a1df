// The receiver lent by its owner: it takes each edge, and is updated.
ghost use Rattle.std.specs.Prelude.{◌≡◌};
ghost use Rattle.bench.specs.Receiver.{edged, asks_on};
ghost use Rattle.bench.specs.Edges.{edge_of};

use crate::receiver;
use crate::receiver::{Act, Edge, Moved, Receiver};

// One edge, and what the receiver then asks of the page chosen.
pub fn take(r: &mut Receiver, e: Edge) -> Act
    ensures { (r.new ≡ edged (edge_of e) r.old) × (result ≡ asks_on (edge_of e) r.old) }
{
    let moved = receiver::edged(*r, e);
    *r = moved.receiver;
    moved.act
}

// The owner lends its receiver for one edge, and has it back.
pub fn lend(owned: Receiver, e: Edge) -> Moved
    ensures { (result.receiver ≡ edged (edge_of e) owned) × (result.act ≡ asks_on (edge_of e) owned) }
{
    let mut receiver = owned;
    let act = take(&mut receiver, e);
    Moved { receiver, act }
}
