// I2CCTL with the bench module at the two lines, and ESDP where the port reaches it through a mux.
#![tactic(auto, using(crate::proofs::Laws::or_false, crate::proofs::Laws::or_true, crate::proofs::Mux::edges_append, crate::proofs::Mux::turn_moves), unfolding(wire::specs::Lines::banging, wire::specs::Lines::pulling, wire::specs::Lines::pulls_sda, wire::specs::Lines::pulls_scl, crate::specs::Mux::across, hardware::specs::Prog::pick, wire::specs::Lines::levels, wire::specs::Lines::master, crate::specs::Mux::takes_edges, wire::specs::Lines::scl_edge, crate::specs::Edges::edge_of, wire::specs::Lines::sda_edge, crate::specs::Mux::moved, crate::specs::Mux::sees, wire::specs::Lines::edge, wire::specs::Lines::input, crate::specs::Mux::has_mux, crate::specs::Mux::joins, wire::specs::Machine::reading, wire::specs::Lines::inputs, wire::specs::Machine::wrote, wire::specs::Machine::switched, crate::specs::Mux::switched_to, crate::specs::Register::accessed, wire::specs::Machine::modelled, wire::specs::Machine::models, wire::specs::Machine::at_lines, wire::specs::Machine::reply, wire::specs::Machine::after, wire::specs::Lines::ready, crate::specs::Register::released))]

ghost use Rattle.std.specs.Prelude.{◌≡◌, false, not, ◌&&◌, ◌||◌, ◌==◌};
ghost use Rattle.hardware.specs.Registers.{ESDP};
ghost use Rattle.bus.specs.Layout.{layout_of};
ghost use Rattle.wire.specs.Lines.{drawn, banging, pulling, pulls_sda, pulls_scl, ready, input, scl_edge, sda_edge, master};
ghost use Rattle.wire.specs.Machine.{wrote, switched, reading};
ghost use Rattle.bench.specs.Bench.{pulls_low};
ghost use Rattle.bench.specs.Mux.{has_mux, joins, across, sees, takes_edges, moved};
ghost use Rattle.bench.specs.Register.{side, world, bench_state, here, elsewhere, accessed, released};

use crate::Bench;
use crate::receiver::Edge;
use bus::Layout;
use hardware::{Access, Answer, Family, Port};

// I2CCTL and ESDP as last written, and the module. Without a mux ESDP is not the machine's, and esdp means nothing.
#[derive(Clone, Copy)]
pub struct BenchState {
    pub word: u32,
    pub esdp: u32,
    pub bench: Bench,
}

// answer: of an access to I2CCTL, or to ESDP with a mux. None: the access is left to the caller, and the state is as it was.
#[derive(Clone, Copy)]
pub struct Reply {
    pub answer: Option<Answer>,
    pub state: BenchState,
}

fn banging(l: Layout, w: u32) -> bool
    ensures { result ≡ banging l w }
{
    if l.bben == 0 {
        return true;
    }
    !hardware::none_of(w, l.bben)
}

fn pulling(l: Layout, oen: u32, out: u32, w: u32) -> bool
    ensures { result ≡ pulling l oen out w }
{
    if banging(l, w) {
        if hardware::none_of(w, oen) {
            return hardware::none_of(w, out);
        }
    }
    false
}

// Whether SDA is high with this word, where the module pulls it or not.
fn sda_high(l: Layout, w: u32, pulled: bool) -> bool
    ensures { result ≡ not (pulls_sda l w || pulled) }
{
    if pulled {
        return false;
    }
    !pulling(l, l.sdaoen, l.sdaout, w)
}

// Whether SCL is high with this word; the module never pulls it.
fn scl_high(l: Layout, w: u32) -> bool
    ensures { result ≡ not (pulls_scl l w || false) }
{
    !pulling(l, l.scloen, l.sclout, w)
}

// The same as the module sees them, the master felt or not.
fn sees_sda(l: Layout, joined: bool, w: u32, pulled: bool) -> bool
    ensures { result ≡ not ((across joined (master l w)).sda || pulled) }
{
    if joined {
        return sda_high(l, w, pulled);
    }
    !pulled
}

fn sees_scl(l: Layout, joined: bool, w: u32) -> bool
    ensures { result ≡ not ((across joined (master l w)).scl || false) }
{
    if joined {
        return scl_high(l, w);
    }
    true
}

fn scl_moves(before: bool, after: bool, sda: bool, b: Bench) -> Bench
    ensures { result ≡ takes_edges (scl_edge before after sda) b }
{
    if before {
        if after {
            return b;
        }
        return crate::take(Edge::Fall, b);
    }
    if after {
        return crate::take(Edge::Rise(sda), b);
    }
    b
}

fn sda_moves(scl: bool, before: bool, after: bool, b: Bench) -> Bench
    ensures { result ≡ takes_edges (sda_edge scl before after) b }
{
    if scl {
        if before {
            if after {
                return b;
            }
            return crate::take(Edge::Start, b);
        }
        if after {
            return crate::take(Edge::Stop, b);
        }
        return b;
    }
    b
}

// What the module makes of a write: the word and whether the master is felt, before and after it. It sees SCL move first, at
// the old SDA.
fn moves(l: Layout, old: u32, felt: bool, new: u32, feels: bool, b: Bench) -> Bench
    ensures { result ≡ moved (sees felt (master l old) b) (sees feels (master l new) b) b }
{
    let pulled = crate::pulls_low(b);
    let sda = sees_sda(l, felt, old, pulled);
    let scl = sees_scl(l, feels, new);
    let between = scl_moves(sees_scl(l, felt, old), scl, sda, b);
    sda_moves(scl, sda, sees_sda(l, feels, new, pulled), between)
}

fn input(mask: u32, high: bool, w: u32) -> u32
    ensures { result ≡ input mask high w }
{
    if high {
        return w | mask;
    }
    w & !mask
}

// Whether the port reaches its module through a mux: the X552's port 1.
pub fn has_mux(port: Port) -> bool
    ensures { result ≡ has_mux port }
{
    let family = port.family;
    if family.is(Family::X552) {
        return port.lan == 1;
    }
    false
}

// The mux is on while bit 1 of ESDP is set.
fn joins(mux: bool, esdp: u32) -> bool
    ensures { result ≡ joins mux esdp }
{
    if mux {
        return !hardware::none_of(esdp, 2);
    }
    true
}

// Whether the master feels SDA pulled.
fn pull_felt(joined: bool, b: Bench) -> bool
    ensures { drawn result false ≡ across joined (drawn (pulls_low b) false) }
{
    if joined {
        return crate::pulls_low(b);
    }
    false
}

fn reading(l: Layout, mux: bool, d: BenchState) -> u32
    ensures { result ≡ reading l (side mux) (world d) }
{
    let pulled = pull_felt(joins(mux, d.esdp), d.bench);
    let with_scl = input(l.sclin, scl_high(l, d.word), d.word);
    input(l.sdain, sda_high(l, d.word, pulled), with_scl)
}

fn write(l: Layout, mux: bool, d: BenchState, v: u32) -> BenchState
    ensures { result ≡ bench_state (wrote l (side mux) v (world d)) }
{
    let joined = joins(mux, d.esdp);
    BenchState {
        word: v,
        bench: moves(l, d.word, joined, v, joined, d.bench),
        ..d
    }
}

fn switch(l: Layout, mux: bool, d: BenchState, v: u32) -> BenchState
    ensures { result ≡ bench_state (switched l (side mux) v (world d)) }
{
    let felt = joins(mux, d.esdp);
    let feels = joins(mux, v);
    BenchState {
        esdp: v,
        bench: moves(l, d.word, felt, d.word, feels, d.bench),
        ..d
    }
}

fn value(v: u32, d: BenchState) -> Reply
    ensures { result ≡ here (Answer.Value v) d }
{
    Reply {
        answer: Some(Answer::Value(v)),
        state: d,
    }
}

fn done(d: BenchState) -> Reply
    ensures { result ≡ here Answer.Done d }
{
    Reply {
        answer: Some(Answer::Done),
        state: d,
    }
}

// Whether the register is ESDP, and the machine's.
fn at_mux(mux: bool, register: u32) -> bool
    ensures { result ≡ (register == ESDP && mux) }
{
    if register == hardware::ESDP {
        return mux;
    }
    false
}

fn read_at(l: Layout, mux: bool, register: u32, d: BenchState) -> Reply
    ensures { result ≡ accessed l mux (Access.Read register) d }
{
    if register == l.reg {
        return value(reading(l, mux, d), d);
    }
    if at_mux(mux, register) {
        return value(d.esdp, d);
    }
    elsewhere(d)
}

fn write_at(l: Layout, mux: bool, register: u32, v: u32, d: BenchState) -> Reply
    ensures { result ≡ accessed l mux (Access.Write register v) d }
{
    if register == l.reg {
        return done(write(l, mux, d, v));
    }
    if at_mux(mux, register) {
        return done(switch(l, mux, d, v));
    }
    elsewhere(d)
}

fn elsewhere(d: BenchState) -> Reply
    ensures { result ≡ elsewhere d }
{
    Reply {
        answer: None,
        state: d,
    }
}

// A step of the bench: an access to I2CCTL, or to ESDP where the port has a mux, is answered and the module moved, any other
// is left to the caller.
pub fn access(port: Port, d: BenchState, x: Access) -> Reply
    ensures { result ≡ accessed (layout_of port.family) (has_mux port) x d }
{
    let family = port.family;
    let l = bus::layout_of(family);
    let mux = has_mux(port);
    match x {
        Access::Read(register) => read_at(l, mux, register, d),
        Access::Write(register, v) => write_at(l, mux, register, v, d),
        Access::Wait(_) => elsewhere(d),
    }
}

// Whether I2CCTL is one that the driver may begin with: on the X552 layout BB_EN is set or both enables are off.
pub fn ready(family: Family, word: u32) -> bool
    ensures { result ≡ ready (layout_of family) word }
{
    let l = bus::layout_of(family);
    if banging(l, word) {
        return true;
    }
    if hardware::none_of(word, l.sdaoen) {
        return false;
    }
    !hardware::none_of(word, l.scloen)
}

// Whether both lines are released.
pub fn released(family: Family, d: BenchState) -> bool
    ensures { result ≡ released (layout_of family) d }
{
    let l = bus::layout_of(family);
    if scl_high(l, d.word) {
        return sda_high(l, d.word, crate::pulls_low(d.bench));
    }
    false
}
