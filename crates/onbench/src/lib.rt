// The whole call of `identify`, from its opening to its end, with the bench module. The answers to all other accesses are
// lent, or fixed ones with which every lock and grant comes at once.
#![tactic(auto)]

ghost use Rattle.std.specs.Prelude.{ℕ, ◌<◌, ◌≤◌, ◌≡◌, true, false, [], ◌⊎◌, length, get_or, drop, Ok};
ghost use Rattle.hardware.specs.Asked.{yes, open_port};
ghost use Rattle.wire.specs.Run.{listed, fixed, Finished};
ghost use Rattle.bench.specs.AtOnce.{at_once};
ghost use Rattle.bench.specs.Register.{world};
ghost use Rattle.sfp.specs.Steps.{IDENTIFY_STEPS};
ghost use Rattle.identify.specs.Calls.{said_identify, stands_identify};
ghost use Rattle.demand.specs.Claim.{Allowed, Premises};
ghost use Rattle.demand.specs.Library.{start_of, identify_run, Demand3, Demand3AtOnce};
ghost use Rattle.onbench.specs.Run.{decoded, decoded_all, source_of, next_of, outcome_of, left_of, stops_at, Advances, Bounded};
ghost use Rattle.hardware.specs.declared.Told.TheVariants.{Ask};

use bench::register::BenchState;
use hardware::{Access, Answer, Meter, Port, R, Refusal, Told};
use identify::calls::{IdentifyCall, IdentifyTold};
use sfp::Identity;
use transfer::attempt::Sequence;

// How a run ended: with the call's result and the meter, for want of answers, or by a refusal; the claim tells the three apart
// (`ending_of`).
#[derive(Clone, Copy)]
pub enum Ending {
    Ended(R<Identity>, Meter),
    Short,
    Stopped(Refusal),
}

// The registers and the module at the end.
#[derive(Clone, Copy)]
pub struct Run {
    pub ending: Ending,
    pub state: BenchState,
}

// Where the answers to accesses that are not the machine's own come from: they are lent, or fixed so that every lock and grant
// comes at once.
#[derive(Clone, Copy)]
pub enum Origin {
    Lent,
    AtOnce,
}

// used: so many of the answers lent. over: there is nothing more to do; what was told stays, since the claim reads it (`left_of`).
#[derive(Clone, Copy)]
pub struct Progress {
    pub told: IdentifyTold,
    pub state: BenchState,
    pub used: usize,
    pub over: bool,
}

// No identification has more accesses.
const MOST_ACCESSES: u64 = 1_600_450_488;

// A number below 2^32 is a value that was read, 2^32 a write or a wait that is done, and any other a failed access.
#[tactic(auto, unfolding(crate::specs::Run::decoded, hardware::specs::Prog::pick))]
pub fn decode(n: u64) -> Answer
    ensures { result ≡ decoded n }
{
    if n < 0x1_0000_0000 {
        return Answer::Value(n as u32);
    }
    if n == 0x1_0000_0000 {
        return Answer::Done;
    }
    Answer::Failed
}

#[tactic(auto, using(crate::proofs::Laws::next_lent, crate::proofs::Laws::next_none), unfolding(crate::specs::Run::source_of, crate::specs::Run::next_of, wire::specs::Run::fixed))]
fn next_answer(origin: Origin, x: Access, used: usize, answers: &[u64]) -> Option<(Answer, usize)>
    ensures { next_of answers.now result ≡ source_of origin x (decoded_all (drop used answers.now)) }
{
    match origin {
        Origin::Lent => {
            if used < answers.len() {
                return Some((decode(answers[used]), used + 1));
            }
            None
        }
        Origin::AtOnce => Some((bench::at_once::at_once(x), used)),
    }
}

// The access is the machine's own, and is answered there; or it gets the next answer, if there is one.
#[tactic(auto, using(crate::proofs::Laws::visit_given, crate::proofs::Laws::visit_none, crate::proofs::Laws::visit_own))]
fn visit(
    port: Port,
    origin: Origin,
    x: Access,
    c: IdentifyCall,
    d: BenchState,
    used: usize,
    answers: &[u64],
) -> Progress
    ensures { Advances (left_of port origin answers.now) (record { told = Ok (Ask x c); state = d; used = used; over = false }) result }
{
    let r = bench::register::access(port, d, x);
    if let Some(a) = r.answer {
        return Progress {
            told: identify::calls::identify_step(c, a),
            state: r.state,
            used,
            over: false,
        };
    }
    match next_answer(origin, x, used, answers) {
        Some((a, then)) => Progress {
            told: identify::calls::identify_step(c, a),
            state: d,
            used: then,
            over: false,
        },
        None => Progress {
            told: Ok(Told::Ask(x, c)),
            state: d,
            used,
            over: true,
        },
    }
}

#[tactic(auto, using(crate::proofs::Laws::one_ask, crate::proofs::Laws::one_end, crate::proofs::Laws::one_refused))]
fn one(port: Port, origin: Origin, s: Progress, answers: &[u64]) -> Progress
    ensures { s.over ≡ false → Advances (left_of port origin answers.now) s result }
{
    let told = s.told;
    let d = s.state;
    let used = s.used;
    match told {
        Ok(Told::Ask(x, c)) => visit(port, origin, x, c, d, used, answers),
        Ok(Told::End((f, m))) => Progress {
            told: Ok(Told::End((f, m))),
            state: d,
            used,
            over: true,
        },
        Err(q) => Progress {
            told: Err(q),
            state: d,
            used,
            over: true,
        },
    }
}

#[tactic(auto, unfolding(crate::specs::Run::outcome_of, crate::specs::Run::ending_of, crate::specs::Run::stops_at))]
fn finish(s: Progress) -> Run
    ensures { outcome_of result ≡ stops_at s.told (world s.state) }
{
    let told = s.told;
    let d = s.state;
    match told {
        Ok(Told::Ask(_, _)) => Run {
            ending: Ending::Short,
            state: d,
        },
        Ok(Told::End((f, m))) => Run {
            ending: Ending::Ended(f, m),
            state: d,
        },
        Err(q) => Run {
            ending: Ending::Stopped(q),
            state: d,
        },
    }
}

#[tactic(auto, using(crate::proofs::Laws::Invariant, crate::proofs::Laws::invariant_first, crate::proofs::Laws::invariant_next, crate::proofs::Laws::invariant_stops, crate::proofs::Laws::invariant_ends))]
fn play(port: Port, origin: Origin, told: IdentifyTold, d: BenchState, answers: &[u64]) -> Run
    ensures { stands_identify told → Bounded (said_identify told) 1600450488 → outcome_of result ≡ left_of port origin answers.now (record { told = told; state = d; used = 0; over = false }) }
{
    let mut s = Progress {
        told,
        state: d,
        used: 0,
        over: false,
    };
    for _ in 0..MOST_ACCESSES {
        if s.over {
            return finish(s);
        }
        s = one(port, origin, s, answers);
    }
    finish(s)
}

// The call from its opening on, with a clearing sequence by its name; a refused opening alters nothing.
#[tactic(auto, using(crate::proofs::Laws::opened, crate::proofs::Laws::unopened))]
fn from_opening(
    family: u32,
    device: u16,
    lan: u32,
    d: BenchState,
    origin: Origin,
    answers: &[u64],
    sequence: Sequence,
) -> Run
    ensures { outcome_of result ≡ identify_run sequence (source_of origin) (open_port family device lan) (world d) (decoded_all answers.now) }
{
    match hardware::open_port(family, device, lan) {
        Ok(p) => {
            let told = identify::calls::identify_open_with(family, device, lan, sequence);
            play(p, origin, told, d, answers)
        }
        Err(q) => Run {
            ending: Ending::Stopped(q),
            state: d,
        },
    }
}

fn size(page: &[u8]) -> usize
    ensures { result ≡ length page.now }
{
    page.len()
}

// Each byte of a page is below 256, as its type says; the claim needs it said.
fn bytes(page: &[u8]) -> usize
    ensures counted { result ≡ length page.now }
    ensures bytes { (n : ℕ) → get_or page.now n 0 < 256 }
{
    size(page)
}

// Demand 3 of the call, with either sequence: what it comes to for every list of answers, and the claim where they meet the
// premises and it comes to its end, as it does over every list that is long enough.
#[tactic(auto, using(crate::proofs::Laws::lent_claim), unfolding(crate::specs::Run::source_of))]
pub fn identify_on_bench(
    family: u32,
    device: u16,
    lan: u32,
    d: BenchState,
    answers: &[u64],
    sequence: Sequence,
) -> Run
    ensures runs { outcome_of result ≡ identify_run sequence listed (open_port family device lan) (world d) (decoded_all answers.now) }
    ensures claimed { (port : Port) → yes port ≡ open_port family device lan → Allowed port (start_of d) → Premises sequence port d.bench (start_of d) (decoded_all answers.now) → Finished (outcome_of result) ⊎ (IDENTIFY_STEPS port.family ≤ length answers.now) → Demand3 sequence port d.bench (start_of d) (decoded_all answers.now) (outcome_of result) }
{
    let page = d.bench.a0.bytes;
    bytes(&page);
    from_opening(family, device, lan, d, Origin::Lent, answers, sequence)
}

// Demand 3 of the call where every lock and grant comes at once: no answers are lent.
#[tactic(auto, using(crate::proofs::Laws::at_once_claim), unfolding(crate::specs::Run::source_of, crate::specs::Run::decoded_all))]
pub fn identify_at_once(
    family: u32,
    device: u16,
    lan: u32,
    d: BenchState,
    sequence: Sequence,
) -> Run
    ensures runs { outcome_of result ≡ identify_run sequence (fixed at_once) (open_port family device lan) (world d) [] }
    ensures claimed { (port : Port) → yes port ≡ open_port family device lan → Allowed port (start_of d) → Demand3AtOnce sequence port d.bench (start_of d) (outcome_of result) }
{
    let page = d.bench.a0.bytes;
    bytes(&page);
    let none: [u64; 0] = [];
    from_opening(family, device, lan, d, Origin::AtOnce, &none, sequence)
}
