// The direct way through a step that stays inside a command, from the numbers of a state: it reads what such a step goes by, and
// puts back the job alone. It never refuses: where it says `None`, the step goes the plain way.
ghost use Rattle.std.specs.Prelude.{◌≡◌};
ghost use Rattle.bus.specs.Quick.{MovedBy};
ghost use Rattle.host.specs.Direct.{shape, port_in, meter_in, job_in, with_job, moved_block, TransferTerms, IdentifyTerms, RateTerms, TermsOf};
ghost use Rattle.host.specs.Step.{AnsweredBy, Stepped};

use bus::job::Job;
use flat::State;
use flat::of_bus::JobFlat;
use flat::of_hardware::{MeterFlat, PortFlat};
use flat::of_i2c::RequestFlat;
use flat::of_identify::PlaceFlat;
use flat::of_softrate::SpotFlat;
use hardware::{Access, Answer, Meter, Port};
use i2c::once::Request;

// A call's request with its limits. held: the rest of what question 10 asks of the call's state.
#[derive(Clone, Copy)]
pub struct Terms {
    pub held: bool,
    pub request: Request,
    pub tries: u32,
    pub cap: u32,
}

// A call that is not over, its request inside the bus, an attempt, a command.
#[tactic(auto, unfolding(crate::specs::Direct::shape, hardware::specs::Prog::pick))]
fn shaped(s: State) -> bool
    ensures { result ≡ shape s }
{
    if s.tag == 0 {
        if s.b1 == 3 {
            if s.b2 == 1 {
                return s.b3 == 1;
            }
        }
    }
    false
}

fn port(s: State) -> Port
    ensures { result ≡ port_in s }
{
    flat::of_hardware::port(PortFlat {
        b0: s.b15,
        b1: s.b16,
        h0: s.h1,
    })
}

fn meter(s: State) -> Meter
    ensures { result ≡ meter_in s }
{
    flat::of_hardware::meter(MeterFlat {
        b0: s.b17,
        w0: s.w3,
    })
}

fn job(s: State) -> Job
    ensures { result ≡ job_in s }
{
    flat::of_bus::job(JobFlat {
        b0: s.b4,
        b1: s.b5,
        b2: s.b6,
        b3: s.b7,
        b4: s.b8,
        h0: s.h0,
        w0: s.w0,
    })
}

// The state with another job.
#[tactic(auto, unfolding(crate::specs::Direct::with_job))]
pub fn with_job(s: State, j: Job) -> State
    ensures { result ≡ with_job s j }
{
    let q = flat::of_bus::of_job(j);
    let mut t = s;
    t.b4 = q.b0;
    t.b5 = q.b1;
    t.b6 = q.b2;
    t.b7 = q.b3;
    t.b8 = q.b4;
    t.h0 = q.h0;
    t.w0 = q.w0;
    t
}

fn of_transfer(p: Port, m: Meter, s: State) -> Terms
    ensures { TransferTerms p m s result }
{
    let request = flat::of_i2c::request(RequestFlat {
        tag: s.b18,
        b1: s.b19,
        b2: s.b20,
        b3: s.b21,
        h0: s.h2,
        h1: s.h3,
    });
    let most = i2c::calls::limit(request);
    Terms {
        held: i2c::calls::valid_operands(p, request, m),
        request,
        tries: most,
        cap: most,
    }
}

fn of_identify(p: Port, s: State) -> Terms
    ensures { IdentifyTerms p s result }
{
    let place = flat::of_identify::place(PlaceFlat {
        tag: s.b18,
        b1: s.b19,
        b2: s.b20,
        b3: s.b21,
        b4: s.b22,
    });
    Terms {
        held: identify::place::valid(place),
        request: identify::place::request(place),
        tries: identify::place::tries(p, place) as u32,
        cap: identify::place::cap(p, place),
    }
}

fn of_rate(p: Port, s: State) -> Terms
    ensures { RateTerms p s result }
{
    let spot = flat::of_softrate::spot(SpotFlat {
        b0: s.b18,
        b1: s.b19,
        b2: s.b20,
        b3: s.b21,
    });
    let place = spot.place;
    Terms {
        held: softrate::spot::valid(spot),
        request: softrate::spot::request(flat::set(s.b23), spot),
        tries: softrate::spot::tries(p, place) as u32,
        cap: softrate::spot::cap(p, spot),
    }
}

// By the number of the call.
#[tactic(auto, using(crate::proofs::Laws::chosen_both), unfolding(crate::specs::Direct::TermsOf))]
fn terms_of(p: Port, m: Meter, s: State) -> Terms
    ensures { TermsOf s.call p m s result }
{
    let call = s.call;
    match call {
        0 => of_transfer(p, m, s),
        2 => of_identify(p, s),
        3 => of_rate(p, s),
        _ => Terms {
            held: false,
            request: Request::ReadByte(0, 0),
            tries: 0,
            cap: 0,
        },
    }
}

// A step with an answer of a kind that there is.
#[tactic(auto, unfolding(bus::specs::Quick::MovedBy))]
fn inside(s: State, a: Answer) -> Option<(Access, Job)>
    ensures { MovedBy (λ x next. Stepped s a (moved_block s x next)) result }
{
    if shaped(s) {
        let p = port(s);
        let m = meter(s);
        if hardware::valid_held(p, m) {
            let t = terms_of(p, m, s);
            if t.held {
                let r = t.request;
                return i2c::direct::job(p, r, t.tries, t.cap, m, s.b14, s.z0, job(s), a);
            }
        }
    }
    None
}

#[tactic(auto, unfolding(crate::specs::Step::AnsweredBy, bus::specs::Quick::MovedBy))]
pub fn moved(s: State, g: Option<Answer>) -> Option<(Access, Job)>
    ensures { MovedBy (λ x next. AnsweredBy g (λ a. Stepped s a) s (moved_block s x next)) result }
{
    inside(s, g?)
}
