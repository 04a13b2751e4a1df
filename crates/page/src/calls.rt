// The stepwise calls of a page. Its buffer, of at least 96 bytes, is lent at the opening and at every step.
#![tactic(auto, using(bus::proofs::Laws::picked, hardware::proofs::Laws::held_on, hardware::proofs::Prog::asked_on, hardware::proofs::Laws::held_blank, hardware::proofs::Prog::tally_erase, crate::proofs::Laws::cap_first, crate::proofs::Laws::filled_as, hardware::proofs::Laws::opened_valid, crate::proofs::Laws::filled_port, hardware::proofs::Laws::admits_no, hardware::proofs::Laws::admits_valid, hardware::proofs::Laws::admits_yes, hardware::proofs::Laws::both_true, crate::proofs::Laws::valid_below, i2c::proofs::Moves::went_map, crate::proofs::Moves::page_on), unfolding(crate::specs::Calls::said_page, crate::specs::Walk::page_next, crate::specs::Calls::stands_page, crate::specs::Calls::valid_call, crate::specs::Walk::valid_page_next, crate::specs::Calls::FilledAs, crate::specs::Calls::filled_call, crate::specs::Walk::filled_next, hardware::specs::Prog::tally, crate::specs::Calls::open_form, hardware::specs::Asked::question, hardware::specs::Lent::lent, crate::specs::Calls::buffer_fits, crate::specs::Page::page, crate::specs::Calls::open_page, hardware::specs::Asked::and_then, hardware::specs::Asked::opened, crate::specs::Calls::open_qsfp_page, hardware::specs::Prog::pick, crate::specs::Calls::stepped_page, crate::specs::Calls::buffer_stepped, crate::specs::Calls::kept, i2c::specs::Direct::WentBy, crate::specs::Calls::step_page, crate::specs::Calls::buffer_after))]

ghost use Rattle.std.specs.Prelude.{ℕ, ◌<◌, ◌≤◌, ◌≡◌, true, List, ◌∷◌, length, Ok, Some};
ghost use Rattle.hardware.specs.Asked.{yes, open_port, valid_port};
ghost use Rattle.hardware.specs.Lent.{lent, goes};
ghost use Rattle.hardware.specs.Marks.{FULL, valid_held};
ghost use Rattle.hardware.specs.Promise.{Stores};
ghost use Rattle.hardware.specs.Prog.{tally};
ghost use Rattle.i2c.specs.Direct.{WentBy};
ghost use Rattle.page.specs.Walk.{Fills, page_next, filled_from, filled_next, valid_page_next};
ghost use Rattle.i2c.specs.I2c.{standard};
ghost use Rattle.page.specs.Calls.{open_form, valid_call, kept, buffer_stepped, buffer_after, filled_call, FilledAs, stepped_page, open_page, open_qsfp_page, step_page, said_page, stands_page};
ghost use Rattle.hardware.specs.declared.Told.TheVariants.{Ask};

use crate::sums::Paged;
use crate::walk::{Form, Page, PageNext};
use hardware::{Access, Answer, BLANK, Meter, Next, Port, Refusal, Told};
use i2c::handshake::Handshake;
use transfer::attempt::Sequence;

// The state of a call, none once it is over: with the clearing sequence of its transfers, which page it is, the attempts for each byte, and the meter.
pub type PageCall = Option<(Port, Sequence, Form, u8, Meter, Page)>;

// The end: how the page ended, and the meter.
pub type PageTold = Result<Told<PageCall, (Paged, Meter)>, Refusal>;

fn told(port: Port, q: Sequence, form: Form, tries: u8, m: Meter, n: PageNext) -> PageTold
    ensures { Stores ((l : List ℕ) → m.transfers < FULL → said_page result l ≡ goes (tally m (page_next q port form tries n l))) (valid_held port m ≡ true → valid_page_next port form tries m n ≡ true → stands_page result) ((b : List ℕ) → FilledAs result b (filled_next q port form tries n b)) }
{
    match n {
        Next::Going((k, s)) => Ok(Told::Ask(
            crate::walk::access(port, s),
            Some((port, q, form, tries, hardware::meter_on(k, m), s)),
        )),
        Next::End(p) => Ok(Told::End((p, m))),
    }
}

// Questions 4 and 9.
fn opened(port: Port, q: Sequence, form: Form, attempts: u32, buffer: &[u8]) -> PageTold
    ensures { Stores (said_page result buffer.now ≡ lent buffer.now (open_form q form attempts buffer.now port)) (valid_port port ≡ true → stands_page result) (FilledAs result buffer.now (filled_from q port form attempts 96 buffer.now)) }
{
    if 255 < attempts {
        return Err(Refusal::Attempts);
    }
    if buffer.len() < 96 {
        return Err(Refusal::Buffer);
    }
    let tries = attempts as u8;
    told(
        port,
        q,
        form,
        tries,
        BLANK,
        crate::walk::begin(port, q, form, tries, 95),
    )
}

// SFF-8472's page. Questions 1, 2, 4 and 9. sequence: the clearing after a failed attempt, by its name.
pub fn page_open_with(
    family: u32,
    device: u16,
    lan: u32,
    attempts: u32,
    buffer: &[u8],
    sequence: Sequence,
) -> PageTold
    ensures { Stores (said_page result buffer.now ≡ open_page sequence family device lan attempts buffer.now) (stands_page result) ((port : Port) → open_port family device lan ≡ yes port → FilledAs result buffer.now (filled_from sequence port Form.Sff8472 attempts 96 buffer.now)) }
{
    let p = hardware::open_port(family, device, lan)?;
    opened(p, sequence, Form::Sff8472, attempts, buffer)
}

// SFF-8636's.
pub fn qsfp_page_open_with(
    family: u32,
    device: u16,
    lan: u32,
    attempts: u32,
    buffer: &[u8],
    sequence: Sequence,
) -> PageTold
    ensures { Stores (said_page result buffer.now ≡ open_qsfp_page sequence family device lan attempts buffer.now) (stands_page result) ((port : Port) → open_port family device lan ≡ yes port → FilledAs result buffer.now (filled_from sequence port Form.Sff8636 attempts 96 buffer.now)) }
{
    let p = hardware::open_port(family, device, lan)?;
    opened(p, sequence, Form::Sff8636, attempts, buffer)
}

// Both with the default sequence.
pub fn page_open(family: u32, device: u16, lan: u32, attempts: u32, buffer: &[u8]) -> PageTold
    ensures { Stores (said_page result buffer.now ≡ open_page standard family device lan attempts buffer.now) (stands_page result) ((port : Port) → open_port family device lan ≡ yes port → FilledAs result buffer.now (filled_from standard port Form.Sff8472 attempts 96 buffer.now)) }
{
    page_open_with(family, device, lan, attempts, buffer, i2c::standard())
}

pub fn qsfp_page_open(family: u32, device: u16, lan: u32, attempts: u32, buffer: &[u8]) -> PageTold
    ensures { Stores (said_page result buffer.now ≡ open_qsfp_page standard family device lan attempts buffer.now) (stands_page result) ((port : Port) → open_port family device lan ≡ yes port → FilledAs result buffer.now (filled_from standard port Form.Sff8636 attempts 96 buffer.now)) }
{
    qsfp_page_open_with(family, device, lan, attempts, buffer, i2c::standard())
}

fn valid(port: Port, form: Form, tries: u8, m: Meter, t: Page) -> bool
    ensures { result ≡ valid_call port form tries m t }
{
    if hardware::valid_held(port, m) {
        return crate::walk::valid(port, form, tries, m, t);
    }
    false
}

fn page_on(
    port: Port,
    q: Sequence,
    form: Form,
    tries: u8,
    m: Meter,
    t: Page,
    buffer: &mut [u8],
    a: Answer,
) -> PageTold
    requires { 96 ≤ length buffer.old }
    ensures { Fills (said_page result buffer.new ≡ lent buffer.old (stepped_page (Some (port, q, form, tries, m, t)) buffer.old a)) (stands_page result) (buffer.new ≡ kept buffer.old (buffer_stepped (Some (port, q, form, tries, m, t)) buffer.old a)) (FilledAs result buffer.new (λ l. filled_call (Some (port, q, form, tries, m, t)) buffer.old (a ∷ l))) }
{
    let ok = valid(port, form, tries, m, t);
    hardware::admit(ok, crate::walk::access(port, t), a)?;
    let n = crate::walk::step(port, q, form, tries, t, buffer, a);
    told(port, q, form, tries, m, n)
}

// A step inside a command: nothing is stored.
fn direct(
    port: Port,
    form: Form,
    tries: u8,
    m: Meter,
    t: Page,
    a: Answer,
) -> Option<(Access, Handshake)>
    ensures { WentBy (λ x g. (q : Sequence) (buffer : List ℕ) → Fills (said_page (Ok (Ask x (Some (port, q, form, tries, m, (record { left = t.left; request = g }))))) buffer ≡ lent buffer (stepped_page (Some (port, q, form, tries, m, t)) buffer a)) (stands_page (Ok (Ask x (Some (port, q, form, tries, m, (record { left = t.left; request = g })))))) (buffer ≡ kept buffer (buffer_stepped (Some (port, q, form, tries, m, t)) buffer a)) (FilledAs (Ok (Ask x (Some (port, q, form, tries, m, (record { left = t.left; request = g }))))) buffer (λ l. filled_call (Some (port, q, form, tries, m, t)) buffer (a ∷ l)))) result }
{
    let left = t.left;
    let h = t.request;
    if hardware::valid_held(port, m) {
        if left < 96 {
            return i2c::direct::request(
                port,
                crate::walk::request(form, left),
                tries as u32,
                crate::walk::cap(tries, left),
                m,
                h,
                a,
            );
        }
    }
    None
}

// Questions 9, and then 10 to 12, of both.
pub fn plain(s: PageCall, buffer: &mut [u8], a: Answer) -> PageTold
    ensures { Fills (said_page result buffer.new ≡ step_page s buffer.old a) (stands_page result) (buffer.new ≡ buffer_after s buffer.old a) (FilledAs result buffer.new (λ l. filled_call s buffer.old (a ∷ l))) }
{
    if buffer.len() < 96 {
        return Err(Refusal::Buffer);
    }
    let (port, q, form, tries, m, t) = s.ok_or(Refusal::Finished)?;
    page_on(port, q, form, tries, m, t, buffer, a)
}

// The same: the direct way where there is one, else the plain one.
#[tactic(auto, unfolding(crate::specs::Calls::step_page, crate::specs::Calls::buffer_after, crate::specs::Calls::kept, hardware::specs::Lent::lent, hardware::specs::Asked::question, crate::specs::Calls::buffer_fits, crate::specs::Calls::said_page, crate::specs::Calls::stands_page, crate::specs::Calls::FilledAs, i2c::specs::Direct::WentBy, crate::specs::Calls::buffer_stepped, crate::specs::Calls::stepped_page))]
pub fn page_step(s: PageCall, buffer: &mut [u8], a: Answer) -> PageTold
    ensures { Fills (said_page result buffer.new ≡ step_page s buffer.old a) (stands_page result) (buffer.new ≡ buffer_after s buffer.old a) (FilledAs result buffer.new (λ l. filled_call s buffer.old (a ∷ l))) }
{
    if buffer.len() < 96 {
        return Err(Refusal::Buffer);
    }
    let (port, q, form, tries, m, t) = s.ok_or(Refusal::Finished)?;
    match direct(port, form, tries, m, t, a) {
        Some((x, g)) => Ok(Told::Ask(
            x,
            Some((
                port,
                q,
                form,
                tries,
                m,
                Page {
                    left: t.left,
                    request: g,
                },
            )),
        )),
        None => {
            let n = plain(s, buffer, a);
            n
        }
    }
}
