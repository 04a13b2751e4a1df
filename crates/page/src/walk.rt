// One byte after another.
#![tactic(auto, using(crate::proofs::Laws::cap_few, crate::proofs::Laws::cap_is, bus::proofs::Laws::picked, i2c::proofs::Request::begun_valid, i2c::proofs::Request::none_read, i2c::proofs::Request::own_allows, i2c::proofs::Request::request_begun, i2c::proofs::Request::request_over, crate::proofs::Laws::cap_most, crate::proofs::Laws::filled_begun, crate::proofs::Laws::filled_over, crate::proofs::Laws::own, crate::proofs::Laws::again, crate::proofs::Laws::cap_next, crate::proofs::Laws::filled_again, hardware::proofs::Prog::going_on, i2c::proofs::Laws::fits_valid, crate::proofs::Laws::filled_going, crate::proofs::Laws::stored_asks, bus::proofs::Laws::picked_first, bus::proofs::Laws::picked_second, hardware::proofs::Prog::over, i2c::proofs::Laws::valid_fits, crate::proofs::Laws::filling_on, crate::proofs::Laws::stored_erase), unfolding(crate::specs::Page::offset_of, crate::specs::Page::request_at, crate::specs::Walk::page_next, crate::specs::Walk::filled_next, crate::specs::Walk::access_page, crate::specs::Walk::rest_page, crate::specs::Page::page_from, crate::specs::Walk::valid_page_next, crate::specs::Walk::valid_page, crate::specs::Walk::filling, crate::specs::Page::paged_of, hardware::specs::Prog::erase, i2c::specs::Handshake::valued, i2c::specs::I2c::value_of, hardware::specs::Registers::reply, crate::specs::Page::byte_seen, crate::specs::Walk::filled_from, i2c::specs::I2c::read_off, crate::specs::Walk::stored, i2c::specs::Handshake::rest_request, i2c::specs::Handshake::handshake_next, i2c::specs::Handshake::valid_handshake_next, i2c::specs::Handshake::due_handshake_next, hardware::specs::Prog::followed, hardware::specs::Prog::pick, crate::specs::Walk::buffer_page, crate::specs::Walk::filled_at))]

ghost use Rattle.std.specs.Prelude.{ℕ, ◌+◌, ◌<◌, ◌≤◌, suc, ◌≡◌, true, List, ◌∷◌, length, set};
ghost use Rattle.hardware.specs.Promise.{Stores};
ghost use Rattle.hardware.specs.Prog.{ret, erase, followed};
ghost use Rattle.i2c.specs.I2c.{locked, value_of};
ghost use Rattle.i2c.specs.Handshake.{valued, handshake_next, due_handshake_next, valid_handshake_next};
ghost use Rattle.page.specs.Page.{offset_of, place_of, request_at, byte_seen, page_from};
ghost use Rattle.page.specs.Walk.{Fills, cap_at, access_page, rest_page, stored, buffer_page, filling, filled_from, filled_at, filled_next, page_next, valid_page, valid_page_next};
ghost use Rattle.hardware.specs.Registers.{reply};

use crate::sums::{PageError, Paged};
use bus::Taken;
use hardware::{Access, Answer, Error, Marks, Meter, Next, Port, R};
use i2c::How;
use i2c::handshake::{Handshake, HandshakeNext};
use i2c::once::Request;
use transfer::attempt::Sequence;

// Which module's page: SFF-8472's begins at byte 0, SFF-8636's at byte 128.
#[derive(Clone, Copy)]
pub enum Form {
    Sff8472,
    Sff8636,
}

// left: the bytes after this one.
#[derive(Clone, Copy)]
pub struct Page {
    pub left: u8,
    pub request: Handshake,
}

pub type PageNext = Next<(Marks, Page), Paged>;

const EEPROM: u8 = 0xa0;

// A page's places are 0 to 95; a state with more bytes left is refused.
fn place(left: u8) -> u8
    ensures { result ≡ place_of left }
{
    if 95 < left {
        return 0;
    }
    95 - left
}

fn offset(form: Form, place: u8) -> u8
    requires { place < 96 }
    ensures { result ≡ offset_of form place }
{
    match form {
        Form::Sff8472 => place,
        Form::Sff8636 => 128 + place,
    }
}

pub(crate) fn request(form: Form, left: u8) -> Request
    ensures { result ≡ request_at form left }
{
    Request::ReadByte(EEPROM, offset(form, place(left)))
}

// The most transfers up to the byte that is read now, its own included.
pub(crate) fn cap(tries: u8, left: u8) -> u32
    ensures { result ≡ cap_at tries left }
{
    (place(left) as u32 + 1) * tries as u32
}

fn store(buffer: &mut [u8], at: usize, v: u8)
    ensures { buffer.new ≡ set buffer.old at v }
{
    if at < buffer.len() {
        buffer[at] = v;
    }
}

// A byte's request. With no attempt it can be over at once, and then it has failed: no byte is read without an access.
pub fn begin(port: Port, q: Sequence, form: Form, tries: u8, left: u8) -> PageNext
    ensures { Stores ((l : List ℕ) → page_next q port form tries result l ≡ erase (page_from q port form tries (suc left) l)) ((m : Meter) → left < 96 → m.transfers + tries ≤ cap_at tries left → valid_page_next port form tries m result ≡ true) ((b : List ℕ) (l : List Answer) → filled_next q port form tries result b l ≡ filled_from q port form tries (suc left) b l) }
{
    let how = How {
        lock: true,
        sequence: q,
    };
    match i2c::handshake::open(port, request(form, left), how, tries) {
        Next::Going((k, s)) => Next::Going((k, Page { left, request: s })),
        Next::End(g) => match g {
            Ok(_) => Next::End(Err(PageError::Bus(Error::Io))),
            Err(e) => Next::End(Err(PageError::Bus(e))),
        },
    }
}

// So many bytes are left: the next, or the sums.
fn next(port: Port, q: Sequence, form: Form, tries: u8, left: u8, buffer: &[u8]) -> PageNext
    requires { 96 ≤ length buffer.now }
    ensures { Stores (page_next q port form tries result buffer.now ≡ erase (page_from q port form tries left buffer.now)) ((m : Meter) → left < 96 → m.transfers ≤ cap_at tries left → valid_page_next port form tries m result ≡ true) ((l : List Answer) → filled_next q port form tries result buffer.now l ≡ filled_from q port form tries left buffer.now l) }
{
    if left == 0 {
        return Next::End(crate::sums::judge(buffer));
    }
    let after = left - 1;
    begin(port, q, form, tries, after)
}

// A byte's request has ended: the byte is stored, or the call has failed.
fn ended(
    port: Port,
    q: Sequence,
    form: Form,
    tries: u8,
    left: u8,
    buffer: &mut [u8],
    g: R<Taken>,
) -> PageNext
    requires { 96 ≤ length buffer.old }
    ensures { Fills (page_next q port form tries result buffer.new ≡ erase (valued (request_at form left) (byte_seen (page_from q port form tries left) (place_of left) buffer.old) (reply g))) ((m : Meter) → left < 96 → m.transfers ≤ cap_at tries left → valid_page_next port form tries m result ≡ true) (buffer.new ≡ stored (place_of left) buffer.old (ret (reply g))) ((l : List Answer) → filled_next q port form tries result buffer.new l ≡ filling (place_of left) (filled_from q port form tries left) buffer.old (ret (value_of (request_at form left) (reply g))) l) }
{
    match g {
        Ok(t) => {
            store(buffer, place(left) as usize, t.last);
            next(port, q, form, tries, left, buffer)
        }
        Err(e) => Next::End(Err(PageError::Bus(e))),
    }
}

fn from_request(
    port: Port,
    q: Sequence,
    form: Form,
    tries: u8,
    left: u8,
    buffer: &mut [u8],
    n: HandshakeNext,
) -> PageNext
    requires { 96 ≤ length buffer.old }
    ensures { Fills (page_next q port form tries result buffer.new ≡ followed (handshake_next port (request_at form left) (locked q) n) (valued (request_at form left) (byte_seen (page_from q port form tries left) (place_of left) buffer.old))) ((m : Meter) → left < 96 → valid_handshake_next tries port (request_at form left) n ≡ true → m.transfers + due_handshake_next (request_at form left) n ≤ cap_at tries left → valid_page_next port form tries m result ≡ true) (buffer.new ≡ stored (place_of left) buffer.old (handshake_next port (request_at form left) (locked q) n)) ((l : List Answer) → filled_next q port form tries result buffer.new l ≡ filling (place_of left) (filled_from q port form tries left) buffer.old (followed (handshake_next port (request_at form left) (locked q) n) (valued (request_at form left) ret)) l) }
{
    match n {
        Next::Going((k, s)) => Next::Going((k, Page { left, request: s })),
        Next::End(g) => ended(port, q, form, tries, left, buffer, g),
    }
}

pub fn access(port: Port, s: Page) -> Access
    ensures { result ≡ access_page port s }
{
    let t = s.request;
    i2c::handshake::access(port, t)
}

pub fn valid(port: Port, form: Form, tries: u8, m: Meter, s: Page) -> bool
    ensures { result ≡ valid_page port form tries m s }
{
    let left = s.left;
    let t = s.request;
    if left < 96 {
        return i2c::handshake::valid_request(
            port,
            request(form, left),
            tries as u32,
            cap(tries, left),
            m,
            t,
        );
    }
    false
}

pub(crate) fn step(
    port: Port,
    q: Sequence,
    form: Form,
    tries: u8,
    s: Page,
    buffer: &mut [u8],
    a: Answer,
) -> PageNext
    requires { 96 ≤ length buffer.old }
    ensures { Fills (page_next q port form tries result buffer.new ≡ erase (rest_page q port form tries s buffer.old a)) ((m : Meter) → valid_page port form tries m s ≡ true → valid_page_next port form tries m result ≡ true) (buffer.new ≡ buffer_page q port form s buffer.old a) ((l : List Answer) → filled_next q port form tries result buffer.new l ≡ filled_at q port form tries s buffer.old (a ∷ l)) }
{
    let left = s.left;
    let t = s.request;
    let how = How {
        lock: true,
        sequence: q,
    };
    let n = i2c::handshake::step(port, request(form, left), how, t, a);
    from_request(port, q, form, tries, left, buffer, n)
}
