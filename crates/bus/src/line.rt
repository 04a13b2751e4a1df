// The line calls of `Bus`, one access at a time.
#![tactic(auto, using(hardware::proofs::Prog::erase_heard, crate::proofs::Laws::ack_more, crate::proofs::Laws::fewer, crate::proofs::Laws::ltb_leb, crate::proofs::Laws::scl_more, crate::proofs::Laws::fed_held), unfolding(crate::specs::Line::settle_us, crate::specs::Line::access_line, crate::specs::Line::access_at, crate::specs::Line::heard_goal, crate::specs::Line::heard_at, crate::specs::Bus::sda_level, hardware::specs::Prog::pick, crate::specs::Bus::shifted, crate::specs::Line::line_next, crate::specs::Bus::or_held, hardware::specs::Prog::erase, hardware::specs::Registers::reply, crate::specs::Bus::look_seen, crate::specs::Line::valid_line_next, crate::specs::Bus::sample_seen, crate::specs::Line::sensed, crate::specs::Line::rest_line, crate::specs::Line::rest_at, crate::specs::Bus::scl_low, crate::specs::Bus::put, crate::specs::Line::settled, crate::specs::Line::valid_line, crate::specs::Line::valid_goal, hardware::specs::Marks::acknowledged, crate::specs::Bus::ack_tries, crate::specs::Bus::ack_seen, crate::specs::Bus::wait, crate::specs::Bus::sda_seen, hardware::specs::Failures::failure_of, crate::specs::Bus::scl_tries, crate::specs::Bus::scl_seen, crate::specs::Bus::sda_free, crate::specs::Bus::get, crate::specs::Line::reached, crate::specs::Bus::flushing, crate::specs::Bus::sda))]

ghost use Rattle.std.specs.Prelude.{ℕ, ◌≡◌, true, leb, ltb};
ghost use Rattle.hardware.specs.Prog.{erase};
ghost use Rattle.hardware.specs.Registers.{reply};
ghost use Rattle.bus.specs.Bus.{Bus, or_held, look_seen, sample_seen, sda_level, shifted, scl_seen, scl_tries, sda_seen, sda_free, sda, scl_low, heard, ack_seen, ack_tries, flushing};
ghost use Rattle.bus.specs.Line.{settle_us, settled, reached, sensed, ack_down, called, heard_goal, heard_at, access_line, rest_line, line_next, valid_goal, valid_line, valid_line_next, valid_call};
ghost use Rattle.hardware.specs.declared.Next.TheVariants.{Going};

use crate::Layout;
use hardware::{Access, Answer, Error, Micros, Next, R};

#[derive(Clone, Copy)]
pub enum Call {
    Look,
    Sda(bool),
    Release,
    Up,
    Down,
    Wait(u8),
    Sample,
    Ack,
    Close,
}

// What a word is put to I2CCTL for: SDA high, its output enable off, SDA low, SDA released, SCL low with the samples that were
// left when a byte was acknowledged just before it (10 where none was), SCL high with the tries left after this one, the end of
// a stop.
#[derive(Clone, Copy)]
pub enum Goal {
    High,
    Free,
    Low,
    Release,
    Down(u8),
    Up(u16),
    Close,
}

// Ack and Rest: with the samples left after this one. Rise: with the tries left after this one.
#[derive(Clone, Copy)]
pub enum Line {
    Look,
    Pause(u8),
    Sample,
    Ack(u8),
    Rest(u8),
    Write(Goal),
    Flush(Goal),
    Settle(Goal),
    Check,
    Rise(u16),
}

// The control word that the driver holds, and the bits heard so far.
#[derive(Clone, Copy)]
pub struct LineState {
    pub ctl: u32,
    pub bits: u8,
    pub line: Line,
}

pub type LineNext = Next<LineState, (u32, u8, R<()>)>;

pub(crate) fn settle_us(g: Goal) -> u32
    ensures { result ≡ settle_us g }
{
    match g {
        Goal::High => 3,
        Goal::Free => 1,
        Goal::Low => 3,
        Goal::Release => 1,
        Goal::Down(_) => 1,
        Goal::Up(_) => 1,
        Goal::Close => 1,
    }
}

pub fn access(l: Layout, s: LineState) -> Access
    ensures { result ≡ access_line l s }
{
    let line = s.line;
    match line {
        Line::Look => Access::Read(l.reg),
        Line::Pause(us) => Access::Wait(Micros(us as u32)),
        Line::Sample => Access::Read(l.reg),
        Line::Ack(_) => Access::Read(l.reg),
        Line::Rest(_) => Access::Wait(Micros(1)),
        Line::Write(_) => Access::Write(l.reg, s.ctl),
        Line::Flush(_) => Access::Read(hardware::STATUS),
        Line::Settle(g) => Access::Wait(Micros(settle_us(g))),
        Line::Check => Access::Read(l.reg),
        Line::Rise(_) => Access::Read(l.reg),
    }
}

fn heard_goal(g: Goal) -> u8
    ensures { result ≡ heard_goal g }
{
    match g {
        Goal::High => 10,
        Goal::Free => 10,
        Goal::Low => 10,
        Goal::Release => 10,
        Goal::Down(left) => left,
        Goal::Up(_) => 10,
        Goal::Close => 10,
    }
}

// The samples that were left when a byte was acknowledged just before the access; 10 where none was.
pub fn heard(line: Line) -> u8
    ensures { result ≡ heard_at line }
{
    match line {
        Line::Look => 10,
        Line::Pause(_) => 10,
        Line::Sample => 10,
        Line::Ack(_) => 10,
        Line::Rest(_) => 10,
        Line::Write(g) => heard_goal(g),
        Line::Flush(_) => 10,
        Line::Settle(_) => 10,
        Line::Check => 10,
        Line::Rise(_) => 10,
    }
}

// SDA reads high.
pub(crate) fn sda_level(l: Layout, v: u32) -> bool
    ensures { result ≡ sda_level l v }
{
    if hardware::none_of(v, l.sdain) {
        return false;
    }
    true
}

// One more bit, from the right.
pub(crate) fn shift(bits: u8, bit: bool) -> u8
    ensures { result ≡ shifted bits bit }
{
    let left = (bits as u16 * 2 & 254) as u8;
    if bit {
        return left + 1;
    }
    left
}

pub(crate) fn at(ctl: u32, bits: u8, line: Line) -> LineState
    ensures { result ≡ record { ctl = ctl; bits = bits; line = line } }
{
    LineState { ctl, bits, line }
}

fn look_seen(l: Layout, ctl: u32, bits: u8, w: R<u32>) -> LineNext
    ensures yields { (k : ℕ → Bus) → line_next l result k ≡ erase (or_held (look_seen l (k bits)) ctl (reply w)) }
    ensures limits { valid_line_next result ≡ true }
{
    match w {
        Ok(v) => Next::End((v | l.bben, bits, Ok(()))),
        Err(e) => Next::End((ctl, bits, Err(e))),
    }
}

fn sample_seen(l: Layout, ctl: u32, bits: u8, w: R<u32>) -> LineNext
    ensures yields { (k : ℕ → Bus) → line_next l result k ≡ erase (or_held (sample_seen l (sensed bits k)) ctl (reply w)) }
    ensures limits { valid_line_next result ≡ true }
{
    match w {
        Ok(v) => Next::End((ctl, shift(bits, sda_level(l, v)), Ok(()))),
        Err(e) => Next::End((ctl, bits, Err(e))),
    }
}

// SCL goes low, a byte having been acknowledged with so many samples left.
fn down(l: Layout, ctl: u32, bits: u8, left: u8) -> LineState
    ensures yields { (k : ℕ → Bus) → line_next l (Going result) k ≡ erase (heard left (scl_low l (k bits)) ctl) }
    ensures limits { leb left 10 ≡ true → valid_line result.line ≡ true }
    ensures heard { heard_at result.line ≡ left }
{
    at(
        ctl & !(l.sclout | l.scloen),
        bits,
        Line::Write(Goal::Down(left)),
    )
}

// The samples that are left; without one, SDA stayed high.
fn ack_tries(l: Layout, ctl: u32, bits: u8, left: u8) -> LineNext
    ensures yields { (k : ℕ → Bus) → line_next l result k ≡ erase (ack_tries l left (ack_down l bits k) ctl) }
    ensures limits { ltb left 10 ≡ true → valid_line_next result ≡ true }
{
    if left == 0 {
        return Next::Going(down(l, ctl, shift(bits, true), 10));
    }
    Next::Going(at(ctl, bits, Line::Ack(left - 1)))
}

fn ack_seen(l: Layout, ctl: u32, bits: u8, left: u8, w: R<u32>) -> LineNext
    ensures yields { (k : ℕ → Bus) → line_next l result k ≡ erase (or_held (ack_seen l left (ack_tries l left (ack_down l bits k)) (ack_down l bits k)) ctl (reply w)) }
    ensures limits { ltb left 10 ≡ true → valid_line_next result ≡ true }
{
    match w {
        Ok(v) => {
            if hardware::none_of(v, l.sdain) {
                return Next::Going(down(l, ctl, shift(bits, false), left));
            }
            Next::Going(at(ctl, bits, Line::Rest(left)))
        }
        Err(e) => Next::End((ctl, bits, Err(e))),
    }
}

fn sda_seen(l: Layout, ctl: u32, bits: u8, w: R<u32>) -> LineNext
    ensures yields { (k : ℕ → Bus) → line_next l result k ≡ erase (or_held (sda_seen l (k bits)) ctl (reply w)) }
    ensures limits { valid_line_next result ≡ true }
{
    match w {
        Ok(v) => {
            if hardware::none_of(v, l.sdain) {
                return Next::End((ctl, bits, Err(Error::I2c(0))));
            }
            Next::End((ctl, bits, Ok(())))
        }
        Err(e) => Next::End((ctl, bits, Err(e))),
    }
}

// The tries that are left; without one, it goes on with SCL low.
fn scl_tries(l: Layout, ctl: u32, bits: u8, left: u16) -> LineNext
    ensures yields { (k : ℕ → Bus) → line_next l result k ≡ erase (scl_tries l left (k bits) ctl) }
    ensures limits { ltb left 500 ≡ true → valid_line_next result ≡ true }
{
    if left == 0 {
        return Next::End((ctl, bits, Ok(())));
    }
    Next::Going(at(ctl | l.sclout, bits, Line::Write(Goal::Up(left - 1))))
}

fn scl_seen(l: Layout, ctl: u32, bits: u8, left: u16, w: R<u32>) -> LineNext
    ensures yields { (k : ℕ → Bus) → line_next l result k ≡ erase (or_held (scl_seen l (scl_tries l left (k bits)) (k bits)) ctl (reply w)) }
    ensures limits { ltb left 500 ≡ true → valid_line_next result ≡ true }
{
    match w {
        Ok(v) => {
            if hardware::none_of(v, l.sclin) {
                return scl_tries(l, ctl, bits, left);
            }
            Next::End((ctl, bits, Ok(())))
        }
        Err(e) => Next::End((ctl, bits, Err(e))),
    }
}

// SDA was raised: on the X552 and X553 its output enable goes off, then it is looked at.
fn sda_free(l: Layout, ctl: u32, bits: u8) -> LineState
    ensures yields { (k : ℕ → Bus) → line_next l (Going result) k ≡ erase (sda_free l (k bits) ctl) }
    ensures limits { valid_line result.line ≡ true }
{
    if l.sdaoen == 0 {
        return at(ctl, bits, Line::Check);
    }
    at(ctl | l.sdaoen, bits, Line::Write(Goal::Free))
}

// The wait after a word was put is over.
fn reach(l: Layout, ctl: u32, bits: u8, g: Goal) -> LineNext
    ensures yields { (k : ℕ → Bus) → line_next l result k ≡ erase (reached l g (k bits) ctl) }
    ensures limits { valid_goal g ≡ true → valid_line_next result ≡ true }
{
    match g {
        Goal::High => Next::Going(sda_free(l, ctl, bits)),
        Goal::Free => Next::Going(at(ctl, bits, Line::Check)),
        Goal::Low => Next::End((ctl, bits, Ok(()))),
        Goal::Release => Next::End((ctl, bits, Ok(()))),
        Goal::Down(_) => Next::End((ctl, bits, Ok(()))),
        Goal::Up(left) => Next::Going(at(ctl, bits, Line::Rise(left))),
        Goal::Close => Next::End((ctl, bits, Ok(()))),
    }
}

// The word is put: only two goals have no wait.
#[tactic(auto, unfolding(crate::specs::Line::line_next, hardware::specs::Marks::acknowledged, crate::specs::Line::heard_at, crate::specs::Line::heard_goal, crate::specs::Line::access_line, crate::specs::Line::access_at, crate::specs::Line::rest_line, crate::specs::Line::rest_at, hardware::specs::Prog::erase, crate::specs::Line::settled, crate::specs::Bus::get, crate::specs::Line::valid_line_next, crate::specs::Line::valid_line, crate::specs::Bus::or_held, hardware::specs::Registers::reply, crate::specs::Line::settle_us, crate::specs::Bus::wait, crate::specs::Line::reached))]
fn settle(l: Layout, ctl: u32, bits: u8, g: Goal) -> LineNext
    ensures yields { (k : ℕ → Bus) → line_next l result k ≡ erase (settled l g (k bits) ctl) }
    ensures limits { valid_goal g ≡ true → valid_line_next result ≡ true }
{
    match g {
        Goal::Free => Next::Going(at(ctl, bits, Line::Check)),
        Goal::Close => Next::End((ctl, bits, Ok(()))),
        Goal::High => Next::Going(at(ctl, bits, Line::Settle(g))),
        Goal::Low => Next::Going(at(ctl, bits, Line::Settle(g))),
        Goal::Release => Next::Going(at(ctl, bits, Line::Settle(g))),
        Goal::Down(_) => Next::Going(at(ctl, bits, Line::Settle(g))),
        Goal::Up(_) => Next::Going(at(ctl, bits, Line::Settle(g))),
    }
}

fn flush_seen(l: Layout, ctl: u32, bits: u8, g: Goal, o: R<()>) -> LineNext
    ensures yields { (k : ℕ → Bus) → line_next l result k ≡ erase (or_held (λ _. settled l g (k bits)) ctl (reply o)) }
    ensures limits { valid_goal g ≡ true → valid_line_next result ≡ true }
{
    match o {
        Ok(()) => settle(l, ctl, bits, g),
        Err(e) => Next::End((ctl, bits, Err(e))),
    }
}

fn write_seen(l: Layout, ctl: u32, bits: u8, g: Goal, o: R<()>) -> LineNext
    ensures yields { (k : ℕ → Bus) → line_next l result k ≡ erase (or_held (λ _. flushing (settled l g (k bits))) ctl (reply o)) }
    ensures limits { valid_goal g ≡ true → valid_line_next result ≡ true }
{
    match o {
        Ok(()) => Next::Going(at(ctl, bits, Line::Flush(g))),
        Err(e) => Next::End((ctl, bits, Err(e))),
    }
}

pub fn step(l: Layout, s: LineState, a: Answer) -> LineNext
    ensures yields { (k : ℕ → Bus) → line_next l result k ≡ erase (rest_line l s a k) }
    ensures limits { valid_line s.line ≡ true → valid_line_next result ≡ true }
{
    let line = s.line;
    match line {
        Line::Look => look_seen(l, s.ctl, s.bits, hardware::read_raw(a)),
        Line::Pause(_) => Next::End((s.ctl, s.bits, Ok(()))),
        Line::Sample => sample_seen(l, s.ctl, s.bits, hardware::read_raw(a)),
        Line::Ack(left) => ack_seen(l, s.ctl, s.bits, left, hardware::read_raw(a)),
        Line::Rest(left) => ack_tries(l, s.ctl, s.bits, left),
        Line::Write(g) => write_seen(l, s.ctl, s.bits, g, hardware::write(a)),
        Line::Flush(g) => flush_seen(l, s.ctl, s.bits, g, hardware::flush(a)),
        Line::Settle(g) => reach(l, s.ctl, s.bits, g),
        Line::Check => sda_seen(l, s.ctl, s.bits, hardware::read_raw(a)),
        Line::Rise(left) => scl_seen(l, s.ctl, s.bits, left, hardware::read_raw(a)),
    }
}

fn sda(l: Layout, ctl: u32, bits: u8, high: bool) -> LineState
    ensures yields { (k : ℕ → Bus) → line_next l (Going result) k ≡ erase (sda l high (k bits) ctl) }
    ensures limits { valid_line result.line ≡ true }
    ensures heard { heard_at result.line ≡ 10 }
{
    if high {
        return at((ctl | l.sdaout) & !l.sdaoen, bits, Line::Write(Goal::High));
    }
    at(ctl & !l.sdaout & !l.sdaoen, bits, Line::Write(Goal::Low))
}

#[tactic(auto, using(crate::proofs::Laws::ack_open, crate::proofs::Laws::scl_open), unfolding(crate::specs::Line::line_next, hardware::specs::Marks::acknowledged, crate::specs::Line::heard_at, crate::specs::Line::heard_goal, crate::specs::Line::access_line, crate::specs::Line::access_at, crate::specs::Line::rest_line, crate::specs::Line::rest_at, hardware::specs::Prog::erase, crate::specs::Line::called, crate::specs::Bus::look, crate::specs::Bus::get, crate::specs::Line::valid_line, crate::specs::Bus::release_sda, crate::specs::Bus::put, crate::specs::Line::settled, crate::specs::Line::valid_goal, crate::specs::Bus::wait, crate::specs::Line::valid_call, crate::specs::Bus::sample, crate::specs::Bus::close))]
pub fn open(l: Layout, call: Call, ctl: u32, bits: u8) -> LineState
    ensures yields { (k : ℕ → Bus) → line_next l (Going result) k ≡ erase (called l call bits k ctl) }
    ensures limits { valid_call call ≡ true → valid_line result.line ≡ true }
    ensures heard { heard_at result.line ≡ 10 }
{
    match call {
        Call::Look => at(ctl, bits, Line::Look),
        Call::Sda(high) => sda(l, ctl, bits, high),
        Call::Release => at(
            ctl | (l.sdaout | l.sdaoen),
            bits,
            Line::Write(Goal::Release),
        ),
        Call::Up => at(ctl | l.scloen | l.sclout, bits, Line::Write(Goal::Up(499))),
        Call::Down => down(l, ctl, bits, 10),
        Call::Wait(us) => at(ctl, bits, Line::Pause(us)),
        Call::Sample => at(ctl, bits, Line::Sample),
        Call::Ack => at(ctl, bits, Line::Ack(9)),
        Call::Close => at(
            (ctl & !l.bben) | (l.sdaoen | l.scloen),
            bits,
            Line::Write(Goal::Close),
        ),
    }
}

pub(crate) fn valid_goal(g: Goal) -> bool
    ensures { result ≡ valid_goal g }
{
    match g {
        Goal::High => true,
        Goal::Free => true,
        Goal::Low => true,
        Goal::Release => true,
        Goal::Down(left) => left <= 10,
        Goal::Up(left) => left < 500,
        Goal::Close => true,
    }
}

pub fn valid(line: Line) -> bool
    ensures { result ≡ valid_line line }
{
    match line {
        Line::Look => true,
        Line::Pause(us) => us < 6,
        Line::Sample => true,
        Line::Ack(left) => left < 10,
        Line::Rest(left) => left < 10,
        Line::Write(g) => valid_goal(g),
        Line::Flush(g) => valid_goal(g),
        Line::Settle(g) => valid_goal(g),
        Line::Check => true,
        Line::Rise(left) => left < 500,
    }
}
