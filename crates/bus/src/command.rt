// A command of a transfer as a list of line calls, indexed by the number of calls after the one that is given.
#![tactic(auto, using(crate::proofs::Laws::pulse_first, crate::proofs::Laws::sense_first, crate::proofs::Laws::ack_first, crate::proofs::Laws::start_first, crate::proofs::Laws::stop_first, crate::proofs::Laws::probe_first), unfolding(crate::specs::Bus::bit_of, crate::specs::Command::pulse_call, crate::specs::Command::out_bit_call, hardware::specs::Prog::pick, crate::specs::Command::sense_call, crate::specs::Command::ack_call, crate::specs::Command::start_call, crate::specs::Command::stop_call, crate::specs::Command::send_call, crate::specs::Command::read_call, crate::specs::Command::pulses_call, crate::specs::Command::probe_call, crate::specs::Command::free_call, crate::specs::Command::end_call, crate::specs::Command::call_at, crate::specs::Command::stop_count, crate::specs::Command::free_count, crate::specs::Command::call_count))]

ghost use Rattle.std.specs.Prelude.{◌<◌, ◌≡◌};
ghost use Rattle.bus.specs.Bus.{bit_of};
ghost use Rattle.bus.specs.Command.{pulse_call, out_bit_call, sense_call, ack_call, start_call, stop_call, send_call, read_call, pulses_call, probe_call, free_call, end_call, call_at, stop_count, free_count, call_count};

use crate::Layout;
use crate::line::Call;

// A piece of a clearing sequence. Pulses: SDA released and nine pulses. Probe: SDA released, SCL raised and SDA read. Lower: SCL
// lowered. Pull: SDA pulled before it.
#[derive(Clone, Copy)]
pub enum Piece {
    Pulses,
    Probe,
    Lower,
    Pull,
}

// Read holds the level of the acknowledge bit, false where the byte is acknowledged. Free stands in no script.
#[derive(Clone, Copy)]
pub enum Command {
    Start,
    Send(u8),
    Read(bool),
    Stop,
    Free(Piece),
}

fn bit(byte: u8, n: u8) -> bool
    requires { n < 64 }
    ensures { result ≡ bit_of byte n }
{
    (byte as u64 >> n) % 2 == 1
}

fn pulse(n: u8) -> Call
    ensures { result ≡ pulse_call n }
{
    match n {
        0 => Call::Wait(5),
        1 => Call::Down,
        2 => Call::Wait(4),
        _ => Call::Up,
    }
}

fn out_bit(high: bool, n: u8) -> Call
    ensures { result ≡ out_bit_call high n }
{
    if n < 4 {
        return pulse(n);
    }
    Call::Sda(high)
}

fn sense(n: u8) -> Call
    ensures { result ≡ sense_call n }
{
    match n {
        0 => Call::Wait(5),
        1 => Call::Down,
        2 => Call::Sample,
        3 => Call::Wait(4),
        4 => Call::Up,
        _ => Call::Release,
    }
}

fn ack(n: u8) -> Call
    ensures { result ≡ ack_call n }
{
    match n {
        0 => Call::Wait(5),
        1 => Call::Ack,
        2 => Call::Wait(4),
        3 => Call::Up,
        _ => Call::Release,
    }
}

fn start(n: u8) -> Call
    ensures { result ≡ start_call n }
{
    match n {
        0 => Call::Wait(5),
        1 => Call::Down,
        2 => Call::Wait(4),
        3 => Call::Sda(false),
        4 => Call::Wait(5),
        5 => Call::Up,
        6 => Call::Sda(true),
        _ => Call::Look,
    }
}

fn stop(n: u8) -> Call
    ensures { result ≡ stop_call n }
{
    match n {
        0 => Call::Wait(5),
        1 => Call::Sda(true),
        2 => Call::Wait(4),
        3 => Call::Up,
        _ => Call::Sda(false),
    }
}

fn send(byte: u8, n: u8) -> Call
    ensures { result ≡ send_call byte n }
{
    if n < 5 {
        return ack(n);
    }
    let m = n - 5;
    out_bit(bit(byte, m / 5), m % 5)
}

fn read(high: bool, n: u8) -> Call
    ensures { result ≡ read_call high n }
{
    if n < 5 {
        return out_bit(high, n);
    }
    sense((n - 5) % 6)
}

fn pulses(n: u8) -> Call
    ensures { result ≡ pulses_call n }
{
    if n < 36 {
        return pulse(n % 4);
    }
    Call::Release
}

fn probe(n: u8) -> Call
    ensures { result ≡ probe_call n }
{
    match n {
        0 => Call::Sample,
        1 => Call::Wait(4),
        2 => Call::Up,
        _ => Call::Release,
    }
}

fn free(p: Piece, n: u8) -> Call
    ensures { result ≡ free_call p n }
{
    match p {
        Piece::Pulses => pulses(n),
        Piece::Probe => probe(n),
        Piece::Lower => start(n),
        Piece::Pull => start(n),
    }
}

// On the X552 and X553 a stop has one call more, the word that ends bit-banging.
fn end(l: Layout, n: u8) -> Call
    ensures { result ≡ end_call l n }
{
    if l.bben == 0 {
        return stop(n);
    }
    if n == 0 {
        return Call::Close;
    }
    stop(n - 1)
}

pub fn call(l: Layout, c: Command, n: u8) -> Call
    ensures { result ≡ call_at l c n }
{
    match c {
        Command::Start => start(n),
        Command::Send(byte) => send(byte, n),
        Command::Read(high) => read(high, n),
        Command::Stop => end(l, n),
        Command::Free(p) => free(p, n),
    }
}

fn stop_count(l: Layout) -> u8
    ensures { result ≡ stop_count l }
{
    if l.bben == 0 {
        return 5;
    }
    6
}

fn free_count(p: Piece) -> u8
    ensures { result ≡ free_count p }
{
    match p {
        Piece::Pulses => 37,
        Piece::Probe => 4,
        Piece::Lower => 2,
        Piece::Pull => 4,
    }
}

pub fn count(l: Layout, c: Command) -> u8
    ensures { result ≡ call_count l c }
{
    match c {
        Command::Start => 8,
        Command::Send(_) => 45,
        Command::Read(_) => 53,
        Command::Stop => stop_count(l),
        Command::Free(p) => free_count(p),
    }
}
