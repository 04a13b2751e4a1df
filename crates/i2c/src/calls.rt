// The stepwise calls of `read_byte`, `write_byte`, `read_combined` and `write_combined`, and of `qsfp_setup`.
#![tactic(auto, using(bus::proofs::Laws::picked, hardware::proofs::Prog::asked_on, hardware::proofs::Prog::going_on, crate::proofs::Laws::fits_valid, crate::proofs::Laws::limit_most, crate::proofs::Laws::operands_on, hardware::proofs::Laws::held_blank, hardware::proofs::Laws::opened_valid, hardware::proofs::Prog::over_tally, crate::proofs::Laws::limit_allows, crate::proofs::Laws::limit_room, crate::proofs::Moves::transfer_on, crate::proofs::Moves::went_map, bus::proofs::Laws::picked_first, bus::proofs::Laws::picked_second, hardware::proofs::Laws::admits_no, hardware::proofs::Laws::admits_valid, hardware::proofs::Laws::admits_yes, crate::proofs::Laws::fits_below, crate::proofs::Laws::valid_fits), unfolding(crate::specs::Calls::limit_of, crate::specs::Calls::even_device, crate::specs::Calls::said_transfer, crate::specs::Calls::rest_call, crate::specs::Handshake::handshake_next, crate::specs::Calls::stands_transfer, crate::specs::Calls::valid_call, crate::specs::Handshake::valid_handshake_next, crate::specs::Handshake::due_handshake_next, hardware::specs::Prog::followed, crate::specs::I2c::gives_value, hardware::specs::Prog::erase, hardware::specs::Prog::tally, crate::specs::Calls::tries_of, crate::specs::Calls::open_transfer, hardware::specs::Asked::and_then, hardware::specs::Asked::opened, hardware::specs::Asked::question, crate::specs::I2c::transferred, crate::specs::Calls::valid_operands, hardware::specs::Prog::pick, crate::specs::Direct::WentBy, crate::specs::Calls::step_transfer, crate::specs::Calls::said_setup, hardware::specs::Change::update_next, crate::specs::Calls::stands_setup, hardware::specs::Change::access_update, hardware::specs::Change::rest_update, hardware::specs::Change::change, crate::specs::Calls::step_setup))]

ghost use Rattle.std.specs.Prelude.{◌+◌, ◌<◌, ◌≤◌, ◌≡◌, true, Ok, Some};
ghost use Rattle.hardware.specs.Asked.{yes};
ghost use Rattle.hardware.specs.Promise.{Keeps};
ghost use Rattle.hardware.specs.Prog.{erase, followed, tally};
ghost use Rattle.hardware.specs.Marks.{FULL};
ghost use Rattle.hardware.specs.Change.{update_next, change};
ghost use Rattle.i2c.specs.I2c.{making, by_default, gives_value, setup_bus};
ghost use Rattle.i2c.specs.Handshake.{handshake_next, due_handshake_next, valid_handshake_next};
ghost use Rattle.i2c.specs.Calls.{limit_of, tries_of, even_device, valid_operands, valid_call, open_transfer, step_transfer, said_transfer, stands_transfer, step_setup, said_setup, stands_setup};
ghost use Rattle.i2c.specs.Direct.{WentBy};
ghost use Rattle.hardware.specs.declared.Told.TheVariants.{Ask};

use crate::How;
use crate::handshake::{Handshake, HandshakeNext};
use crate::once::Request;
use hardware::change::{Bits, Change};
use hardware::{
    Access, Answer, BLANK, ESDP, Meter, Next, Port, R, Refusal, Told, Update, UpdateNext,
};
use transfer::attempt::Sequence;

// The state of a call, none once it is over: the request, how it is made and the meter stand beside the machine's.
pub type TransferCall = Option<(Port, Request, How, Meter, Handshake)>;

// The end: the value, and the meter.
pub type TransferTold = Result<Told<TransferCall, (R<u32>, Meter)>, Refusal>;

// The state of a call, none once it is over.
pub type SetupCall = Option<Update>;

pub type SetupTold = Result<Told<SetupCall, R<()>>, Refusal>;

// The most attempts of a call.
pub fn limit(r: Request) -> u32
    ensures { result ≡ limit_of r }
{
    match r {
        Request::ReadByte(_, _) => 255,
        Request::WriteByte(_, _, _) => 2,
        Request::ReadCombined(_, _) => 4,
        Request::WriteCombined(_, _, _) => 2,
    }
}

fn even(r: Request) -> bool
    ensures { result ≡ even_device r }
{
    crate::once::device(r) % 2 == 0
}

fn told(port: Port, r: Request, how: How, m: Meter, n: HandshakeNext) -> TransferTold
    ensures { Keeps (m.transfers < FULL → said_transfer result ≡ yes (tally m (followed (handshake_next port r how n) (gives_value r)))) (valid_operands port r m ≡ true → valid_handshake_next (limit_of r) port r n ≡ true → m.transfers + due_handshake_next r n ≤ limit_of r → stands_transfer result) }
{
    match n {
        Next::Going((k, s)) => Ok(Told::Ask(
            crate::handshake::access(port, s),
            Some((port, r, how, hardware::meter_on(k, m), s)),
        )),
        Next::End(g) => Ok(Told::End((crate::once::value(r, g), m))),
    }
}

// The attempts of a read; a write makes two.
fn tries(r: Request, attempts: u8) -> u8
    ensures { result ≡ tries_of r attempts }
{
    match r {
        Request::ReadByte(_, _) => attempts,
        Request::WriteByte(_, _, _) => 2,
        Request::ReadCombined(_, _) => 4,
        Request::WriteCombined(_, _, _) => 2,
    }
}

// Questions 1 to 4.
fn opened(family: u32, device: u16, lan: u32, r: Request, attempts: u32, how: How) -> TransferTold
    ensures { Keeps (said_transfer result ≡ open_transfer family device lan r attempts how) (stands_transfer result) }
{
    let p = hardware::open_port(family, device, lan)?;
    if even(r) {
        if attempts <= 255 {
            return told(
                p,
                r,
                how,
                BLANK,
                crate::handshake::open(p, r, how, tries(r, attempts as u8)),
            );
        }
        return Err(Refusal::Attempts);
    }
    Err(Refusal::Device)
}

// The same, where no sequence is named.
fn open(family: u32, device: u16, lan: u32, r: Request, attempts: u32, lock: bool) -> TransferTold
    ensures { Keeps (said_transfer result ≡ open_transfer family device lan r attempts (by_default lock)) (stands_transfer result) }
{
    let how = How {
        lock,
        sequence: crate::standard(),
    };
    opened(family, device, lan, r, attempts, how)
}

// address: the I2C device, as it is sent to write.
pub fn read_byte_open(
    family: u32,
    device: u16,
    lan: u32,
    address: u8,
    offset: u8,
    attempts: u32,
    lock: bool,
) -> TransferTold
    ensures { Keeps (said_transfer result ≡ open_transfer family device lan (Request.ReadByte address offset) attempts (by_default lock)) (stands_transfer result) }
{
    open(
        family,
        device,
        lan,
        Request::ReadByte(address, offset),
        attempts,
        lock,
    )
}

pub fn write_byte_open(
    family: u32,
    device: u16,
    lan: u32,
    address: u8,
    offset: u8,
    value: u8,
    lock: bool,
) -> TransferTold
    ensures { Keeps (said_transfer result ≡ open_transfer family device lan (Request.WriteByte address offset value) 0 (by_default lock)) (stands_transfer result) }
{
    open(
        family,
        device,
        lan,
        Request::WriteByte(address, offset, value),
        0,
        lock,
    )
}

pub fn read_combined_open(
    family: u32,
    device: u16,
    lan: u32,
    address: u8,
    reg: u16,
    lock: bool,
) -> TransferTold
    ensures { Keeps (said_transfer result ≡ open_transfer family device lan (Request.ReadCombined address reg) 0 (by_default lock)) (stands_transfer result) }
{
    open(
        family,
        device,
        lan,
        Request::ReadCombined(address, reg),
        0,
        lock,
    )
}

pub fn write_combined_open(
    family: u32,
    device: u16,
    lan: u32,
    address: u8,
    reg: u16,
    value: u16,
    lock: bool,
) -> TransferTold
    ensures { Keeps (said_transfer result ≡ open_transfer family device lan (Request.WriteCombined address reg value) 0 (by_default lock)) (stands_transfer result) }
{
    open(
        family,
        device,
        lan,
        Request::WriteCombined(address, reg, value),
        0,
        lock,
    )
}

// The four with a clearing sequence by its name.
pub fn read_byte_open_with(
    family: u32,
    device: u16,
    lan: u32,
    address: u8,
    offset: u8,
    attempts: u32,
    lock: bool,
    sequence: Sequence,
) -> TransferTold
    ensures { Keeps (said_transfer result ≡ open_transfer family device lan (Request.ReadByte address offset) attempts (making lock sequence)) (stands_transfer result) }
{
    opened(
        family,
        device,
        lan,
        Request::ReadByte(address, offset),
        attempts,
        How { lock, sequence },
    )
}

pub fn write_byte_open_with(
    family: u32,
    device: u16,
    lan: u32,
    address: u8,
    offset: u8,
    value: u8,
    lock: bool,
    sequence: Sequence,
) -> TransferTold
    ensures { Keeps (said_transfer result ≡ open_transfer family device lan (Request.WriteByte address offset value) 0 (making lock sequence)) (stands_transfer result) }
{
    opened(
        family,
        device,
        lan,
        Request::WriteByte(address, offset, value),
        0,
        How { lock, sequence },
    )
}

pub fn read_combined_open_with(
    family: u32,
    device: u16,
    lan: u32,
    address: u8,
    reg: u16,
    lock: bool,
    sequence: Sequence,
) -> TransferTold
    ensures { Keeps (said_transfer result ≡ open_transfer family device lan (Request.ReadCombined address reg) 0 (making lock sequence)) (stands_transfer result) }
{
    opened(
        family,
        device,
        lan,
        Request::ReadCombined(address, reg),
        0,
        How { lock, sequence },
    )
}

pub fn write_combined_open_with(
    family: u32,
    device: u16,
    lan: u32,
    address: u8,
    reg: u16,
    value: u16,
    lock: bool,
    sequence: Sequence,
) -> TransferTold
    ensures { Keeps (said_transfer result ≡ open_transfer family device lan (Request.WriteCombined address reg value) 0 (making lock sequence)) (stands_transfer result) }
{
    opened(
        family,
        device,
        lan,
        Request::WriteCombined(address, reg, value),
        0,
        How { lock, sequence },
    )
}

// A state's port and device are such as an opening gives, and its meter's sample is one of ten.
pub fn valid_operands(port: Port, r: Request, m: Meter) -> bool
    ensures { result ≡ valid_operands port r m }
{
    if hardware::valid_held(port, m) {
        return even(r);
    }
    false
}

fn valid(port: Port, r: Request, m: Meter, t: Handshake) -> bool
    ensures { result ≡ valid_call port r m t }
{
    if valid_operands(port, r, m) {
        let most = limit(r);
        return crate::handshake::valid_request(port, r, most, most, m, t);
    }
    false
}

// A step inside a command.
fn direct(port: Port, r: Request, m: Meter, t: Handshake, a: Answer) -> Option<(Access, Handshake)>
    ensures { WentBy (λ x g. (how : How) → Keeps (said_transfer (Ok (Ask x (Some (port, r, how, m, g)))) ≡ step_transfer (Some (port, r, how, m, t)) a) (stands_transfer (Ok (Ask x (Some (port, r, how, m, g)))))) result }
{
    if valid_operands(port, r, m) {
        let most = limit(r);
        return crate::direct::request(port, r, most, most, m, t, a);
    }
    None
}

// Questions 10 to 12, of each of the four, one after the other.
pub fn plain(s: TransferCall, a: Answer) -> TransferTold
    ensures { Keeps (said_transfer result ≡ step_transfer s a) (stands_transfer result) }
{
    let (port, r, how, m, t) = s.ok_or(Refusal::Finished)?;
    hardware::admit(valid(port, r, m, t), crate::handshake::access(port, t), a)?;
    told(port, r, how, m, crate::handshake::step(port, r, how, t, a))
}

// The same: the direct way where there is one, else the plain one.
#[tactic(auto, unfolding(crate::specs::Direct::WentBy))]
pub fn transfer_step(s: TransferCall, a: Answer) -> TransferTold
    ensures { Keeps (said_transfer result ≡ step_transfer s a) (stands_transfer result) }
{
    if let Some((port, r, how, m, t)) = s {
        if let Some((x, g)) = direct(port, r, m, t, a) {
            return Ok(Told::Ask(x, Some((port, r, how, m, g))));
        }
    }
    let n = plain(s, a);
    n
}

fn setup_bus() -> Change
    ensures { result ≡ setup_bus }
{
    Change {
        register: ESDP,
        bits: Bits::SetClear(0x100, 0x3_0201),
        flushed: true,
    }
}

fn setup_told(n: UpdateNext) -> SetupTold
    ensures { Keeps (said_setup result ≡ yes (update_next setup_bus n)) (stands_setup result) }
{
    match n {
        Next::Going(u) => Ok(Told::Ask(hardware::change::access(setup_bus(), u), Some(u))),
        Next::End(o) => Ok(Told::End(o)),
    }
}

pub fn qsfp_setup_open() -> SetupTold
    ensures { Keeps (said_setup result ≡ yes (erase (change setup_bus))) (stands_setup result) }
{
    setup_told(Next::Going(Update::Reading))
}

pub fn qsfp_setup_step(s: SetupCall, a: Answer) -> SetupTold
    ensures { Keeps (said_setup result ≡ step_setup s a) (stands_setup result) }
{
    let u = s.ok_or(Refusal::Finished)?;
    hardware::admit(true, hardware::change::access(setup_bus(), u), a)?;
    setup_told(hardware::change::step(setup_bus(), u, a))
}
