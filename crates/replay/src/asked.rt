// What a case asks of the port.
use crate::calls::Summary;
use crate::host::Host;
use crate::{calls, levels, lights, methods, modules, pages, plain, scripts, transfers};
use transfer::attempt::Sequence;

// A port by its numbers; the clearing sequence by name, None for the call that takes the default one; and what else the call
// takes.
#[derive(Clone, Copy)]
pub struct Asked {
    pub family: u32,
    pub device: u16,
    pub lan: u32,
    pub sequence: Option<Sequence>,
    pub a: u32,
    pub b: u32,
    pub c: u32,
}

#[derive(Clone, Copy, PartialEq, Eq)]
pub enum Call {
    Lock,
    Unlock,
    Acquire,
    Release,
    Command,
    Token,
    Regs,
    Bits,
    Phy,
    QsfpSetup,
    ReadByte,
    WriteByte,
    ReadCombined,
    WriteCombined,
    Script,
    OnesAdd,
    Port,
    Identify,
    IdentifyQsfp,
    SoftRateSelect,
    Method,
    Page,
    QsfpPage,
    Light,
    Levels,
}

// A line that is no case.
#[derive(Clone, Copy, PartialEq, Eq)]
pub struct Malformed;

impl TryFrom<u32> for Call {
    type Error = Malformed;

    fn try_from(number: u32) -> Result<Self, Malformed> {
        Ok(match number {
            0 => Call::Lock,
            1 => Call::Unlock,
            2 => Call::Acquire,
            3 => Call::Release,
            4 => Call::Command,
            5 => Call::Token,
            6 => Call::Regs,
            7 => Call::Bits,
            8 => Call::Phy,
            10 => Call::QsfpSetup,
            11 => Call::ReadByte,
            12 => Call::WriteByte,
            13 => Call::ReadCombined,
            14 => Call::WriteCombined,
            15 => Call::Script,
            16 => Call::OnesAdd,
            17 => Call::Port,
            20 => Call::Identify,
            21 => Call::IdentifyQsfp,
            22 => Call::SoftRateSelect,
            23 => Call::Method,
            24 => Call::Page,
            25 => Call::QsfpPage,
            26 => Call::Light,
            27 => Call::Levels,
            _ => return Err(Malformed),
        })
    }
}

impl Call {
    // Whether there is such a call with the default sequence.
    pub(crate) fn clears(self) -> bool {
        match self {
            Call::ReadByte
            | Call::WriteByte
            | Call::ReadCombined
            | Call::WriteCombined
            | Call::Identify
            | Call::IdentifyQsfp
            | Call::SoftRateSelect
            | Call::Page
            | Call::QsfpPage
            | Call::Light => true,
            _ => false,
        }
    }

    // Its result. None where it is refused or too long.
    pub(crate) fn run(self, host: &mut Host, q: Asked) -> Option<Summary> {
        match self {
            Call::Lock => calls::lock(host, q),
            Call::Unlock => calls::unlock(host, q),
            Call::Acquire => calls::acquire(host, q),
            Call::Release => calls::release(host, q),
            Call::Command => calls::command(host, q),
            Call::Token => calls::token(host, q),
            Call::Regs => plain::regs(q),
            Call::Bits => plain::bits(q),
            Call::Phy => plain::phy(q),
            Call::QsfpSetup => transfers::qsfp_setup(host),
            Call::ReadByte => transfers::read_byte(host, q),
            Call::WriteByte => transfers::write_byte(host, q),
            Call::ReadCombined => transfers::read_combined(host, q),
            Call::WriteCombined => transfers::write_combined(host, q),
            Call::Script => scripts::script(host, q),
            Call::OnesAdd => plain::ones_add(q),
            Call::Port => plain::port(q),
            Call::Identify => modules::identify(host, q),
            Call::IdentifyQsfp => modules::identify_qsfp(host, q),
            Call::SoftRateSelect => modules::soft_rate_select(host, q),
            Call::Method => methods::method(q),
            Call::Page => pages::page(host, q),
            Call::QsfpPage => pages::qsfp_page(host, q),
            Call::Light => lights::light(host, q),
            Call::Levels => levels::levels(q),
        }
    }
}
