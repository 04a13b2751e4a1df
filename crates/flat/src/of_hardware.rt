// States of `hardware` as numbers, and back. Written by `derive`.
ghost use Rattle.std.specs.Prelude.{◌≡◌};
ghost use Rattle.flat.specs.Hardware.{flat_family, the_family, flat_port, the_port, flat_meter, the_meter, flat_update, the_update, flat_poll, the_poll, flat_error, the_error, flat_outcome, the_outcome, flat_byte, the_byte, flat_flag, the_flag};

#[repr(C)]
#[derive(Clone, Copy)]
pub struct PortFlat {
    pub b0: u8,
    pub b1: u8,
    pub h0: u16,
}

#[repr(C)]
#[derive(Clone, Copy)]
pub struct MeterFlat {
    pub b0: u8,
    pub w0: u32,
}

#[repr(C)]
#[derive(Clone, Copy)]
pub struct UpdateFlat {
    pub tag: u8,
    pub w0: u32,
}

#[repr(C)]
#[derive(Clone, Copy)]
pub struct PollFlat {
    pub tag: u8,
    pub w0: u32,
    pub w1: u32,
}

#[repr(C)]
#[derive(Clone, Copy)]
pub struct ErrorFlat {
    pub tag: u8,
    pub b1: u8,
    pub b2: u8,
    pub w0: u32,
}

#[repr(C)]
#[derive(Clone, Copy)]
pub struct OutcomeFlat {
    pub tag: u8,
    pub b1: u8,
    pub b2: u8,
    pub b3: u8,
    pub w0: u32,
}

#[repr(C)]
#[derive(Clone, Copy)]
pub struct ByteFlat {
    pub tag: u8,
    pub b1: u8,
    pub b2: u8,
    pub b3: u8,
    pub w0: u32,
}

#[repr(C)]
#[derive(Clone, Copy)]
pub struct FlagFlat {
    pub tag: u8,
    pub b1: u8,
    pub b2: u8,
    pub b3: u8,
    pub w0: u32,
}

#[tactic(auto, unfolding(crate::specs::Hardware::flat_family))]
pub fn of_family(s: hardware::Family) -> u8
    ensures { result ≡ flat_family s }
{
    match s {
        hardware::Family::F82599 => 0,
        hardware::Family::X540 => 1,
        hardware::Family::X550 => 2,
        hardware::Family::X552 => 3,
        hardware::Family::X553 => 4,
    }
}

#[tactic(auto, unfolding(crate::specs::Hardware::the_family))]
pub fn family(b: u8) -> hardware::Family
    ensures { result ≡ the_family b }
{
    match b {
        0 => hardware::Family::F82599,
        1 => hardware::Family::X540,
        2 => hardware::Family::X550,
        3 => hardware::Family::X552,
        _ => hardware::Family::X553,
    }
}

#[tactic(auto, unfolding(crate::specs::Hardware::flat_port))]
pub fn of_port(s: hardware::Port) -> PortFlat
    ensures { result ≡ flat_port s }
{
    let p0 = s.family;
    let q0 = of_family(p0);
    PortFlat {
        b0: q0,
        b1: s.lan,
        h0: s.device,
    }
}

#[tactic(auto, unfolding(crate::specs::Hardware::the_port))]
pub fn port(b: PortFlat) -> hardware::Port
    ensures { result ≡ the_port b }
{
    let p0 = family(b.b0);
    hardware::Port {
        family: p0,
        device: b.h0,
        lan: b.b1,
    }
}

#[tactic(auto, unfolding(crate::specs::Hardware::flat_meter))]
pub fn of_meter(s: hardware::Meter) -> MeterFlat
    ensures { result ≡ flat_meter s }
{
    MeterFlat {
        b0: s.slowest,
        w0: s.transfers,
    }
}

#[tactic(auto, unfolding(crate::specs::Hardware::the_meter))]
pub fn meter(b: MeterFlat) -> hardware::Meter
    ensures { result ≡ the_meter b }
{
    hardware::Meter {
        transfers: b.w0,
        slowest: b.b0,
    }
}

#[tactic(auto, unfolding(crate::specs::Hardware::flat_update))]
pub fn of_update(s: hardware::Update) -> UpdateFlat
    ensures { result ≡ flat_update s }
{
    match s {
        hardware::Update::Reading => UpdateFlat { tag: 0, w0: 0 },
        hardware::Update::Writing(x0) => UpdateFlat { tag: 1, w0: x0 },
        hardware::Update::Flushing => UpdateFlat { tag: 2, w0: 0 },
    }
}

#[tactic(auto, unfolding(crate::specs::Hardware::the_update))]
pub fn update(b: UpdateFlat) -> hardware::Update
    ensures { result ≡ the_update b }
{
    let tag = b.tag;
    match tag {
        0 => hardware::Update::Reading,
        1 => hardware::Update::Writing(b.w0),
        _ => hardware::Update::Flushing,
    }
}

#[tactic(auto, unfolding(crate::specs::Hardware::flat_poll))]
pub fn of_poll(s: hardware::poll::Poll) -> PollFlat
    ensures { result ≡ flat_poll s }
{
    match s {
        hardware::poll::Poll::Reading(x0) => PollFlat {
            tag: 0,
            w0: x0,
            w1: 0,
        },
        hardware::poll::Poll::Waiting(x0, x1) => PollFlat {
            tag: 1,
            w0: x0,
            w1: x1,
        },
    }
}

#[tactic(auto, unfolding(crate::specs::Hardware::the_poll))]
pub fn poll(b: PollFlat) -> hardware::poll::Poll
    ensures { result ≡ the_poll b }
{
    let tag = b.tag;
    match tag {
        0 => hardware::poll::Poll::Reading(b.w0),
        _ => hardware::poll::Poll::Waiting(b.w0, b.w1),
    }
}

#[tactic(auto, unfolding(crate::specs::Hardware::flat_error))]
pub fn of_error(s: hardware::Error) -> ErrorFlat
    ensures { result ≡ flat_error s }
{
    match s {
        hardware::Error::Io => ErrorFlat {
            tag: 0,
            b1: 0,
            b2: 0,
            w0: 0,
        },
        hardware::Error::Removed => ErrorFlat {
            tag: 1,
            b1: 0,
            b2: 0,
            w0: 0,
        },
        hardware::Error::Semaphore(x0) => ErrorFlat {
            tag: 2,
            b1: 0,
            b2: 0,
            w0: x0,
        },
        hardware::Error::I2c(x0) => ErrorFlat {
            tag: 3,
            b1: x0,
            b2: 0,
            w0: 0,
        },
        hardware::Error::HostInterface(x0) => ErrorFlat {
            tag: 4,
            b1: 0,
            b2: 0,
            w0: x0,
        },
        hardware::Error::Firmware(x0, x1) => ErrorFlat {
            tag: 5,
            b1: x0,
            b2: x1,
            w0: 0,
        },
    }
}

#[tactic(auto, unfolding(crate::specs::Hardware::the_error))]
pub fn error(b: ErrorFlat) -> hardware::Error
    ensures { result ≡ the_error b }
{
    let tag = b.tag;
    match tag {
        0 => hardware::Error::Io,
        1 => hardware::Error::Removed,
        2 => hardware::Error::Semaphore(b.w0),
        3 => hardware::Error::I2c(b.b1),
        4 => hardware::Error::HostInterface(b.w0),
        _ => hardware::Error::Firmware(b.b1, b.b2),
    }
}

#[tactic(auto, unfolding(crate::specs::Hardware::flat_outcome))]
pub fn of_outcome(s: hardware::R<()>) -> OutcomeFlat
    ensures { result ≡ flat_outcome s }
{
    match s {
        Ok(()) => OutcomeFlat {
            tag: 0,
            b1: 0,
            b2: 0,
            b3: 0,
            w0: 0,
        },
        Err(x0) => {
            let q0 = of_error(x0);
            OutcomeFlat {
                tag: 1,
                b1: q0.tag,
                b2: q0.b1,
                b3: q0.b2,
                w0: q0.w0,
            }
        },
    }
}

#[tactic(auto, unfolding(crate::specs::Hardware::the_outcome))]
pub fn outcome(b: OutcomeFlat) -> hardware::R<()>
    ensures { result ≡ the_outcome b }
{
    let tag = b.tag;
    match tag {
        0 => Ok(()),
        _ => Err(error(ErrorFlat {
            tag: b.b1,
            b1: b.b2,
            b2: b.b3,
            w0: b.w0,
        })),
    }
}

#[tactic(auto, unfolding(crate::specs::Hardware::flat_byte))]
pub fn of_byte(s: hardware::R<u8>) -> ByteFlat
    ensures { result ≡ flat_byte s }
{
    match s {
        Ok(x0) => ByteFlat {
            tag: 0,
            b1: x0,
            b2: 0,
            b3: 0,
            w0: 0,
        },
        Err(x0) => {
            let q0 = of_error(x0);
            ByteFlat {
                tag: 1,
                b1: q0.tag,
                b2: q0.b1,
                b3: q0.b2,
                w0: q0.w0,
            }
        },
    }
}

#[tactic(auto, unfolding(crate::specs::Hardware::the_byte))]
pub fn byte(b: ByteFlat) -> hardware::R<u8>
    ensures { result ≡ the_byte b }
{
    let tag = b.tag;
    match tag {
        0 => Ok(b.b1),
        _ => Err(error(ErrorFlat {
            tag: b.b1,
            b1: b.b2,
            b2: b.b3,
            w0: b.w0,
        })),
    }
}

#[tactic(auto, unfolding(crate::specs::Hardware::flat_flag))]
pub fn of_flag(s: hardware::R<bool>) -> FlagFlat
    ensures { result ≡ flat_flag s }
{
    match s {
        Ok(x0) => FlagFlat {
            tag: 0,
            b1: crate::bit(x0),
            b2: 0,
            b3: 0,
            w0: 0,
        },
        Err(x0) => {
            let q0 = of_error(x0);
            FlagFlat {
                tag: 1,
                b1: q0.tag,
                b2: q0.b1,
                b3: q0.b2,
                w0: q0.w0,
            }
        },
    }
}

#[tactic(auto, unfolding(crate::specs::Hardware::the_flag))]
pub fn flag(b: FlagFlat) -> hardware::R<bool>
    ensures { result ≡ the_flag b }
{
    let tag = b.tag;
    match tag {
        0 => Ok(crate::set(b.b1)),
        _ => Err(error(ErrorFlat {
            tag: b.b1,
            b1: b.b2,
            b2: b.b3,
            w0: b.w0,
        })),
    }
}
