// The calls of the module's bus, each run to its end.
use crate::asked::Asked;
use crate::calls;
use crate::calls::Summary;
use crate::host::Host;
use hardware::{R, Told};
use i2c::calls::TransferTold;
use std::ops::ControlFlow;

impl From<R<u32>> for Summary {
    fn from(w: R<u32>) -> Self {
        match w {
            Ok(v) => Summary::good([v, 0, 0]),
            Err(e) => Summary::from(e),
        }
    }
}

// A transfer's numbers: the address a, and the halves of b. low is the offset or register, high the attempts or the value.
#[derive(Clone, Copy)]
struct Transfer {
    address: u8,
    low: u16,
    high: u16,
    lock: bool,
}

impl Transfer {
    fn of(q: Asked) -> Option<Self> {
        Some(Transfer {
            address: u8::try_from(q.a).ok()?,
            low: (q.b & 0xffff) as u16,
            high: (q.b >> 16) as u16,
            lock: q.c == 1,
        })
    }
}

// The meter goes with every result.
fn run(host: &mut Host, first: TransferTold) -> Option<Summary> {
    calls::run(first, |told| match told {
        Ok(Told::Ask(x, s)) => {
            ControlFlow::Continue(i2c::calls::transfer_step(s, host.answer(x)))
        }
        Ok(Told::End((w, m))) => ControlFlow::Break(Some(Summary::from(w).metered(m))),
        Err(_) => ControlFlow::Break(None),
    })
}

pub(crate) fn read_byte(host: &mut Host, q: Asked) -> Option<Summary> {
    let t = Transfer::of(q)?;
    let offset = u8::try_from(t.low).ok()?;
    let attempts = u32::from(t.high);
    let first = match q.sequence {
        None => i2c::calls::read_byte_open(
            q.family, q.device, q.lan, t.address, offset, attempts, t.lock,
        ),
        Some(s) => i2c::calls::read_byte_open_with(
            q.family, q.device, q.lan, t.address, offset, attempts, t.lock, s,
        ),
    };
    run(host, first)
}

pub(crate) fn write_byte(host: &mut Host, q: Asked) -> Option<Summary> {
    let t = Transfer::of(q)?;
    let offset = u8::try_from(t.low).ok()?;
    let value = u8::try_from(t.high).ok()?;
    let first = match q.sequence {
        None => i2c::calls::write_byte_open(
            q.family, q.device, q.lan, t.address, offset, value, t.lock,
        ),
        Some(s) => i2c::calls::write_byte_open_with(
            q.family, q.device, q.lan, t.address, offset, value, t.lock, s,
        ),
    };
    run(host, first)
}

pub(crate) fn read_combined(host: &mut Host, q: Asked) -> Option<Summary> {
    let t = Transfer::of(q)?;
    let first = match q.sequence {
        None => i2c::calls::read_combined_open(q.family, q.device, q.lan, t.address, t.low, t.lock),
        Some(s) => i2c::calls::read_combined_open_with(
            q.family, q.device, q.lan, t.address, t.low, t.lock, s,
        ),
    };
    run(host, first)
}

pub(crate) fn write_combined(host: &mut Host, q: Asked) -> Option<Summary> {
    let t = Transfer::of(q)?;
    let first = match q.sequence {
        None => i2c::calls::write_combined_open(
            q.family, q.device, q.lan, t.address, t.low, t.high, t.lock,
        ),
        Some(s) => i2c::calls::write_combined_open_with(
            q.family, q.device, q.lan, t.address, t.low, t.high, t.lock, s,
        ),
    };
    run(host, first)
}

pub(crate) fn qsfp_setup(host: &mut Host) -> Option<Summary> {
    calls::run(i2c::calls::qsfp_setup_open(), |told| match told {
        Ok(Told::Ask(x, s)) => {
            ControlFlow::Continue(i2c::calls::qsfp_setup_step(s, host.answer(x)))
        }
        Ok(Told::End(o)) => ControlFlow::Break(Some(Summary::from(o))),
        Err(_) => ControlFlow::Break(None),
    })
}
