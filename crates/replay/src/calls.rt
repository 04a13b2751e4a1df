// The calls of the port, each run to its end.
use crate::asked::Asked;
use crate::host::Host;
use crate::rng;
use hardware::{Error, Meter, R, Told};
use std::ops::ControlFlow;

// More accesses than any case makes.
const BUDGET: u32 = 30_000_000;

// The result of a call: its code, 0 where it succeeded, and its values.
#[derive(Clone, Copy, PartialEq, Eq)]
pub struct Summary {
    pub code: u32,
    pub values: [u32; 3],
}

impl Summary {
    pub(crate) fn good(values: [u32; 3]) -> Self {
        Summary { code: 0, values }
    }

    pub(crate) fn coded(code: u8) -> Self {
        Summary {
            code: u32::from(code),
            values: [0; 3],
        }
    }

    pub(crate) fn with_second(mut self, value: u32) -> Self {
        self.values[1] = value;
        self
    }

    pub(crate) fn with_third(mut self, value: u32) -> Self {
        self.values[2] = value;
        self
    }

    // The transfers made, and 65,536 for each number of the slowest acknowledgement's sample.
    pub(crate) fn metered(self, m: Meter) -> Self {
        self.with_third(m.transfers.wrapping_add(u32::from(m.slowest) * 65_536))
    }
}

impl From<Error> for Summary {
    fn from(e: Error) -> Self {
        let values = [hardware::error_value(e, 0), hardware::error_value(e, 1), 0];
        Summary {
            code: u32::from(hardware::error_number(e)),
            values,
        }
    }
}

impl From<R<()>> for Summary {
    fn from(o: R<()>) -> Self {
        match o {
            Ok(()) => Summary::good([0; 3]),
            Err(e) => Summary::from(e),
        }
    }
}

impl From<R<u8>> for Summary {
    fn from(b: R<u8>) -> Self {
        match b {
            Ok(v) => Summary::good([u32::from(v), 0, 0]),
            Err(e) => Summary::from(e),
        }
    }
}

impl From<R<bool>> for Summary {
    fn from(f: R<bool>) -> Self {
        match f {
            Ok(v) => Summary::good([u32::from(v), 0, 0]),
            Err(e) => Summary::from(e),
        }
    }
}

// Runs a call to its end. A turn makes one access and steps the call, or breaks off with its result, None where it is refused.
// None also after too many turns.
pub(crate) fn run<T: Copy, R: Drop, F: FnMut(T) -> ControlFlow<Option<R>, T>>(
    first: T,
    mut turn: F,
) -> Option<R>
    requires { F.IsAlwaysCallable turn }
{
    let mut told = first;
    for _ in 0..BUDGET {
        match turn(told) {
            ControlFlow::Continue(next) => told = next,
            ControlFlow::Break(end) => return end,
        }
    }
    None
}

pub(crate) fn lock(host: &mut Host, q: Asked) -> Option<Summary> {
    run(sync::calls::lock_open(q.family), |told| match told {
        Ok(Told::Ask(x, s)) => ControlFlow::Continue(sync::calls::lock_step(s, host.answer(x))),
        Ok(Told::End(o)) => ControlFlow::Break(Some(Summary::from(o))),
        Err(_) => ControlFlow::Break(None),
    })
}

pub(crate) fn unlock(host: &mut Host, q: Asked) -> Option<Summary> {
    run(sync::calls::unlock_open(q.family), |told| match told {
        Ok(Told::Ask(x, s)) => ControlFlow::Continue(sync::calls::unlock_step(s, host.answer(x))),
        Ok(Told::End(o)) => ControlFlow::Break(Some(Summary::from(o))),
        Err(_) => ControlFlow::Break(None),
    })
}

pub(crate) fn acquire(host: &mut Host, q: Asked) -> Option<Summary> {
    let first = acquire::calls::acquire_open(q.family, q.device, q.lan, q.a);
    run(first, |told| match told {
        Ok(Told::Ask(x, s)) => {
            ControlFlow::Continue(acquire::calls::acquire_step(s, host.answer(x)))
        }
        Ok(Told::End(o)) => ControlFlow::Break(Some(Summary::from(o))),
        Err(_) => ControlFlow::Break(None),
    })
}

pub(crate) fn release(host: &mut Host, q: Asked) -> Option<Summary> {
    let first = acquire::calls::release_open(q.family, q.device, q.lan, q.a);
    run(first, |told| match told {
        Ok(Told::Ask(x, s)) => {
            ControlFlow::Continue(acquire::calls::release_step(s, host.answer(x)))
        }
        Ok(Told::End(o)) => ControlFlow::Break(Some(Summary::from(o))),
        Err(_) => ControlFlow::Break(None),
    })
}

pub(crate) fn token(host: &mut Host, q: Asked) -> Option<Summary> {
    let first = hostif::calls::token_open(q.family, q.device, q.lan, q.a == 1);
    run(first, |told| match told {
        Ok(Told::Ask(x, s)) => ControlFlow::Continue(hostif::calls::token_step(s, host.answer(x))),
        Ok(Told::End(f)) => ControlFlow::Break(Some(Summary::from(f))),
        Err(_) => ControlFlow::Break(None),
    })
}

fn command_on(host: &mut Host, q: Asked, block: &mut [u32]) -> Option<Summary> {
    let first = hostif::calls::command_open(q.family, q.device, q.lan, block);
    run(first, |told| match told {
        Ok(Told::Ask(x, s)) => {
            ControlFlow::Continue(hostif::calls::command_step(s, block, host.answer(x)))
        }
        Ok(Told::End(b)) => ControlFlow::Break(Some(Summary::from(b))),
        Err(_) => ControlFlow::Break(None),
    })
}

// With a words. They are made from the seed b, and the sum over them goes with every result.
pub(crate) fn command(host: &mut Host, q: Asked) -> Option<Summary> {
    let mut words = [0u32; 64];
    let block = words.get_mut(..q.a as usize)?;
    rng::fill(block, q.b);
    let summary = command_on(host, q, block)?;
    Some(summary.with_third(rng::sum(block)))
}
