// The calls of a page, each run to its end. The sum over its buffer and the meter go with every result.
use crate::asked::Asked;
use crate::calls::Summary;
use crate::host::Host;
use crate::{calls, rng};
use hardware::Told;
use page::calls::PageTold;
use page::sums::{PageError, Paged};
use std::array;
use std::ops::ControlFlow;

impl From<Paged> for Summary {
    fn from(p: Paged) -> Self {
        match p {
            Err(PageError::Bus(e)) => Summary::from(e),
            Ok(()) | Err(PageError::FirstSum) | Err(PageError::SecondSum) => {
                Summary::coded(page::sums::paged_number(p))
            }
        }
    }
}

// Byte i begins as 255 - i.
fn filled() -> [u8; 100] {
    array::from_fn(|i| 255 - i as u8)
}

fn run(host: &mut Host, first: PageTold, buffer: &mut [u8]) -> Option<Summary> {
    let summary = calls::run(first, |told| match told {
        Ok(Told::Ask(x, s)) => {
            ControlFlow::Continue(page::calls::page_step(s, buffer, host.answer(x)))
        }
        Ok(Told::End((p, m))) => ControlFlow::Break(Some(Summary::from(p).metered(m))),
        Err(_) => ControlFlow::Break(None),
    })?;
    Some(summary.with_second(rng::sum(buffer)))
}

// After a attempts.
pub(crate) fn page(host: &mut Host, q: Asked) -> Option<Summary> {
    let mut buffer = filled();
    let first = match q.sequence {
        None => page::calls::page_open(q.family, q.device, q.lan, q.a, &buffer),
        Some(s) => page::calls::page_open_with(q.family, q.device, q.lan, q.a, &buffer, s),
    };
    run(host, first, &mut buffer)
}

pub(crate) fn qsfp_page(host: &mut Host, q: Asked) -> Option<Summary> {
    let mut buffer = filled();
    let first = match q.sequence {
        None => page::calls::qsfp_page_open(q.family, q.device, q.lan, q.a, &buffer),
        Some(s) => page::calls::qsfp_page_open_with(q.family, q.device, q.lan, q.a, &buffer, s),
    };
    run(host, first, &mut buffer)
}
