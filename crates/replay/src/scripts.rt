// The call of a script, run to its end.
use crate::asked::Asked;
use crate::calls::Summary;
use crate::host::Host;
use crate::{calls, phrases, rng};
use std::ops::ControlFlow;
use transfer::calls::Said;

// The bytes handed out: the sum over them, and 256 for each.
#[derive(Clone, Copy)]
struct Heard {
    sum: u32,
    count: u32,
}

impl Heard {
    fn hear(&mut self, b: u8) {
        self.sum = rng::fnv(self.sum, u32::from(b));
        self.count = self.count.wrapping_add(256);
    }
}

// The bytes and the meter go with every result.
fn run(host: &mut Host, q: Asked, script: &[u8]) -> Option<Summary> {
    let mut heard = Heard {
        sum: rng::BASIS,
        count: 0,
    };
    let first = transfer::calls::script_open(q.family, q.device, q.lan, script);
    let summary = calls::run(first, |told| match told {
        Ok(Said::Ask(x, s)) => {
            ControlFlow::Continue(transfer::calls::script_step(s, script, host.answer(x)))
        }
        Ok(Said::Read(b, x, s)) => {
            heard.hear(b);
            ControlFlow::Continue(transfer::calls::script_step(s, script, host.answer(x)))
        }
        Ok(Said::End(o, m)) => ControlFlow::Break(Some(Summary::from(o).metered(m))),
        Err(_) => ControlFlow::Break(None),
    })?;
    let third = summary.values[2].wrapping_add(heard.count);
    Some(summary.with_second(heard.sum).with_third(third))
}

// The script is made from the seed a and the shape b.
pub(crate) fn script(host: &mut Host, q: Asked) -> Option<Summary> {
    let made = phrases::script(q.a, q.b)?;
    run(host, q, made.bytes()?)
}
