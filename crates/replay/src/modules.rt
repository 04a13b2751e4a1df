// The calls of the module itself, each run to its end. The meter goes with every result.
use crate::asked::Asked;
use crate::calls;
use crate::calls::Summary;
use crate::host::Host;
use hardware::{R, Told};
use identify::calls::IdentifyTold;
use sfp::Identity;
use std::ops::ControlFlow;

// The kind's number, with 256 for multispeed.
fn class(m: Identity) -> u32 {
    u32::from(sfp::number(m.kind)) | u32::from(m.multispeed) << 8
}

// The record's bytes, the identifier lowest.
fn bytes(m: Identity) -> u32 {
    u32::from_le_bytes([m.identifier, m.comp10g, m.comp1g, m.cable])
}

impl From<R<Identity>> for Summary {
    fn from(i: R<Identity>) -> Self {
        match i {
            Ok(m) => Summary::good([class(m), bytes(m), 0]),
            Err(e) => Summary::from(e),
        }
    }
}

fn run(host: &mut Host, first: IdentifyTold) -> Option<Summary> {
    calls::run(first, |told| match told {
        Ok(Told::Ask(x, s)) => {
            ControlFlow::Continue(identify::calls::identify_step(s, host.answer(x)))
        }
        Ok(Told::End((i, m))) => ControlFlow::Break(Some(Summary::from(i).metered(m))),
        Err(_) => ControlFlow::Break(None),
    })
}

pub(crate) fn identify(host: &mut Host, q: Asked) -> Option<Summary> {
    let first = match q.sequence {
        None => identify::calls::identify_open(q.family, q.device, q.lan),
        Some(s) => identify::calls::identify_open_with(q.family, q.device, q.lan, s),
    };
    run(host, first)
}

pub(crate) fn identify_qsfp(host: &mut Host, q: Asked) -> Option<Summary> {
    let first = match q.sequence {
        None => identify::calls::identify_qsfp_open(q.family, q.device, q.lan),
        Some(s) => identify::calls::identify_qsfp_open_with(q.family, q.device, q.lan, s),
    };
    run(host, first)
}

pub(crate) fn soft_rate_select(host: &mut Host, q: Asked) -> Option<Summary> {
    let ten = q.a == 1;
    let first = match q.sequence {
        None => softrate::calls::soft_rate_select_open(q.family, q.device, q.lan, ten),
        Some(s) => softrate::calls::soft_rate_select_open_with(q.family, q.device, q.lan, ten, s),
    };
    calls::run(first, |told| match told {
        Ok(Told::Ask(x, s)) => {
            ControlFlow::Continue(softrate::calls::soft_rate_select_step(s, host.answer(x)))
        }
        Ok(Told::End((f, m))) => ControlFlow::Break(Some(Summary::from(f).metered(m))),
        Err(_) => ControlFlow::Break(None),
    })
}
