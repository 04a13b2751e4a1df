// The call of light and temperature, run to its end. The meter goes with every result.
use crate::asked::Asked;
use crate::calls::Summary;
use crate::host::Host;
use crate::{calls, rng};
use hardware::Told;
use light::power::{PowerError, Reading};
use light::sensed::{LightError, Measured, Measures};
use std::ops::ControlFlow;

// The reading's kind, and its count or bit pattern.
fn reading(r: Reading) -> (u32, u32) {
    match r {
        Reading::Internal(n) => (0, u32::from(n)),
        Reading::Calibrated(x) => (1, unsigned::pattern(x)),
        Reading::Absent => (2, 0),
    }
}

// The reading's pattern, and the sum over the other values and its kind.
impl From<Measures> for Summary {
    fn from(m: Measures) -> Self {
        let (kind, pattern) = reading(m.reading);
        let others = [
            unsigned::raised(m.temperature),
            u32::from(m.voltage),
            u32::from(m.bias),
            u32::from(m.sent),
            kind,
        ];
        Summary::good([pattern, rng::sum(&others), 0])
    }
}

impl From<Measured> for Summary {
    fn from(r: Measured) -> Self {
        match r {
            Ok(m) => Summary::from(m),
            Err(LightError::Bus(e)) => Summary::from(e),
            Err(LightError::Power(PowerError::Coefficient))
            | Err(LightError::Power(PowerError::Power)) => {
                Summary::coded(light::sensed::measured_number(r))
            }
        }
    }
}

// After a attempts.
pub(crate) fn light(host: &mut Host, q: Asked) -> Option<Summary> {
    let first = match q.sequence {
        None => light::calls::light_open(q.family, q.device, q.lan, q.a),
        Some(s) => light::calls::light_open_with(q.family, q.device, q.lan, q.a, s),
    };
    calls::run(first, |told| match told {
        Ok(Told::Ask(x, s)) => ControlFlow::Continue(light::calls::light_step(s, host.answer(x))),
        Ok(Told::End((r, m))) => ControlFlow::Break(Some(Summary::from(r).metered(m))),
        Err(_) => ControlFlow::Break(None),
    })
}
