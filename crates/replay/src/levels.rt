// Levels of light, over a run of counts.
use crate::asked::Asked;
use crate::calls::Summary;
use crate::rng;

// The counts of a case.
const COUNTS: u16 = 256;

// The level with 32,768 added, or its number where there is none.
fn word(l: Option<i16>) -> u32 {
    match l {
        Some(t) => unsigned::raised(t),
        None => u32::from(level::dbm::level_number(l)),
    }
}

impl From<Option<i16>> for Summary {
    fn from(l: Option<i16>) -> Self {
        match l {
            Some(t) => Summary::good([unsigned::raised(t), 0, 0]),
            None => Summary::coded(level::dbm::level_number(l)),
        }
    }
}

// From the count a on, which has as many after it.
pub(crate) fn levels(q: Asked) -> Option<Summary> {
    let first = u16::try_from(q.a).ok()?;
    let last = first.checked_add(COUNTS - 1)?;
    let sum = (first..=last).fold(rng::BASIS, |h, count| {
        rng::fnv(h, word(level::lookup::level(count)))
    });
    Some(Summary::from(level::lookup::level(first)).with_second(sum))
}
