// The methods of a module's record.
use crate::asked::Asked;
use crate::calls::Summary;
use crate::plain;
use sfp::{Identity, Kind};

// As they stand in the original's list.
const KINDS: [Kind; 10] = [
    Kind::DaCu,
    Kind::DaActiveLimiting,
    Kind::SrLr,
    Kind::Cu1g,
    Kind::Sx1g,
    Kind::Lx1g,
    Kind::Bx10g,
    Kind::Bx1g,
    Kind::Unknown,
    Kind::NotPresent,
];

// By a kind, with 256 for multispeed, and the bytes, the identifier lowest.
fn identity(class: u32, bytes: u32) -> Option<Identity> {
    let kind = *KINDS.get((class & 0xff) as usize)?;
    let multispeed = match class >> 8 {
        0 => false,
        1 => true,
        _ => return None,
    };
    let [identifier, comp10g, comp1g, cable] = bytes.to_le_bytes();
    Some(Identity {
        kind,
        multispeed,
        identifier,
        comp10g,
        comp1g,
        cable,
    })
}

// The second value says that there is a key.
impl From<Option<u16>> for Summary {
    fn from(k: Option<u16>) -> Self {
        match k {
            Some(v) => Summary::good([u32::from(v), 1, 0]),
            None => Summary::good([0; 3]),
        }
    }
}

impl From<bool> for Summary {
    fn from(b: bool) -> Self {
        Summary::good([u32::from(b), 0, 0])
    }
}

// Of the record that b and c give. The number a stands here alone: an enum of the methods would be no plainer.
pub(crate) fn method(q: Asked) -> Option<Summary> {
    let m = sfp::methods::record(identity(q.b, q.c)?);
    let p = plain::port_of(q)?;
    Some(match q.a {
        0 => Summary::from(sfp::methods::present(m)),
        1 => Summary::from(sfp::methods::one_gig(m)),
        2 => Summary::from(sfp::methods::linear(m)),
        3 => Summary::from(sfp::methods::supported(m, p.family)),
        4 => Summary::from(sfp::methods::nvm_key(m, p.lan)),
        _ => return None,
    })
}
