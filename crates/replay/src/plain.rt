// The functions that make no access.
use crate::asked::Asked;
use crate::calls::Summary;
use hardware::{Family, Port};

// None where its number names no family.
pub(crate) fn family_of(q: Asked) -> Option<Family> {
    match hardware::open_family(q.family) {
        Ok(f) => Some(f),
        Err(_) => None,
    }
}

// None where its numbers name no port.
pub(crate) fn port_of(q: Asked) -> Option<Port> {
    match hardware::open_port(q.family, q.device, q.lan) {
        Ok(p) => Some(p),
        Err(_) => None,
    }
}

pub(crate) fn regs(q: Asked) -> Option<Summary> {
    let r = sync::regs::regs(family_of(q)?);
    Some(Summary::good([r.swsm, r.sw_fw_sync, 0]))
}

pub(crate) fn bits(q: Asked) -> Option<Summary> {
    let m = sync::regs::bits(family_of(q)?, q.a);
    Some(Summary::good([m.sw, m.fw, m.hw]))
}

pub(crate) fn phy(q: Asked) -> Option<Summary> {
    if 1 < q.lan {
        return None;
    }
    Some(Summary::good([sync::regs::phy(q.lan as u8), 0, 0]))
}

pub(crate) fn ones_add(q: Asked) -> Option<Summary> {
    let a = u8::try_from(q.a).ok()?;
    let b = u8::try_from(q.b).ok()?;
    let sum = script::sum::ones_add(a, b);
    Some(Summary::good([u32::from(sum), 0, 0]))
}

// What the bus knows of a port. The number a stands here alone: an enum of the questions would be no plainer.
pub(crate) fn port(q: Asked) -> Option<Summary> {
    let p = port_of(q)?;
    let value = match q.a {
        0 => u32::from(bus::x550em(p.family)),
        1 => i2c::mask(p),
        2 => i2c::attempts(p),
        3 => u32::from(i2c::qsfp(p)),
        _ => return None,
    };
    Some(Summary::good([value, 0, 0]))
}
