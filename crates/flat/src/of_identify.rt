// States of `identify` as numbers, and back. Written by `derive`.
ghost use Rattle.std.specs.Prelude.{◌≡◌};
ghost use Rattle.flat.specs.Identify.{flat_place, the_place, flat_identify, the_identify, flat_identify_call, the_identify_call};

#[repr(C)]
#[derive(Clone, Copy)]
pub struct PlaceFlat {
    pub tag: u8,
    pub b1: u8,
    pub b2: u8,
    pub b3: u8,
    pub b4: u8,
}

#[repr(C)]
#[derive(Clone, Copy)]
pub struct IdentifyFlat {
    pub b0: u8,
    pub b1: u8,
    pub b2: u8,
    pub b3: u8,
    pub b4: u8,
    pub b5: u8,
    pub b6: u8,
    pub b7: u8,
    pub b8: u8,
    pub b9: u8,
    pub b10: u8,
    pub b11: u8,
    pub b12: u8,
    pub b13: u8,
    pub b14: u8,
    pub b15: u8,
    pub b16: u8,
    pub b17: u8,
    pub b18: u8,
    pub h0: u16,
    pub w0: u32,
    pub w1: u32,
    pub w2: u32,
    pub z0: usize,
}

#[tactic(auto, unfolding(crate::specs::Identify::flat_place))]
pub fn of_place(s: identify::place::Place) -> PlaceFlat
    ensures { result ≡ flat_place s }
{
    match s {
        identify::place::Place::Identifier(x0) => PlaceFlat {
            tag: 0,
            b1: x0,
            b2: 0,
            b3: 0,
            b4: 0,
        },
        identify::place::Place::Comp1g => PlaceFlat {
            tag: 1,
            b1: 0,
            b2: 0,
            b3: 0,
            b4: 0,
        },
        identify::place::Place::Comp10g(x0) => PlaceFlat {
            tag: 2,
            b1: x0,
            b2: 0,
            b3: 0,
            b4: 0,
        },
        identify::place::Place::Cable(x0, x1) => PlaceFlat {
            tag: 3,
            b1: x0,
            b2: x1,
            b3: 0,
            b4: 0,
        },
        identify::place::Place::Rate(x0) => {
            let q0 = crate::of_sfp::of_codes(x0);
            PlaceFlat {
                tag: 4,
                b1: q0.b0,
                b2: q0.b1,
                b3: q0.b2,
                b4: 0,
            }
        },
        identify::place::Place::Km(x0) => {
            let q0 = crate::of_sfp::of_codes(x0);
            PlaceFlat {
                tag: 5,
                b1: q0.b0,
                b2: q0.b1,
                b3: q0.b2,
                b4: 0,
            }
        },
        identify::place::Place::Hm(x0, x1) => {
            let q0 = crate::of_sfp::of_codes(x0);
            PlaceFlat {
                tag: 6,
                b1: q0.b0,
                b2: q0.b1,
                b3: q0.b2,
                b4: x1,
            }
        },
        identify::place::Place::Active(x0) => {
            let q0 = crate::of_sfp::of_codes(x0);
            PlaceFlat {
                tag: 7,
                b1: q0.b0,
                b2: q0.b1,
                b3: q0.b2,
                b4: 0,
            }
        },
        identify::place::Place::QsfpIdentifier => PlaceFlat {
            tag: 8,
            b1: 0,
            b2: 0,
            b3: 0,
            b4: 0,
        },
        identify::place::Place::Qsfp10g => PlaceFlat {
            tag: 9,
            b1: 0,
            b2: 0,
            b3: 0,
            b4: 0,
        },
        identify::place::Place::Qsfp1g(x0) => PlaceFlat {
            tag: 10,
            b1: x0,
            b2: 0,
            b3: 0,
            b4: 0,
        },
        identify::place::Place::QsfpConnector(x0, x1) => PlaceFlat {
            tag: 11,
            b1: x0,
            b2: x1,
            b3: 0,
            b4: 0,
        },
        identify::place::Place::QsfpLength(x0, x1) => PlaceFlat {
            tag: 12,
            b1: x0,
            b2: x1,
            b3: 0,
            b4: 0,
        },
        identify::place::Place::QsfpTechnology(x0, x1) => PlaceFlat {
            tag: 13,
            b1: x0,
            b2: x1,
            b3: 0,
            b4: 0,
        },
    }
}

#[tactic(auto, unfolding(crate::specs::Identify::the_place))]
pub fn place(b: PlaceFlat) -> identify::place::Place
    ensures { result ≡ the_place b }
{
    let tag = b.tag;
    match tag {
        0 => identify::place::Place::Identifier(b.b1),
        1 => identify::place::Place::Comp1g,
        2 => identify::place::Place::Comp10g(b.b1),
        3 => identify::place::Place::Cable(b.b1, b.b2),
        4 => identify::place::Place::Rate(crate::of_sfp::codes(crate::of_sfp::CodesFlat {
            b0: b.b1,
            b1: b.b2,
            b2: b.b3,
        })),
        5 => identify::place::Place::Km(crate::of_sfp::codes(crate::of_sfp::CodesFlat {
            b0: b.b1,
            b1: b.b2,
            b2: b.b3,
        })),
        6 => identify::place::Place::Hm(
            crate::of_sfp::codes(crate::of_sfp::CodesFlat {
                b0: b.b1,
                b1: b.b2,
                b2: b.b3,
            }),
            b.b4,
        ),
        7 => identify::place::Place::Active(crate::of_sfp::codes(crate::of_sfp::CodesFlat {
            b0: b.b1,
            b1: b.b2,
            b2: b.b3,
        })),
        8 => identify::place::Place::QsfpIdentifier,
        9 => identify::place::Place::Qsfp10g,
        10 => identify::place::Place::Qsfp1g(b.b1),
        11 => identify::place::Place::QsfpConnector(b.b1, b.b2),
        12 => identify::place::Place::QsfpLength(b.b1, b.b2),
        _ => identify::place::Place::QsfpTechnology(b.b1, b.b2),
    }
}

#[tactic(auto, unfolding(crate::specs::Identify::flat_identify))]
pub fn of_identify(s: identify::walk::Identify) -> IdentifyFlat
    ensures { result ≡ flat_identify s }
{
    let p0 = s.place;
    let q0 = of_place(p0);
    let p1 = s.request;
    let q1 = crate::of_i2c::of_handshake(p1);
    IdentifyFlat {
        b0: q1.tag,
        b1: q1.b1,
        b2: q1.b2,
        b3: q1.b3,
        b4: q1.b4,
        b5: q1.b5,
        b6: q1.b6,
        b7: q1.b7,
        b8: q1.b8,
        b9: q1.b9,
        b10: q1.b10,
        b11: q1.b11,
        b12: q1.b12,
        b13: q1.b13,
        b14: q0.tag,
        b15: q0.b1,
        b16: q0.b2,
        b17: q0.b3,
        b18: q0.b4,
        h0: q1.h0,
        w0: q1.w0,
        w1: q1.w1,
        w2: q1.w2,
        z0: q1.z0,
    }
}

#[tactic(auto, unfolding(crate::specs::Identify::the_identify))]
pub fn identify(b: IdentifyFlat) -> identify::walk::Identify
    ensures { result ≡ the_identify b }
{
    let p0 = place(PlaceFlat {
        tag: b.b14,
        b1: b.b15,
        b2: b.b16,
        b3: b.b17,
        b4: b.b18,
    });
    let p1 = crate::of_i2c::handshake(crate::of_i2c::HandshakeFlat {
        tag: b.b0,
        b1: b.b1,
        b2: b.b2,
        b3: b.b3,
        b4: b.b4,
        b5: b.b5,
        b6: b.b6,
        b7: b.b7,
        b8: b.b8,
        b9: b.b9,
        b10: b.b10,
        b11: b.b11,
        b12: b.b12,
        b13: b.b13,
        h0: b.h0,
        w0: b.w0,
        w1: b.w1,
        w2: b.w2,
        z0: b.z0,
    });
    identify::walk::Identify {
        place: p0,
        request: p1,
    }
}

#[tactic(auto, unfolding(crate::specs::Identify::flat_identify_call))]
pub fn of_identify_call(s: identify::calls::IdentifyCall) -> crate::State
    ensures { result ≡ flat_identify_call s }
{
    match s {
        Some((x0, x1, x2, x3)) => {
            let q0 = crate::of_hardware::of_port(x0);
            let q1 = crate::of_transfer::of_sequence(x1);
            let q2 = crate::of_hardware::of_meter(x2);
            let q3 = of_identify(x3);
            crate::State {
                call: 2,
                tag: 0,
                b1: q3.b0,
                b2: q3.b1,
                b3: q3.b2,
                b4: q3.b3,
                b5: q3.b4,
                b6: q3.b5,
                b7: q3.b6,
                b8: q3.b7,
                b9: q3.b8,
                b10: q3.b9,
                b11: q3.b10,
                b12: q3.b11,
                b13: q3.b12,
                b14: q3.b13,
                b15: q0.b0,
                b16: q0.b1,
                b17: q2.b0,
                b18: q3.b14,
                b19: q3.b15,
                b20: q3.b16,
                b21: q3.b17,
                b22: q3.b18,
                b23: q1,
                h0: q3.h0,
                h1: q0.h0,
                h2: 0,
                h3: 0,
                h4: 0,
                h5: 0,
                h6: 0,
                w0: q3.w0,
                w1: q3.w1,
                w2: q3.w2,
                w3: q2.w0,
                w4: 0,
                w5: 0,
                w6: 0,
                w7: 0,
                w8: 0,
                z0: q3.z0,
            }
        },
        None => crate::State {
            call: 2,
            tag: 1,
            b1: 0,
            b2: 0,
            b3: 0,
            b4: 0,
            b5: 0,
            b6: 0,
            b7: 0,
            b8: 0,
            b9: 0,
            b10: 0,
            b11: 0,
            b12: 0,
            b13: 0,
            b14: 0,
            b15: 0,
            b16: 0,
            b17: 0,
            b18: 0,
            b19: 0,
            b20: 0,
            b21: 0,
            b22: 0,
            b23: 0,
            h0: 0,
            h1: 0,
            h2: 0,
            h3: 0,
            h4: 0,
            h5: 0,
            h6: 0,
            w0: 0,
            w1: 0,
            w2: 0,
            w3: 0,
            w4: 0,
            w5: 0,
            w6: 0,
            w7: 0,
            w8: 0,
            z0: 0,
        },
    }
}

#[tactic(auto, unfolding(crate::specs::Identify::the_identify_call))]
pub fn identify_call(b: crate::State) -> identify::calls::IdentifyCall
    ensures { result ≡ the_identify_call b }
{
    let tag = b.tag;
    match tag {
        0 => Some((
            crate::of_hardware::port(crate::of_hardware::PortFlat {
                b0: b.b15,
                b1: b.b16,
                h0: b.h1,
            }),
            crate::of_transfer::sequence(b.b23),
            crate::of_hardware::meter(crate::of_hardware::MeterFlat {
                b0: b.b17,
                w0: b.w3,
            }),
            identify(IdentifyFlat {
                b0: b.b1,
                b1: b.b2,
                b2: b.b3,
                b3: b.b4,
                b4: b.b5,
                b5: b.b6,
                b6: b.b7,
                b7: b.b8,
                b8: b.b9,
                b9: b.b10,
                b10: b.b11,
                b11: b.b12,
                b12: b.b13,
                b13: b.b14,
                h0: b.h0,
                w0: b.w0,
                w1: b.w1,
                w2: b.w2,
                z0: b.z0,
                b14: b.b18,
                b15: b.b19,
                b16: b.b20,
                b17: b.b21,
                b18: b.b22,
            }),
        )),
        _ => None,
    }
}
