// States of `softrate` as numbers, and back. Written by `derive`.
ghost use Rattle.std.specs.Prelude.{◌≡◌};
ghost use Rattle.flat.specs.Softrate.{flat_place, the_place, flat_spot, the_spot, flat_rate, the_rate, flat_rate_call, the_rate_call};

#[repr(C)]
#[derive(Clone, Copy)]
pub struct PlaceFlat {
    pub tag: u8,
    pub b1: u8,
}

#[repr(C)]
#[derive(Clone, Copy)]
pub struct SpotFlat {
    pub b0: u8,
    pub b1: u8,
    pub b2: u8,
    pub b3: u8,
}

#[repr(C)]
#[derive(Clone, Copy)]
pub struct RateFlat {
    pub b0: u8,
    pub b1: u8,
    pub b2: u8,
    pub b3: u8,
    pub b4: u8,
    pub b5: u8,
    pub b6: u8,
    pub b7: u8,
    pub b8: u8,
    pub b9: u8,
    pub b10: u8,
    pub b11: u8,
    pub b12: u8,
    pub b13: u8,
    pub b14: u8,
    pub b15: u8,
    pub b16: u8,
    pub b17: u8,
    pub h0: u16,
    pub w0: u32,
    pub w1: u32,
    pub w2: u32,
    pub z0: usize,
}

#[tactic(auto, unfolding(crate::specs::Softrate::flat_place))]
pub fn of_place(s: softrate::spot::Place) -> PlaceFlat
    ensures { result ≡ flat_place s }
{
    match s {
        softrate::spot::Place::Reading => PlaceFlat { tag: 0, b1: 0 },
        softrate::spot::Place::Writing(x0) => PlaceFlat { tag: 1, b1: x0 },
    }
}

#[tactic(auto, unfolding(crate::specs::Softrate::the_place))]
pub fn place(b: PlaceFlat) -> softrate::spot::Place
    ensures { result ≡ the_place b }
{
    let tag = b.tag;
    match tag {
        0 => softrate::spot::Place::Reading,
        _ => softrate::spot::Place::Writing(b.b1),
    }
}

#[tactic(auto, unfolding(crate::specs::Softrate::flat_spot))]
pub fn of_spot(s: softrate::spot::Spot) -> SpotFlat
    ensures { result ≡ flat_spot s }
{
    let p2 = s.place;
    let q2 = of_place(p2);
    SpotFlat {
        b0: q2.tag,
        b1: q2.b1,
        b2: crate::bit(s.second),
        b3: crate::bit(s.ok),
    }
}

#[tactic(auto, unfolding(crate::specs::Softrate::the_spot))]
pub fn spot(b: SpotFlat) -> softrate::spot::Spot
    ensures { result ≡ the_spot b }
{
    let p2 = place(PlaceFlat {
        tag: b.b0,
        b1: b.b1,
    });
    softrate::spot::Spot {
        second: crate::set(b.b2),
        ok: crate::set(b.b3),
        place: p2,
    }
}

#[tactic(auto, unfolding(crate::specs::Softrate::flat_rate))]
pub fn of_rate(s: softrate::walk::Rate) -> RateFlat
    ensures { result ≡ flat_rate s }
{
    let p0 = s.spot;
    let q0 = of_spot(p0);
    let p1 = s.request;
    let q1 = crate::of_i2c::of_handshake(p1);
    RateFlat {
        b0: q1.tag,
        b1: q1.b1,
        b2: q1.b2,
        b3: q1.b3,
        b4: q1.b4,
        b5: q1.b5,
        b6: q1.b6,
        b7: q1.b7,
        b8: q1.b8,
        b9: q1.b9,
        b10: q1.b10,
        b11: q1.b11,
        b12: q1.b12,
        b13: q1.b13,
        b14: q0.b0,
        b15: q0.b1,
        b16: q0.b2,
        b17: q0.b3,
        h0: q1.h0,
        w0: q1.w0,
        w1: q1.w1,
        w2: q1.w2,
        z0: q1.z0,
    }
}

#[tactic(auto, unfolding(crate::specs::Softrate::the_rate))]
pub fn rate(b: RateFlat) -> softrate::walk::Rate
    ensures { result ≡ the_rate b }
{
    let p0 = spot(SpotFlat {
        b0: b.b14,
        b1: b.b15,
        b2: b.b16,
        b3: b.b17,
    });
    let p1 = crate::of_i2c::handshake(crate::of_i2c::HandshakeFlat {
        tag: b.b0,
        b1: b.b1,
        b2: b.b2,
        b3: b.b3,
        b4: b.b4,
        b5: b.b5,
        b6: b.b6,
        b7: b.b7,
        b8: b.b8,
        b9: b.b9,
        b10: b.b10,
        b11: b.b11,
        b12: b.b12,
        b13: b.b13,
        h0: b.h0,
        w0: b.w0,
        w1: b.w1,
        w2: b.w2,
        z0: b.z0,
    });
    softrate::walk::Rate {
        spot: p0,
        request: p1,
    }
}

#[tactic(auto, unfolding(crate::specs::Softrate::flat_rate_call))]
pub fn of_rate_call(s: softrate::calls::RateCall) -> crate::State
    ensures { result ≡ flat_rate_call s }
{
    match s {
        Some((x0, x1, x2, x3, x4)) => {
            let q0 = crate::of_hardware::of_port(x0);
            let q1 = crate::of_transfer::of_sequence(x1);
            let q3 = crate::of_hardware::of_meter(x3);
            let q4 = of_rate(x4);
            crate::State {
                call: 3,
                tag: 0,
                b1: q4.b0,
                b2: q4.b1,
                b3: q4.b2,
                b4: q4.b3,
                b5: q4.b4,
                b6: q4.b5,
                b7: q4.b6,
                b8: q4.b7,
                b9: q4.b8,
                b10: q4.b9,
                b11: q4.b10,
                b12: q4.b11,
                b13: q4.b12,
                b14: q4.b13,
                b15: q0.b0,
                b16: q0.b1,
                b17: q3.b0,
                b18: q4.b14,
                b19: q4.b15,
                b20: q4.b16,
                b21: q4.b17,
                b22: q1,
                b23: crate::bit(x2),
                h0: q4.h0,
                h1: q0.h0,
                h2: 0,
                h3: 0,
                h4: 0,
                h5: 0,
                h6: 0,
                w0: q4.w0,
                w1: q4.w1,
                w2: q4.w2,
                w3: q3.w0,
                w4: 0,
                w5: 0,
                w6: 0,
                w7: 0,
                w8: 0,
                z0: q4.z0,
            }
        },
        None => crate::State {
            call: 3,
            tag: 1,
            b1: 0,
            b2: 0,
            b3: 0,
            b4: 0,
            b5: 0,
            b6: 0,
            b7: 0,
            b8: 0,
            b9: 0,
            b10: 0,
            b11: 0,
            b12: 0,
            b13: 0,
            b14: 0,
            b15: 0,
            b16: 0,
            b17: 0,
            b18: 0,
            b19: 0,
            b20: 0,
            b21: 0,
            b22: 0,
            b23: 0,
            h0: 0,
            h1: 0,
            h2: 0,
            h3: 0,
            h4: 0,
            h5: 0,
            h6: 0,
            w0: 0,
            w1: 0,
            w2: 0,
            w3: 0,
            w4: 0,
            w5: 0,
            w6: 0,
            w7: 0,
            w8: 0,
            z0: 0,
        },
    }
}

#[tactic(auto, unfolding(crate::specs::Softrate::the_rate_call))]
pub fn rate_call(b: crate::State) -> softrate::calls::RateCall
    ensures { result ≡ the_rate_call b }
{
    let tag = b.tag;
    match tag {
        0 => Some((
            crate::of_hardware::port(crate::of_hardware::PortFlat {
                b0: b.b15,
                b1: b.b16,
                h0: b.h1,
            }),
            crate::of_transfer::sequence(b.b22),
            crate::set(b.b23),
            crate::of_hardware::meter(crate::of_hardware::MeterFlat {
                b0: b.b17,
                w0: b.w3,
            }),
            rate(RateFlat {
                b0: b.b1,
                b1: b.b2,
                b2: b.b3,
                b3: b.b4,
                b4: b.b5,
                b5: b.b6,
                b6: b.b7,
                b7: b.b8,
                b8: b.b9,
                b9: b.b10,
                b10: b.b11,
                b11: b.b12,
                b12: b.b13,
                b13: b.b14,
                h0: b.h0,
                w0: b.w0,
                w1: b.w1,
                w2: b.w2,
                z0: b.z0,
                b14: b.b18,
                b15: b.b19,
                b16: b.b20,
                b17: b.b21,
            }),
        )),
        _ => None,
    }
}
