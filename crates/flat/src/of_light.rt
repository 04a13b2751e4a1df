// States of `light` as numbers, and back. Written by `derive`.
ghost use Rattle.std.specs.Prelude.{◌≡◌};
ghost use Rattle.flat.specs.Light.{flat_patterns, the_patterns, flat_sensed, the_sensed, flat_light, the_light, flat_light_call, the_light_call};

#[repr(C)]
#[derive(Clone, Copy)]
pub struct PatternsFlat {
    pub w0: u32,
    pub w1: u32,
    pub w2: u32,
    pub w3: u32,
    pub w4: u32,
}

#[repr(C)]
#[derive(Clone, Copy)]
pub struct SensedFlat {
    pub b0: u8,
    pub h0: u16,
    pub h1: u16,
    pub h2: u16,
    pub h3: u16,
    pub h4: u16,
    pub w0: u32,
    pub w1: u32,
    pub w2: u32,
    pub w3: u32,
    pub w4: u32,
}

#[repr(C)]
#[derive(Clone, Copy)]
pub struct LightFlat {
    pub b0: u8,
    pub b1: u8,
    pub b2: u8,
    pub b3: u8,
    pub b4: u8,
    pub b5: u8,
    pub b6: u8,
    pub b7: u8,
    pub b8: u8,
    pub b9: u8,
    pub b10: u8,
    pub b11: u8,
    pub b12: u8,
    pub b13: u8,
    pub b14: u8,
    pub b15: u8,
    pub h0: u16,
    pub h1: u16,
    pub h2: u16,
    pub h3: u16,
    pub h4: u16,
    pub h5: u16,
    pub w0: u32,
    pub w1: u32,
    pub w2: u32,
    pub w3: u32,
    pub w4: u32,
    pub w5: u32,
    pub w6: u32,
    pub w7: u32,
    pub z0: usize,
}

#[tactic(auto, unfolding(crate::specs::Light::flat_patterns))]
pub fn of_patterns(s: light::power::Patterns) -> PatternsFlat
    ensures { result ≡ flat_patterns s }
{
    PatternsFlat {
        w0: s.c4,
        w1: s.c3,
        w2: s.c2,
        w3: s.c1,
        w4: s.c0,
    }
}

#[tactic(auto, unfolding(crate::specs::Light::the_patterns))]
pub fn patterns(b: PatternsFlat) -> light::power::Patterns
    ensures { result ≡ the_patterns b }
{
    light::power::Patterns {
        c4: b.w0,
        c3: b.w1,
        c2: b.w2,
        c1: b.w3,
        c0: b.w4,
    }
}

#[tactic(auto, unfolding(crate::specs::Light::flat_sensed))]
pub fn of_sensed(s: light::sensed::Sensed) -> SensedFlat
    ensures { result ≡ flat_sensed s }
{
    let p6 = s.patterns;
    let q6 = of_patterns(p6);
    SensedFlat {
        b0: s.kind,
        h0: s.temperature,
        h1: s.voltage,
        h2: s.bias,
        h3: s.sent,
        h4: s.received,
        w0: q6.w0,
        w1: q6.w1,
        w2: q6.w2,
        w3: q6.w3,
        w4: q6.w4,
    }
}

#[tactic(auto, unfolding(crate::specs::Light::the_sensed))]
pub fn sensed(b: SensedFlat) -> light::sensed::Sensed
    ensures { result ≡ the_sensed b }
{
    let p6 = patterns(PatternsFlat {
        w0: b.w0,
        w1: b.w1,
        w2: b.w2,
        w3: b.w3,
        w4: b.w4,
    });
    light::sensed::Sensed {
        kind: b.b0,
        temperature: b.h0,
        voltage: b.h1,
        bias: b.h2,
        sent: b.h3,
        received: b.h4,
        patterns: p6,
    }
}

#[tactic(auto, unfolding(crate::specs::Light::flat_light))]
pub fn of_light(s: light::walk::Light) -> LightFlat
    ensures { result ≡ flat_light s }
{
    let p1 = s.sensed;
    let q1 = of_sensed(p1);
    let p2 = s.request;
    let q2 = crate::of_i2c::of_handshake(p2);
    LightFlat {
        b0: q2.tag,
        b1: q2.b1,
        b2: q2.b2,
        b3: q2.b3,
        b4: q2.b4,
        b5: q2.b5,
        b6: q2.b6,
        b7: q2.b7,
        b8: q2.b8,
        b9: q2.b9,
        b10: q2.b10,
        b11: q2.b11,
        b12: q2.b12,
        b13: q2.b13,
        b14: q1.b0,
        b15: s.left,
        h0: q2.h0,
        h1: q1.h0,
        h2: q1.h1,
        h3: q1.h2,
        h4: q1.h3,
        h5: q1.h4,
        w0: q2.w0,
        w1: q2.w1,
        w2: q2.w2,
        w3: q1.w0,
        w4: q1.w1,
        w5: q1.w2,
        w6: q1.w3,
        w7: q1.w4,
        z0: q2.z0,
    }
}

#[tactic(auto, unfolding(crate::specs::Light::the_light))]
pub fn light(b: LightFlat) -> light::walk::Light
    ensures { result ≡ the_light b }
{
    let p1 = sensed(SensedFlat {
        b0: b.b14,
        h0: b.h1,
        h1: b.h2,
        h2: b.h3,
        h3: b.h4,
        h4: b.h5,
        w0: b.w3,
        w1: b.w4,
        w2: b.w5,
        w3: b.w6,
        w4: b.w7,
    });
    let p2 = crate::of_i2c::handshake(crate::of_i2c::HandshakeFlat {
        tag: b.b0,
        b1: b.b1,
        b2: b.b2,
        b3: b.b3,
        b4: b.b4,
        b5: b.b5,
        b6: b.b6,
        b7: b.b7,
        b8: b.b8,
        b9: b.b9,
        b10: b.b10,
        b11: b.b11,
        b12: b.b12,
        b13: b.b13,
        h0: b.h0,
        w0: b.w0,
        w1: b.w1,
        w2: b.w2,
        z0: b.z0,
    });
    light::walk::Light {
        left: b.b15,
        sensed: p1,
        request: p2,
    }
}

#[tactic(auto, unfolding(crate::specs::Light::flat_light_call))]
pub fn of_light_call(s: light::calls::LightCall) -> crate::State
    ensures { result ≡ flat_light_call s }
{
    match s {
        Some((x0, x1, x2, x3, x4)) => {
            let q0 = crate::of_hardware::of_port(x0);
            let q1 = crate::of_transfer::of_sequence(x1);
            let q3 = crate::of_hardware::of_meter(x3);
            let q4 = of_light(x4);
            crate::State {
                call: 4,
                tag: 0,
                b1: q4.b0,
                b2: q4.b1,
                b3: q4.b2,
                b4: q4.b3,
                b5: q4.b4,
                b6: q4.b5,
                b7: q4.b6,
                b8: q4.b7,
                b9: q4.b8,
                b10: q4.b9,
                b11: q4.b10,
                b12: q4.b11,
                b13: q4.b12,
                b14: q4.b13,
                b15: q0.b0,
                b16: q0.b1,
                b17: q3.b0,
                b18: q4.b14,
                b19: q4.b15,
                b20: q1,
                b21: x2,
                b22: 0,
                b23: 0,
                h0: q4.h0,
                h1: q0.h0,
                h2: q4.h1,
                h3: q4.h2,
                h4: q4.h3,
                h5: q4.h4,
                h6: q4.h5,
                w0: q4.w0,
                w1: q4.w1,
                w2: q4.w2,
                w3: q3.w0,
                w4: q4.w3,
                w5: q4.w4,
                w6: q4.w5,
                w7: q4.w6,
                w8: q4.w7,
                z0: q4.z0,
            }
        },
        None => crate::State {
            call: 4,
            tag: 1,
            b1: 0,
            b2: 0,
            b3: 0,
            b4: 0,
            b5: 0,
            b6: 0,
            b7: 0,
            b8: 0,
            b9: 0,
            b10: 0,
            b11: 0,
            b12: 0,
            b13: 0,
            b14: 0,
            b15: 0,
            b16: 0,
            b17: 0,
            b18: 0,
            b19: 0,
            b20: 0,
            b21: 0,
            b22: 0,
            b23: 0,
            h0: 0,
            h1: 0,
            h2: 0,
            h3: 0,
            h4: 0,
            h5: 0,
            h6: 0,
            w0: 0,
            w1: 0,
            w2: 0,
            w3: 0,
            w4: 0,
            w5: 0,
            w6: 0,
            w7: 0,
            w8: 0,
            z0: 0,
        },
    }
}

#[tactic(auto, unfolding(crate::specs::Light::the_light_call))]
pub fn light_call(b: crate::State) -> light::calls::LightCall
    ensures { result ≡ the_light_call b }
{
    let tag = b.tag;
    match tag {
        0 => Some((
            crate::of_hardware::port(crate::of_hardware::PortFlat {
                b0: b.b15,
                b1: b.b16,
                h0: b.h1,
            }),
            crate::of_transfer::sequence(b.b20),
            b.b21,
            crate::of_hardware::meter(crate::of_hardware::MeterFlat {
                b0: b.b17,
                w0: b.w3,
            }),
            light(LightFlat {
                b0: b.b1,
                b1: b.b2,
                b2: b.b3,
                b3: b.b4,
                b4: b.b5,
                b5: b.b6,
                b6: b.b7,
                b7: b.b8,
                b8: b.b9,
                b9: b.b10,
                b10: b.b11,
                b11: b.b12,
                b12: b.b13,
                b13: b.b14,
                h0: b.h0,
                w0: b.w0,
                w1: b.w1,
                w2: b.w2,
                z0: b.z0,
                b14: b.b18,
                b15: b.b19,
                h1: b.h2,
                h2: b.h3,
                h3: b.h4,
                h4: b.h5,
                h5: b.h6,
                w3: b.w4,
                w4: b.w5,
                w5: b.w6,
                w6: b.w7,
                w7: b.w8,
            }),
        )),
        _ => None,
    }
}
