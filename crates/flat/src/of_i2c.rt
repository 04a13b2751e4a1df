// States of `i2c` as numbers, and back. Written by `derive`.
ghost use Rattle.std.specs.Prelude.{◌≡◌};
ghost use Rattle.flat.specs.I2c.{flat_request, the_request, flat_how, the_how, flat_stage, the_stage, flat_retry, the_retry, flat_handshake, the_handshake, flat_transfer_call, the_transfer_call, flat_setup_call, the_setup_call};

#[repr(C)]
#[derive(Clone, Copy)]
pub struct RequestFlat {
    pub tag: u8,
    pub b1: u8,
    pub b2: u8,
    pub b3: u8,
    pub h0: u16,
    pub h1: u16,
}

#[repr(C)]
#[derive(Clone, Copy)]
pub struct HowFlat {
    pub b0: u8,
    pub b1: u8,
}

#[repr(C)]
#[derive(Clone, Copy)]
pub struct StageFlat {
    pub tag: u8,
    pub b1: u8,
    pub b2: u8,
    pub b3: u8,
    pub b4: u8,
    pub b5: u8,
    pub b6: u8,
    pub b7: u8,
    pub b8: u8,
    pub b9: u8,
    pub b10: u8,
    pub b11: u8,
    pub h0: u16,
    pub w0: u32,
    pub w1: u32,
    pub w2: u32,
    pub z0: usize,
}

#[repr(C)]
#[derive(Clone, Copy)]
pub struct RetryFlat {
    pub b0: u8,
    pub b1: u8,
    pub b2: u8,
    pub b3: u8,
    pub b4: u8,
    pub b5: u8,
    pub b6: u8,
    pub b7: u8,
    pub b8: u8,
    pub b9: u8,
    pub b10: u8,
    pub b11: u8,
    pub b12: u8,
    pub h0: u16,
    pub w0: u32,
    pub w1: u32,
    pub w2: u32,
    pub z0: usize,
}

#[repr(C)]
#[derive(Clone, Copy)]
pub struct HandshakeFlat {
    pub tag: u8,
    pub b1: u8,
    pub b2: u8,
    pub b3: u8,
    pub b4: u8,
    pub b5: u8,
    pub b6: u8,
    pub b7: u8,
    pub b8: u8,
    pub b9: u8,
    pub b10: u8,
    pub b11: u8,
    pub b12: u8,
    pub b13: u8,
    pub h0: u16,
    pub w0: u32,
    pub w1: u32,
    pub w2: u32,
    pub z0: usize,
}

#[tactic(auto, unfolding(crate::specs::I2c::flat_request))]
pub fn of_request(s: i2c::once::Request) -> RequestFlat
    ensures { result ≡ flat_request s }
{
    match s {
        i2c::once::Request::ReadByte(x0, x1) => RequestFlat {
            tag: 0,
            b1: x0,
            b2: x1,
            b3: 0,
            h0: 0,
            h1: 0,
        },
        i2c::once::Request::WriteByte(x0, x1, x2) => RequestFlat {
            tag: 1,
            b1: x0,
            b2: x1,
            b3: x2,
            h0: 0,
            h1: 0,
        },
        i2c::once::Request::ReadCombined(x0, x1) => RequestFlat {
            tag: 2,
            b1: x0,
            b2: 0,
            b3: 0,
            h0: x1,
            h1: 0,
        },
        i2c::once::Request::WriteCombined(x0, x1, x2) => RequestFlat {
            tag: 3,
            b1: x0,
            b2: 0,
            b3: 0,
            h0: x1,
            h1: x2,
        },
    }
}

#[tactic(auto, unfolding(crate::specs::I2c::the_request))]
pub fn request(b: RequestFlat) -> i2c::once::Request
    ensures { result ≡ the_request b }
{
    let tag = b.tag;
    match tag {
        0 => i2c::once::Request::ReadByte(b.b1, b.b2),
        1 => i2c::once::Request::WriteByte(b.b1, b.b2, b.b3),
        2 => i2c::once::Request::ReadCombined(b.b1, b.h0),
        _ => i2c::once::Request::WriteCombined(b.b1, b.h0, b.h1),
    }
}

#[tactic(auto, unfolding(crate::specs::I2c::flat_how))]
pub fn of_how(s: i2c::How) -> HowFlat
    ensures { result ≡ flat_how s }
{
    let p1 = s.sequence;
    let q1 = crate::of_transfer::of_sequence(p1);
    HowFlat {
        b0: crate::bit(s.lock),
        b1: q1,
    }
}

#[tactic(auto, unfolding(crate::specs::I2c::the_how))]
pub fn how(b: HowFlat) -> i2c::How
    ensures { result ≡ the_how b }
{
    let p1 = crate::of_transfer::sequence(b.b1);
    i2c::How {
        lock: crate::set(b.b0),
        sequence: p1,
    }
}

#[tactic(auto, unfolding(crate::specs::I2c::flat_stage))]
pub fn of_stage(s: i2c::retry::Stage) -> StageFlat
    ensures { result ≡ flat_stage s }
{
    match s {
        i2c::retry::Stage::Acquiring(x0) => {
            let q0 = crate::of_sync::of_acquire_bits(x0);
            StageFlat {
                tag: 0,
                b1: q0.b0,
                b2: q0.b1,
                b3: q0.b2,
                b4: q0.b3,
                b5: q0.b4,
                b6: q0.b5,
                b7: q0.b6,
                b8: 0,
                b9: 0,
                b10: 0,
                b11: 0,
                h0: 0,
                w0: q0.w0,
                w1: q0.w1,
                w2: q0.w2,
                z0: 0,
            }
        },
        i2c::retry::Stage::Trying(x0) => {
            let q0 = crate::of_transfer::of_attempt(x0);
            StageFlat {
                tag: 1,
                b1: q0.tag,
                b2: q0.b1,
                b3: q0.b2,
                b4: q0.b3,
                b5: q0.b4,
                b6: q0.b5,
                b7: q0.b6,
                b8: q0.b7,
                b9: q0.b8,
                b10: 0,
                b11: 0,
                h0: q0.h0,
                w0: q0.w0,
                w1: 0,
                w2: 0,
                z0: q0.z0,
            }
        },
        i2c::retry::Stage::Releasing(x0, x1) => {
            let q0 = crate::of_transfer::of_got(x0);
            let q1 = crate::of_sync::of_release_bits(x1);
            StageFlat {
                tag: 2,
                b1: q1.tag,
                b2: q1.b1,
                b3: q1.b2,
                b4: q1.b3,
                b5: q1.b4,
                b6: q1.b5,
                b7: q1.b6,
                b8: q0.tag,
                b9: q0.b1,
                b10: q0.b2,
                b11: q0.b3,
                h0: 0,
                w0: q1.w0,
                w1: q1.w1,
                w2: q0.w0,
                z0: 0,
            }
        },
        i2c::retry::Stage::Pausing => StageFlat {
            tag: 3,
            b1: 0,
            b2: 0,
            b3: 0,
            b4: 0,
            b5: 0,
            b6: 0,
            b7: 0,
            b8: 0,
            b9: 0,
            b10: 0,
            b11: 0,
            h0: 0,
            w0: 0,
            w1: 0,
            w2: 0,
            z0: 0,
        },
    }
}

#[tactic(auto, unfolding(crate::specs::I2c::the_stage))]
pub fn stage(b: StageFlat) -> i2c::retry::Stage
    ensures { result ≡ the_stage b }
{
    let tag = b.tag;
    match tag {
        0 => i2c::retry::Stage::Acquiring(crate::of_sync::acquire_bits(
            crate::of_sync::AcquireBitsFlat {
                b0: b.b1,
                b1: b.b2,
                b2: b.b3,
                b3: b.b4,
                b4: b.b5,
                b5: b.b6,
                b6: b.b7,
                w0: b.w0,
                w1: b.w1,
                w2: b.w2,
            },
        )),
        1 => i2c::retry::Stage::Trying(crate::of_transfer::attempt(
            crate::of_transfer::AttemptFlat {
                tag: b.b1,
                b1: b.b2,
                b2: b.b3,
                b3: b.b4,
                b4: b.b5,
                b5: b.b6,
                b6: b.b7,
                b7: b.b8,
                b8: b.b9,
                h0: b.h0,
                w0: b.w0,
                z0: b.z0,
            },
        )),
        2 => i2c::retry::Stage::Releasing(
            crate::of_transfer::got(crate::of_transfer::GotFlat {
                tag: b.b8,
                b1: b.b9,
                b2: b.b10,
                b3: b.b11,
                w0: b.w2,
            }),
            crate::of_sync::release_bits(crate::of_sync::ReleaseBitsFlat {
                tag: b.b1,
                b1: b.b2,
                b2: b.b3,
                b3: b.b4,
                b4: b.b5,
                b5: b.b6,
                b6: b.b7,
                w0: b.w0,
                w1: b.w1,
            }),
        ),
        _ => i2c::retry::Stage::Pausing,
    }
}

#[tactic(auto, unfolding(crate::specs::I2c::flat_retry))]
pub fn of_retry(s: i2c::retry::Retry) -> RetryFlat
    ensures { result ≡ flat_retry s }
{
    let p1 = s.stage;
    let q1 = of_stage(p1);
    RetryFlat {
        b0: q1.tag,
        b1: q1.b1,
        b2: q1.b2,
        b3: q1.b3,
        b4: q1.b4,
        b5: q1.b5,
        b6: q1.b6,
        b7: q1.b7,
        b8: q1.b8,
        b9: q1.b9,
        b10: q1.b10,
        b11: q1.b11,
        b12: s.left,
        h0: q1.h0,
        w0: q1.w0,
        w1: q1.w1,
        w2: q1.w2,
        z0: q1.z0,
    }
}

#[tactic(auto, unfolding(crate::specs::I2c::the_retry))]
pub fn retry(b: RetryFlat) -> i2c::retry::Retry
    ensures { result ≡ the_retry b }
{
    let p1 = stage(StageFlat {
        tag: b.b0,
        b1: b.b1,
        b2: b.b2,
        b3: b.b3,
        b4: b.b4,
        b5: b.b5,
        b6: b.b6,
        b7: b.b7,
        b8: b.b8,
        b9: b.b9,
        b10: b.b10,
        b11: b.b11,
        h0: b.h0,
        w0: b.w0,
        w1: b.w1,
        w2: b.w2,
        z0: b.z0,
    });
    i2c::retry::Retry {
        left: b.b12,
        stage: p1,
    }
}

#[tactic(auto, unfolding(crate::specs::I2c::flat_handshake))]
pub fn of_handshake(s: i2c::handshake::Handshake) -> HandshakeFlat
    ensures { result ≡ flat_handshake s }
{
    match s {
        i2c::handshake::Handshake::Asking(x0, x1) => {
            let q1 = crate::of_hardware::of_update(x1);
            HandshakeFlat {
                tag: 0,
                b1: q1.tag,
                b2: x0,
                b3: 0,
                b4: 0,
                b5: 0,
                b6: 0,
                b7: 0,
                b8: 0,
                b9: 0,
                b10: 0,
                b11: 0,
                b12: 0,
                b13: 0,
                h0: 0,
                w0: q1.w0,
                w1: 0,
                w2: 0,
                z0: 0,
            }
        },
        i2c::handshake::Handshake::Granting(x0, x1) => HandshakeFlat {
            tag: 1,
            b1: x0,
            b2: x1,
            b3: 0,
            b4: 0,
            b5: 0,
            b6: 0,
            b7: 0,
            b8: 0,
            b9: 0,
            b10: 0,
            b11: 0,
            b12: 0,
            b13: 0,
            h0: 0,
            w0: 0,
            w1: 0,
            w2: 0,
            z0: 0,
        },
        i2c::handshake::Handshake::Waiting(x0, x1) => HandshakeFlat {
            tag: 2,
            b1: x0,
            b2: x1,
            b3: 0,
            b4: 0,
            b5: 0,
            b6: 0,
            b7: 0,
            b8: 0,
            b9: 0,
            b10: 0,
            b11: 0,
            b12: 0,
            b13: 0,
            h0: 0,
            w0: 0,
            w1: 0,
            w2: 0,
            z0: 0,
        },
        i2c::handshake::Handshake::Inside(x0) => {
            let q0 = of_retry(x0);
            HandshakeFlat {
                tag: 3,
                b1: q0.b0,
                b2: q0.b1,
                b3: q0.b2,
                b4: q0.b3,
                b5: q0.b4,
                b6: q0.b5,
                b7: q0.b6,
                b8: q0.b7,
                b9: q0.b8,
                b10: q0.b9,
                b11: q0.b10,
                b12: q0.b11,
                b13: q0.b12,
                h0: q0.h0,
                w0: q0.w0,
                w1: q0.w1,
                w2: q0.w2,
                z0: q0.z0,
            }
        },
        i2c::handshake::Handshake::Giving(x0, x1) => {
            let q0 = crate::of_transfer::of_got(x0);
            let q1 = crate::of_hardware::of_update(x1);
            HandshakeFlat {
                tag: 4,
                b1: q0.tag,
                b2: q0.b1,
                b3: q0.b2,
                b4: q0.b3,
                b5: q1.tag,
                b6: 0,
                b7: 0,
                b8: 0,
                b9: 0,
                b10: 0,
                b11: 0,
                b12: 0,
                b13: 0,
                h0: 0,
                w0: q0.w0,
                w1: q1.w0,
                w2: 0,
                z0: 0,
            }
        },
    }
}

#[tactic(auto, unfolding(crate::specs::I2c::the_handshake))]
pub fn handshake(b: HandshakeFlat) -> i2c::handshake::Handshake
    ensures { result ≡ the_handshake b }
{
    let tag = b.tag;
    match tag {
        0 => i2c::handshake::Handshake::Asking(
            b.b2,
            crate::of_hardware::update(crate::of_hardware::UpdateFlat {
                tag: b.b1,
                w0: b.w0,
            }),
        ),
        1 => i2c::handshake::Handshake::Granting(b.b1, b.b2),
        2 => i2c::handshake::Handshake::Waiting(b.b1, b.b2),
        3 => i2c::handshake::Handshake::Inside(retry(RetryFlat {
            b0: b.b1,
            b1: b.b2,
            b2: b.b3,
            b3: b.b4,
            b4: b.b5,
            b5: b.b6,
            b6: b.b7,
            b7: b.b8,
            b8: b.b9,
            b9: b.b10,
            b10: b.b11,
            b11: b.b12,
            b12: b.b13,
            h0: b.h0,
            w0: b.w0,
            w1: b.w1,
            w2: b.w2,
            z0: b.z0,
        })),
        _ => i2c::handshake::Handshake::Giving(
            crate::of_transfer::got(crate::of_transfer::GotFlat {
                tag: b.b1,
                b1: b.b2,
                b2: b.b3,
                b3: b.b4,
                w0: b.w0,
            }),
            crate::of_hardware::update(crate::of_hardware::UpdateFlat {
                tag: b.b5,
                w0: b.w1,
            }),
        ),
    }
}

#[tactic(auto, unfolding(crate::specs::I2c::flat_transfer_call))]
pub fn of_transfer_call(s: i2c::calls::TransferCall) -> crate::State
    ensures { result ≡ flat_transfer_call s }
{
    match s {
        Some((x0, x1, x2, x3, x4)) => {
            let q0 = crate::of_hardware::of_port(x0);
            let q1 = of_request(x1);
            let q2 = of_how(x2);
            let q3 = crate::of_hardware::of_meter(x3);
            let q4 = of_handshake(x4);
            crate::State {
                call: 0,
                tag: 0,
                b1: q4.tag,
                b2: q4.b1,
                b3: q4.b2,
                b4: q4.b3,
                b5: q4.b4,
                b6: q4.b5,
                b7: q4.b6,
                b8: q4.b7,
                b9: q4.b8,
                b10: q4.b9,
                b11: q4.b10,
                b12: q4.b11,
                b13: q4.b12,
                b14: q4.b13,
                b15: q0.b0,
                b16: q0.b1,
                b17: q3.b0,
                b18: q1.tag,
                b19: q1.b1,
                b20: q1.b2,
                b21: q1.b3,
                b22: q2.b0,
                b23: q2.b1,
                h0: q4.h0,
                h1: q0.h0,
                h2: q1.h0,
                h3: q1.h1,
                h4: 0,
                h5: 0,
                h6: 0,
                w0: q4.w0,
                w1: q4.w1,
                w2: q4.w2,
                w3: q3.w0,
                w4: 0,
                w5: 0,
                w6: 0,
                w7: 0,
                w8: 0,
                z0: q4.z0,
            }
        },
        None => crate::State {
            call: 0,
            tag: 1,
            b1: 0,
            b2: 0,
            b3: 0,
            b4: 0,
            b5: 0,
            b6: 0,
            b7: 0,
            b8: 0,
            b9: 0,
            b10: 0,
            b11: 0,
            b12: 0,
            b13: 0,
            b14: 0,
            b15: 0,
            b16: 0,
            b17: 0,
            b18: 0,
            b19: 0,
            b20: 0,
            b21: 0,
            b22: 0,
            b23: 0,
            h0: 0,
            h1: 0,
            h2: 0,
            h3: 0,
            h4: 0,
            h5: 0,
            h6: 0,
            w0: 0,
            w1: 0,
            w2: 0,
            w3: 0,
            w4: 0,
            w5: 0,
            w6: 0,
            w7: 0,
            w8: 0,
            z0: 0,
        },
    }
}

#[tactic(auto, unfolding(crate::specs::I2c::the_transfer_call))]
pub fn transfer_call(b: crate::State) -> i2c::calls::TransferCall
    ensures { result ≡ the_transfer_call b }
{
    let tag = b.tag;
    match tag {
        0 => Some((
            crate::of_hardware::port(crate::of_hardware::PortFlat {
                b0: b.b15,
                b1: b.b16,
                h0: b.h1,
            }),
            request(RequestFlat {
                tag: b.b18,
                b1: b.b19,
                b2: b.b20,
                b3: b.b21,
                h0: b.h2,
                h1: b.h3,
            }),
            how(HowFlat {
                b0: b.b22,
                b1: b.b23,
            }),
            crate::of_hardware::meter(crate::of_hardware::MeterFlat {
                b0: b.b17,
                w0: b.w3,
            }),
            handshake(HandshakeFlat {
                tag: b.b1,
                b1: b.b2,
                b2: b.b3,
                b3: b.b4,
                b4: b.b5,
                b5: b.b6,
                b6: b.b7,
                b7: b.b8,
                b8: b.b9,
                b9: b.b10,
                b10: b.b11,
                b11: b.b12,
                b12: b.b13,
                b13: b.b14,
                h0: b.h0,
                w0: b.w0,
                w1: b.w1,
                w2: b.w2,
                z0: b.z0,
            }),
        )),
        _ => None,
    }
}

#[tactic(auto, unfolding(crate::specs::I2c::flat_setup_call))]
pub fn of_setup_call(s: i2c::calls::SetupCall) -> crate::State
    ensures { result ≡ flat_setup_call s }
{
    match s {
        Some(x0) => {
            let q0 = crate::of_hardware::of_update(x0);
            crate::State {
                call: 1,
                tag: 0,
                b1: q0.tag,
                b2: 0,
                b3: 0,
                b4: 0,
                b5: 0,
                b6: 0,
                b7: 0,
                b8: 0,
                b9: 0,
                b10: 0,
                b11: 0,
                b12: 0,
                b13: 0,
                b14: 0,
                b15: 0,
                b16: 0,
                b17: 0,
                b18: 0,
                b19: 0,
                b20: 0,
                b21: 0,
                b22: 0,
                b23: 0,
                h0: 0,
                h1: 0,
                h2: 0,
                h3: 0,
                h4: 0,
                h5: 0,
                h6: 0,
                w0: q0.w0,
                w1: 0,
                w2: 0,
                w3: 0,
                w4: 0,
                w5: 0,
                w6: 0,
                w7: 0,
                w8: 0,
                z0: 0,
            }
        },
        None => crate::State {
            call: 1,
            tag: 1,
            b1: 0,
            b2: 0,
            b3: 0,
            b4: 0,
            b5: 0,
            b6: 0,
            b7: 0,
            b8: 0,
            b9: 0,
            b10: 0,
            b11: 0,
            b12: 0,
            b13: 0,
            b14: 0,
            b15: 0,
            b16: 0,
            b17: 0,
            b18: 0,
            b19: 0,
            b20: 0,
            b21: 0,
            b22: 0,
            b23: 0,
            h0: 0,
            h1: 0,
            h2: 0,
            h3: 0,
            h4: 0,
            h5: 0,
            h6: 0,
            w0: 0,
            w1: 0,
            w2: 0,
            w3: 0,
            w4: 0,
            w5: 0,
            w6: 0,
            w7: 0,
            w8: 0,
            z0: 0,
        },
    }
}

#[tactic(auto, unfolding(crate::specs::I2c::the_setup_call))]
pub fn setup_call(b: crate::State) -> i2c::calls::SetupCall
    ensures { result ≡ the_setup_call b }
{
    let tag = b.tag;
    match tag {
        0 => Some(crate::of_hardware::update(crate::of_hardware::UpdateFlat {
            tag: b.b1,
            w0: b.w0,
        })),
        _ => None,
    }
}
