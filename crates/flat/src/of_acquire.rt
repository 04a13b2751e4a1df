// States of `acquire` as numbers, and back. Written by `derive`.
ghost use Rattle.std.specs.Prelude.{◌≡◌};
ghost use Rattle.flat.specs.Acquire.{flat_stage, the_stage, flat_acquire, the_acquire, flat_acquire_call, the_acquire_call, flat_release, the_release, flat_release_call, the_release_call};

#[repr(C)]
#[derive(Clone, Copy)]
pub struct StageFlat {
    pub tag: u8,
    pub b1: u8,
    pub b2: u8,
    pub b3: u8,
    pub b4: u8,
    pub b5: u8,
    pub b6: u8,
    pub b7: u8,
    pub b8: u8,
    pub b9: u8,
    pub b10: u8,
    pub b11: u8,
    pub b12: u8,
    pub w0: u32,
    pub w1: u32,
    pub w2: u32,
    pub w3: u32,
    pub w4: u32,
}

#[repr(C)]
#[derive(Clone, Copy)]
pub struct AcquireFlat {
    pub b0: u8,
    pub b1: u8,
    pub b2: u8,
    pub b3: u8,
    pub b4: u8,
    pub b5: u8,
    pub b6: u8,
    pub b7: u8,
    pub b8: u8,
    pub b9: u8,
    pub b10: u8,
    pub b11: u8,
    pub b12: u8,
    pub w0: u32,
    pub w1: u32,
    pub w2: u32,
    pub w3: u32,
    pub w4: u32,
    pub w5: u32,
}

#[repr(C)]
#[derive(Clone, Copy)]
pub struct ReleaseFlat {
    pub tag: u8,
    pub b1: u8,
    pub b2: u8,
    pub b3: u8,
    pub b4: u8,
    pub b5: u8,
    pub b6: u8,
    pub b7: u8,
    pub b8: u8,
    pub b9: u8,
    pub b10: u8,
    pub b11: u8,
    pub b12: u8,
    pub w0: u32,
    pub w1: u32,
    pub w2: u32,
    pub w3: u32,
    pub w4: u32,
}

#[tactic(auto, unfolding(crate::specs::Acquire::flat_stage))]
pub fn of_stage(s: acquire::acquire::Stage) -> StageFlat
    ensures { result ≡ flat_stage s }
{
    match s {
        acquire::acquire::Stage::Bits(x0, x1) => {
            let q0 = crate::of_sync::of_acquire_bits(x0);
            StageFlat {
                tag: 0,
                b1: q0.b0,
                b2: q0.b1,
                b3: q0.b2,
                b4: q0.b3,
                b5: q0.b4,
                b6: q0.b5,
                b7: q0.b6,
                b8: crate::bit(x1),
                b9: 0,
                b10: 0,
                b11: 0,
                b12: 0,
                w0: q0.w0,
                w1: q0.w1,
                w2: q0.w2,
                w3: 0,
                w4: 0,
            }
        },
        acquire::acquire::Stage::Token(x0) => {
            let q0 = crate::of_hostif::of_token(x0);
            StageFlat {
                tag: 1,
                b1: q0.b0,
                b2: q0.b1,
                b3: q0.b2,
                b4: q0.b3,
                b5: q0.b4,
                b6: q0.b5,
                b7: q0.b6,
                b8: q0.b7,
                b9: q0.b8,
                b10: q0.b9,
                b11: q0.b10,
                b12: q0.b11,
                w0: q0.w0,
                w1: q0.w1,
                w2: q0.w2,
                w3: q0.w3,
                w4: q0.w4,
            }
        },
        acquire::acquire::Stage::Releasing(x0, x1) => {
            let q0 = crate::of_sync::of_release_bits(x0);
            let q1 = crate::of_hardware::of_flag(x1);
            StageFlat {
                tag: 2,
                b1: q0.tag,
                b2: q0.b1,
                b3: q0.b2,
                b4: q0.b3,
                b5: q0.b4,
                b6: q0.b5,
                b7: q0.b6,
                b8: q1.tag,
                b9: q1.b1,
                b10: q1.b2,
                b11: q1.b3,
                b12: 0,
                w0: q0.w0,
                w1: q0.w1,
                w2: q1.w0,
                w3: 0,
                w4: 0,
            }
        },
        acquire::acquire::Stage::Waiting => StageFlat {
            tag: 3,
            b1: 0,
            b2: 0,
            b3: 0,
            b4: 0,
            b5: 0,
            b6: 0,
            b7: 0,
            b8: 0,
            b9: 0,
            b10: 0,
            b11: 0,
            b12: 0,
            w0: 0,
            w1: 0,
            w2: 0,
            w3: 0,
            w4: 0,
        },
    }
}

#[tactic(auto, unfolding(crate::specs::Acquire::the_stage))]
pub fn stage(b: StageFlat) -> acquire::acquire::Stage
    ensures { result ≡ the_stage b }
{
    let tag = b.tag;
    match tag {
        0 => acquire::acquire::Stage::Bits(
            crate::of_sync::acquire_bits(crate::of_sync::AcquireBitsFlat {
                b0: b.b1,
                b1: b.b2,
                b2: b.b3,
                b3: b.b4,
                b4: b.b5,
                b5: b.b6,
                b6: b.b7,
                w0: b.w0,
                w1: b.w1,
                w2: b.w2,
            }),
            crate::set(b.b8),
        ),
        1 => acquire::acquire::Stage::Token(crate::of_hostif::token(crate::of_hostif::TokenFlat {
            b0: b.b1,
            b1: b.b2,
            b2: b.b3,
            b3: b.b4,
            b4: b.b5,
            b5: b.b6,
            b6: b.b7,
            b7: b.b8,
            b8: b.b9,
            b9: b.b10,
            b10: b.b11,
            b11: b.b12,
            w0: b.w0,
            w1: b.w1,
            w2: b.w2,
            w3: b.w3,
            w4: b.w4,
        })),
        2 => acquire::acquire::Stage::Releasing(
            crate::of_sync::release_bits(crate::of_sync::ReleaseBitsFlat {
                tag: b.b1,
                b1: b.b2,
                b2: b.b3,
                b3: b.b4,
                b4: b.b5,
                b5: b.b6,
                b6: b.b7,
                w0: b.w0,
                w1: b.w1,
            }),
            crate::of_hardware::flag(crate::of_hardware::FlagFlat {
                tag: b.b8,
                b1: b.b9,
                b2: b.b10,
                b3: b.b11,
                w0: b.w2,
            }),
        ),
        _ => acquire::acquire::Stage::Waiting,
    }
}

#[tactic(auto, unfolding(crate::specs::Acquire::flat_acquire))]
pub fn of_acquire(s: acquire::acquire::Acquire) -> AcquireFlat
    ensures { result ≡ flat_acquire s }
{
    let p1 = s.stage;
    let q1 = of_stage(p1);
    AcquireFlat {
        b0: q1.tag,
        b1: q1.b1,
        b2: q1.b2,
        b3: q1.b3,
        b4: q1.b4,
        b5: q1.b5,
        b6: q1.b6,
        b7: q1.b7,
        b8: q1.b8,
        b9: q1.b9,
        b10: q1.b10,
        b11: q1.b11,
        b12: q1.b12,
        w0: q1.w0,
        w1: q1.w1,
        w2: q1.w2,
        w3: q1.w3,
        w4: q1.w4,
        w5: s.left,
    }
}

#[tactic(auto, unfolding(crate::specs::Acquire::the_acquire))]
pub fn acquire(b: AcquireFlat) -> acquire::acquire::Acquire
    ensures { result ≡ the_acquire b }
{
    let p1 = stage(StageFlat {
        tag: b.b0,
        b1: b.b1,
        b2: b.b2,
        b3: b.b3,
        b4: b.b4,
        b5: b.b5,
        b6: b.b6,
        b7: b.b7,
        b8: b.b8,
        b9: b.b9,
        b10: b.b10,
        b11: b.b11,
        b12: b.b12,
        w0: b.w0,
        w1: b.w1,
        w2: b.w2,
        w3: b.w3,
        w4: b.w4,
    });
    acquire::acquire::Acquire {
        left: b.w5,
        stage: p1,
    }
}

#[tactic(auto, unfolding(crate::specs::Acquire::flat_acquire_call))]
pub fn of_acquire_call(s: acquire::calls::AcquireCall) -> crate::State
    ensures { result ≡ flat_acquire_call s }
{
    match s {
        Some((x0, x1, x2)) => {
            let q0 = crate::of_hardware::of_port(x0);
            let q2 = of_acquire(x2);
            crate::State {
                call: 5,
                tag: 0,
                b1: q0.b0,
                b2: q0.b1,
                b3: q2.b0,
                b4: q2.b1,
                b5: q2.b2,
                b6: q2.b3,
                b7: q2.b4,
                b8: q2.b5,
                b9: q2.b6,
                b10: q2.b7,
                b11: q2.b8,
                b12: q2.b9,
                b13: q2.b10,
                b14: q2.b11,
                b15: q2.b12,
                b16: 0,
                b17: 0,
                b18: 0,
                b19: 0,
                b20: 0,
                b21: 0,
                b22: 0,
                b23: 0,
                h0: q0.h0,
                h1: 0,
                h2: 0,
                h3: 0,
                h4: 0,
                h5: 0,
                h6: 0,
                w0: q2.w0,
                w1: q2.w1,
                w2: q2.w2,
                w3: q2.w3,
                w4: q2.w4,
                w5: q2.w5,
                w6: x1,
                w7: 0,
                w8: 0,
                z0: 0,
            }
        },
        None => crate::State {
            call: 5,
            tag: 1,
            b1: 0,
            b2: 0,
            b3: 0,
            b4: 0,
            b5: 0,
            b6: 0,
            b7: 0,
            b8: 0,
            b9: 0,
            b10: 0,
            b11: 0,
            b12: 0,
            b13: 0,
            b14: 0,
            b15: 0,
            b16: 0,
            b17: 0,
            b18: 0,
            b19: 0,
            b20: 0,
            b21: 0,
            b22: 0,
            b23: 0,
            h0: 0,
            h1: 0,
            h2: 0,
            h3: 0,
            h4: 0,
            h5: 0,
            h6: 0,
            w0: 0,
            w1: 0,
            w2: 0,
            w3: 0,
            w4: 0,
            w5: 0,
            w6: 0,
            w7: 0,
            w8: 0,
            z0: 0,
        },
    }
}

#[tactic(auto, unfolding(crate::specs::Acquire::the_acquire_call))]
pub fn acquire_call(b: crate::State) -> acquire::calls::AcquireCall
    ensures { result ≡ the_acquire_call b }
{
    let tag = b.tag;
    match tag {
        0 => Some((
            crate::of_hardware::port(crate::of_hardware::PortFlat {
                b0: b.b1,
                b1: b.b2,
                h0: b.h0,
            }),
            b.w6,
            acquire(AcquireFlat {
                b0: b.b3,
                b1: b.b4,
                b2: b.b5,
                b3: b.b6,
                b4: b.b7,
                b5: b.b8,
                b6: b.b9,
                b7: b.b10,
                b8: b.b11,
                b9: b.b12,
                b10: b.b13,
                b11: b.b14,
                b12: b.b15,
                w0: b.w0,
                w1: b.w1,
                w2: b.w2,
                w3: b.w3,
                w4: b.w4,
                w5: b.w5,
            }),
        )),
        _ => None,
    }
}

#[tactic(auto, unfolding(crate::specs::Acquire::flat_release))]
pub fn of_release(s: acquire::release::Release) -> ReleaseFlat
    ensures { result ≡ flat_release s }
{
    match s {
        acquire::release::Release::Token(x0) => {
            let q0 = crate::of_hostif::of_token(x0);
            ReleaseFlat {
                tag: 0,
                b1: q0.b0,
                b2: q0.b1,
                b3: q0.b2,
                b4: q0.b3,
                b5: q0.b4,
                b6: q0.b5,
                b7: q0.b6,
                b8: q0.b7,
                b9: q0.b8,
                b10: q0.b9,
                b11: q0.b10,
                b12: q0.b11,
                w0: q0.w0,
                w1: q0.w1,
                w2: q0.w2,
                w3: q0.w3,
                w4: q0.w4,
            }
        },
        acquire::release::Release::Bits(x0, x1) => {
            let q0 = crate::of_sync::of_release_bits(x0);
            let q1 = crate::of_hardware::of_outcome(x1);
            ReleaseFlat {
                tag: 1,
                b1: q0.tag,
                b2: q0.b1,
                b3: q0.b2,
                b4: q0.b3,
                b5: q0.b4,
                b6: q0.b5,
                b7: q0.b6,
                b8: q1.tag,
                b9: q1.b1,
                b10: q1.b2,
                b11: q1.b3,
                b12: 0,
                w0: q0.w0,
                w1: q0.w1,
                w2: q1.w0,
                w3: 0,
                w4: 0,
            }
        },
    }
}

#[tactic(auto, unfolding(crate::specs::Acquire::the_release))]
pub fn release(b: ReleaseFlat) -> acquire::release::Release
    ensures { result ≡ the_release b }
{
    let tag = b.tag;
    match tag {
        0 => acquire::release::Release::Token(crate::of_hostif::token(
            crate::of_hostif::TokenFlat {
                b0: b.b1,
                b1: b.b2,
                b2: b.b3,
                b3: b.b4,
                b4: b.b5,
                b5: b.b6,
                b6: b.b7,
                b7: b.b8,
                b8: b.b9,
                b9: b.b10,
                b10: b.b11,
                b11: b.b12,
                w0: b.w0,
                w1: b.w1,
                w2: b.w2,
                w3: b.w3,
                w4: b.w4,
            },
        )),
        _ => acquire::release::Release::Bits(
            crate::of_sync::release_bits(crate::of_sync::ReleaseBitsFlat {
                tag: b.b1,
                b1: b.b2,
                b2: b.b3,
                b3: b.b4,
                b4: b.b5,
                b5: b.b6,
                b6: b.b7,
                w0: b.w0,
                w1: b.w1,
            }),
            crate::of_hardware::outcome(crate::of_hardware::OutcomeFlat {
                tag: b.b8,
                b1: b.b9,
                b2: b.b10,
                b3: b.b11,
                w0: b.w2,
            }),
        ),
    }
}

#[tactic(auto, unfolding(crate::specs::Acquire::flat_release_call))]
pub fn of_release_call(s: acquire::calls::ReleaseCall) -> crate::State
    ensures { result ≡ flat_release_call s }
{
    match s {
        Some((x0, x1, x2)) => {
            let q0 = crate::of_hardware::of_port(x0);
            let q2 = of_release(x2);
            crate::State {
                call: 6,
                tag: 0,
                b1: q0.b0,
                b2: q0.b1,
                b3: q2.tag,
                b4: q2.b1,
                b5: q2.b2,
                b6: q2.b3,
                b7: q2.b4,
                b8: q2.b5,
                b9: q2.b6,
                b10: q2.b7,
                b11: q2.b8,
                b12: q2.b9,
                b13: q2.b10,
                b14: q2.b11,
                b15: q2.b12,
                b16: 0,
                b17: 0,
                b18: 0,
                b19: 0,
                b20: 0,
                b21: 0,
                b22: 0,
                b23: 0,
                h0: q0.h0,
                h1: 0,
                h2: 0,
                h3: 0,
                h4: 0,
                h5: 0,
                h6: 0,
                w0: q2.w0,
                w1: q2.w1,
                w2: q2.w2,
                w3: q2.w3,
                w4: q2.w4,
                w5: x1,
                w6: 0,
                w7: 0,
                w8: 0,
                z0: 0,
            }
        },
        None => crate::State {
            call: 6,
            tag: 1,
            b1: 0,
            b2: 0,
            b3: 0,
            b4: 0,
            b5: 0,
            b6: 0,
            b7: 0,
            b8: 0,
            b9: 0,
            b10: 0,
            b11: 0,
            b12: 0,
            b13: 0,
            b14: 0,
            b15: 0,
            b16: 0,
            b17: 0,
            b18: 0,
            b19: 0,
            b20: 0,
            b21: 0,
            b22: 0,
            b23: 0,
            h0: 0,
            h1: 0,
            h2: 0,
            h3: 0,
            h4: 0,
            h5: 0,
            h6: 0,
            w0: 0,
            w1: 0,
            w2: 0,
            w3: 0,
            w4: 0,
            w5: 0,
            w6: 0,
            w7: 0,
            w8: 0,
            z0: 0,
        },
    }
}

#[tactic(auto, unfolding(crate::specs::Acquire::the_release_call))]
pub fn release_call(b: crate::State) -> acquire::calls::ReleaseCall
    ensures { result ≡ the_release_call b }
{
    let tag = b.tag;
    match tag {
        0 => Some((
            crate::of_hardware::port(crate::of_hardware::PortFlat {
                b0: b.b1,
                b1: b.b2,
                h0: b.h0,
            }),
            b.w5,
            release(ReleaseFlat {
                tag: b.b3,
                b1: b.b4,
                b2: b.b5,
                b3: b.b6,
                b4: b.b7,
                b5: b.b8,
                b6: b.b9,
                b7: b.b10,
                b8: b.b11,
                b9: b.b12,
                b10: b.b13,
                b11: b.b14,
                b12: b.b15,
                w0: b.w0,
                w1: b.w1,
                w2: b.w2,
                w3: b.w3,
                w4: b.w4,
            }),
        )),
        _ => None,
    }
}
