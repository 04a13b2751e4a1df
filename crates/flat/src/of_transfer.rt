// States of `transfer` as numbers, and back. Written by `derive`.
ghost use Rattle.std.specs.Prelude.{◌≡◌};
ghost use Rattle.flat.specs.Transfer.{flat_sequence, the_sequence, flat_transfer, the_transfer, flat_attempt, the_attempt, flat_got, the_got, flat_script_call, the_script_call};

#[repr(C)]
#[derive(Clone, Copy)]
pub struct TransferFlat {
    pub b0: u8,
    pub b1: u8,
    pub b2: u8,
    pub b3: u8,
    pub b4: u8,
    pub b5: u8,
    pub b6: u8,
    pub b7: u8,
    pub h0: u16,
    pub w0: u32,
    pub z0: usize,
}

#[repr(C)]
#[derive(Clone, Copy)]
pub struct AttemptFlat {
    pub tag: u8,
    pub b1: u8,
    pub b2: u8,
    pub b3: u8,
    pub b4: u8,
    pub b5: u8,
    pub b6: u8,
    pub b7: u8,
    pub b8: u8,
    pub h0: u16,
    pub w0: u32,
    pub z0: usize,
}

#[repr(C)]
#[derive(Clone, Copy)]
pub struct GotFlat {
    pub tag: u8,
    pub b1: u8,
    pub b2: u8,
    pub b3: u8,
    pub w0: u32,
}

#[tactic(auto, unfolding(crate::specs::Transfer::flat_sequence))]
pub fn of_sequence(s: transfer::attempt::Sequence) -> u8
    ensures { result ≡ flat_sequence s }
{
    match s {
        transfer::attempt::Sequence::Pulses => 0,
        transfer::attempt::Sequence::Rounds => 1,
    }
}

#[tactic(auto, unfolding(crate::specs::Transfer::the_sequence))]
pub fn sequence(b: u8) -> transfer::attempt::Sequence
    ensures { result ≡ the_sequence b }
{
    match b {
        0 => transfer::attempt::Sequence::Pulses,
        _ => transfer::attempt::Sequence::Rounds,
    }
}

#[tactic(auto, unfolding(crate::specs::Transfer::flat_transfer))]
pub fn of_transfer(s: transfer::transfer::Transfer) -> TransferFlat
    ensures { result ≡ flat_transfer s }
{
    let p1 = s.taken;
    let q1 = crate::of_bus::of_taken(p1);
    let p2 = s.job;
    let q2 = crate::of_bus::of_job(p2);
    TransferFlat {
        b0: q2.b0,
        b1: q2.b1,
        b2: q2.b2,
        b3: q2.b3,
        b4: q2.b4,
        b5: q1.b0,
        b6: q1.b1,
        b7: q1.b2,
        h0: q2.h0,
        w0: q2.w0,
        z0: s.at,
    }
}

#[tactic(auto, unfolding(crate::specs::Transfer::the_transfer))]
pub fn transfer(b: TransferFlat) -> transfer::transfer::Transfer
    ensures { result ≡ the_transfer b }
{
    let p1 = crate::of_bus::taken(crate::of_bus::TakenFlat {
        b0: b.b5,
        b1: b.b6,
        b2: b.b7,
    });
    let p2 = crate::of_bus::job(crate::of_bus::JobFlat {
        b0: b.b0,
        b1: b.b1,
        b2: b.b2,
        b3: b.b3,
        b4: b.b4,
        h0: b.h0,
        w0: b.w0,
    });
    transfer::transfer::Transfer {
        at: b.z0,
        taken: p1,
        job: p2,
    }
}

#[tactic(auto, unfolding(crate::specs::Transfer::flat_attempt))]
pub fn of_attempt(s: transfer::attempt::Attempt) -> AttemptFlat
    ensures { result ≡ flat_attempt s }
{
    match s {
        transfer::attempt::Attempt::New => AttemptFlat {
            tag: 0,
            b1: 0,
            b2: 0,
            b3: 0,
            b4: 0,
            b5: 0,
            b6: 0,
            b7: 0,
            b8: 0,
            h0: 0,
            w0: 0,
            z0: 0,
        },
        transfer::attempt::Attempt::Moving(x0) => {
            let q0 = of_transfer(x0);
            AttemptFlat {
                tag: 1,
                b1: q0.b0,
                b2: q0.b1,
                b3: q0.b2,
                b4: q0.b3,
                b5: q0.b4,
                b6: q0.b5,
                b7: q0.b6,
                b8: q0.b7,
                h0: q0.h0,
                w0: q0.w0,
                z0: q0.z0,
            }
        },
        transfer::attempt::Attempt::Clearing(x0) => {
            let q0 = crate::of_bus::of_clear(x0);
            AttemptFlat {
                tag: 2,
                b1: q0.b0,
                b2: q0.b1,
                b3: q0.b2,
                b4: q0.b3,
                b5: q0.b4,
                b6: q0.b5,
                b7: q0.b6,
                b8: 0,
                h0: q0.h0,
                w0: q0.w0,
                z0: 0,
            }
        },
    }
}

#[tactic(auto, unfolding(crate::specs::Transfer::the_attempt))]
pub fn attempt(b: AttemptFlat) -> transfer::attempt::Attempt
    ensures { result ≡ the_attempt b }
{
    let tag = b.tag;
    match tag {
        0 => transfer::attempt::Attempt::New,
        1 => transfer::attempt::Attempt::Moving(transfer(TransferFlat {
            b0: b.b1,
            b1: b.b2,
            b2: b.b3,
            b3: b.b4,
            b4: b.b5,
            b5: b.b6,
            b6: b.b7,
            b7: b.b8,
            h0: b.h0,
            w0: b.w0,
            z0: b.z0,
        })),
        _ => transfer::attempt::Attempt::Clearing(crate::of_bus::clear(crate::of_bus::ClearFlat {
            b0: b.b1,
            b1: b.b2,
            b2: b.b3,
            b3: b.b4,
            b4: b.b5,
            b5: b.b6,
            b6: b.b7,
            h0: b.h0,
            w0: b.w0,
        })),
    }
}

#[tactic(auto, unfolding(crate::specs::Transfer::flat_got))]
pub fn of_got(s: hardware::R<bus::Taken>) -> GotFlat
    ensures { result ≡ flat_got s }
{
    match s {
        Ok(x0) => {
            let q0 = crate::of_bus::of_taken(x0);
            GotFlat {
                tag: 0,
                b1: q0.b0,
                b2: q0.b1,
                b3: q0.b2,
                w0: 0,
            }
        },
        Err(x0) => {
            let q0 = crate::of_hardware::of_error(x0);
            GotFlat {
                tag: 1,
                b1: q0.tag,
                b2: q0.b1,
                b3: q0.b2,
                w0: q0.w0,
            }
        },
    }
}

#[tactic(auto, unfolding(crate::specs::Transfer::the_got))]
pub fn got(b: GotFlat) -> hardware::R<bus::Taken>
    ensures { result ≡ the_got b }
{
    let tag = b.tag;
    match tag {
        0 => Ok(crate::of_bus::taken(crate::of_bus::TakenFlat {
            b0: b.b1,
            b1: b.b2,
            b2: b.b3,
        })),
        _ => Err(crate::of_hardware::error(crate::of_hardware::ErrorFlat {
            tag: b.b1,
            b1: b.b2,
            b2: b.b3,
            w0: b.w0,
        })),
    }
}

#[tactic(auto, unfolding(crate::specs::Transfer::flat_script_call))]
pub fn of_script_call(s: transfer::calls::ScriptCall) -> crate::State
    ensures { result ≡ flat_script_call s }
{
    match s {
        Some((x0, x1, x2)) => {
            let q0 = crate::of_hardware::of_port(x0);
            let q1 = crate::of_hardware::of_meter(x1);
            let q2 = of_attempt(x2);
            crate::State {
                call: 9,
                tag: 0,
                b1: q0.b0,
                b2: q0.b1,
                b3: q1.b0,
                b4: q2.tag,
                b5: q2.b1,
                b6: q2.b2,
                b7: q2.b3,
                b8: q2.b4,
                b9: q2.b5,
                b10: q2.b6,
                b11: q2.b7,
                b12: q2.b8,
                b13: 0,
                b14: 0,
                b15: 0,
                b16: 0,
                b17: 0,
                b18: 0,
                b19: 0,
                b20: 0,
                b21: 0,
                b22: 0,
                b23: 0,
                h0: q0.h0,
                h1: q2.h0,
                h2: 0,
                h3: 0,
                h4: 0,
                h5: 0,
                h6: 0,
                w0: q1.w0,
                w1: q2.w0,
                w2: 0,
                w3: 0,
                w4: 0,
                w5: 0,
                w6: 0,
                w7: 0,
                w8: 0,
                z0: q2.z0,
            }
        },
        None => crate::State {
            call: 9,
            tag: 1,
            b1: 0,
            b2: 0,
            b3: 0,
            b4: 0,
            b5: 0,
            b6: 0,
            b7: 0,
            b8: 0,
            b9: 0,
            b10: 0,
            b11: 0,
            b12: 0,
            b13: 0,
            b14: 0,
            b15: 0,
            b16: 0,
            b17: 0,
            b18: 0,
            b19: 0,
            b20: 0,
            b21: 0,
            b22: 0,
            b23: 0,
            h0: 0,
            h1: 0,
            h2: 0,
            h3: 0,
            h4: 0,
            h5: 0,
            h6: 0,
            w0: 0,
            w1: 0,
            w2: 0,
            w3: 0,
            w4: 0,
            w5: 0,
            w6: 0,
            w7: 0,
            w8: 0,
            z0: 0,
        },
    }
}

#[tactic(auto, unfolding(crate::specs::Transfer::the_script_call))]
pub fn script_call(b: crate::State) -> transfer::calls::ScriptCall
    ensures { result ≡ the_script_call b }
{
    let tag = b.tag;
    match tag {
        0 => Some((
            crate::of_hardware::port(crate::of_hardware::PortFlat {
                b0: b.b1,
                b1: b.b2,
                h0: b.h0,
            }),
            crate::of_hardware::meter(crate::of_hardware::MeterFlat { b0: b.b3, w0: b.w0 }),
            attempt(AttemptFlat {
                tag: b.b4,
                b1: b.b5,
                b2: b.b6,
                b3: b.b7,
                b4: b.b8,
                b5: b.b9,
                b6: b.b10,
                b7: b.b11,
                b8: b.b12,
                h0: b.h1,
                w0: b.w1,
                z0: b.z0,
            }),
        )),
        _ => None,
    }
}
