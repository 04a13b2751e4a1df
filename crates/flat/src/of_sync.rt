// States of `sync` as numbers, and back. Written by `derive`.
ghost use Rattle.std.specs.Prelude.{◌≡◌};
ghost use Rattle.flat.specs.Sync.{flat_swesmbi, the_swesmbi, flat_lock, the_lock, flat_unlock, the_unlock, flat_stage, the_stage, flat_acquire_bits, the_acquire_bits, flat_release_bits, the_release_bits};

#[repr(C)]
#[derive(Clone, Copy)]
pub struct SwesmbiFlat {
    pub tag: u8,
    pub b1: u8,
    pub w0: u32,
    pub w1: u32,
}

#[repr(C)]
#[derive(Clone, Copy)]
pub struct LockFlat {
    pub tag: u8,
    pub b1: u8,
    pub b2: u8,
    pub w0: u32,
    pub w1: u32,
}

#[repr(C)]
#[derive(Clone, Copy)]
pub struct UnlockFlat {
    pub tag: u8,
    pub b1: u8,
    pub w0: u32,
}

#[repr(C)]
#[derive(Clone, Copy)]
pub struct StageFlat {
    pub tag: u8,
    pub b1: u8,
    pub b2: u8,
    pub b3: u8,
    pub b4: u8,
    pub b5: u8,
    pub b6: u8,
    pub w0: u32,
    pub w1: u32,
}

#[repr(C)]
#[derive(Clone, Copy)]
pub struct AcquireBitsFlat {
    pub b0: u8,
    pub b1: u8,
    pub b2: u8,
    pub b3: u8,
    pub b4: u8,
    pub b5: u8,
    pub b6: u8,
    pub w0: u32,
    pub w1: u32,
    pub w2: u32,
}

#[repr(C)]
#[derive(Clone, Copy)]
pub struct ReleaseBitsFlat {
    pub tag: u8,
    pub b1: u8,
    pub b2: u8,
    pub b3: u8,
    pub b4: u8,
    pub b5: u8,
    pub b6: u8,
    pub w0: u32,
    pub w1: u32,
}

#[tactic(auto, unfolding(crate::specs::Sync::flat_swesmbi))]
pub fn of_swesmbi(s: sync::swesmbi::Swesmbi) -> SwesmbiFlat
    ensures { result ≡ flat_swesmbi s }
{
    match s {
        sync::swesmbi::Swesmbi::Setting(x0, x1) => {
            let q1 = crate::of_hardware::of_update(x1);
            SwesmbiFlat {
                tag: 0,
                b1: q1.tag,
                w0: q1.w0,
                w1: x0,
            }
        },
        sync::swesmbi::Swesmbi::Checking(x0) => SwesmbiFlat {
            tag: 1,
            b1: 0,
            w0: x0,
            w1: 0,
        },
        sync::swesmbi::Swesmbi::Waiting(x0) => SwesmbiFlat {
            tag: 2,
            b1: 0,
            w0: x0,
            w1: 0,
        },
    }
}

#[tactic(auto, unfolding(crate::specs::Sync::the_swesmbi))]
pub fn swesmbi(b: SwesmbiFlat) -> sync::swesmbi::Swesmbi
    ensures { result ≡ the_swesmbi b }
{
    let tag = b.tag;
    match tag {
        0 => sync::swesmbi::Swesmbi::Setting(
            b.w1,
            crate::of_hardware::update(crate::of_hardware::UpdateFlat {
                tag: b.b1,
                w0: b.w0,
            }),
        ),
        1 => sync::swesmbi::Swesmbi::Checking(b.w0),
        _ => sync::swesmbi::Swesmbi::Waiting(b.w0),
    }
}

#[tactic(auto, unfolding(crate::specs::Sync::flat_lock))]
pub fn of_lock(s: sync::lock::Lock) -> LockFlat
    ensures { result ≡ flat_lock s }
{
    match s {
        sync::lock::Lock::Smbi(x0) => {
            let q0 = crate::of_hardware::of_poll(x0);
            LockFlat {
                tag: 0,
                b1: q0.tag,
                b2: 0,
                w0: q0.w0,
                w1: q0.w1,
            }
        },
        sync::lock::Lock::Second(x0) => {
            let q0 = of_swesmbi(x0);
            LockFlat {
                tag: 1,
                b1: q0.tag,
                b2: q0.b1,
                w0: q0.w0,
                w1: q0.w1,
            }
        },
        sync::lock::Lock::Regsmp(x0) => {
            let q0 = crate::of_hardware::of_poll(x0);
            LockFlat {
                tag: 2,
                b1: q0.tag,
                b2: 0,
                w0: q0.w0,
                w1: q0.w1,
            }
        },
        sync::lock::Lock::Back(x0, x1) => {
            let q1 = crate::of_hardware::of_update(x1);
            LockFlat {
                tag: 3,
                b1: q1.tag,
                b2: 0,
                w0: q1.w0,
                w1: x0,
            }
        },
    }
}

#[tactic(auto, unfolding(crate::specs::Sync::the_lock))]
pub fn lock(b: LockFlat) -> sync::lock::Lock
    ensures { result ≡ the_lock b }
{
    let tag = b.tag;
    match tag {
        0 => sync::lock::Lock::Smbi(crate::of_hardware::poll(crate::of_hardware::PollFlat {
            tag: b.b1,
            w0: b.w0,
            w1: b.w1,
        })),
        1 => sync::lock::Lock::Second(swesmbi(SwesmbiFlat {
            tag: b.b1,
            b1: b.b2,
            w0: b.w0,
            w1: b.w1,
        })),
        2 => sync::lock::Lock::Regsmp(crate::of_hardware::poll(crate::of_hardware::PollFlat {
            tag: b.b1,
            w0: b.w0,
            w1: b.w1,
        })),
        _ => sync::lock::Lock::Back(
            b.w1,
            crate::of_hardware::update(crate::of_hardware::UpdateFlat {
                tag: b.b1,
                w0: b.w0,
            }),
        ),
    }
}

#[tactic(auto, unfolding(crate::specs::Sync::flat_unlock))]
pub fn of_unlock(s: sync::unlock::Unlock) -> UnlockFlat
    ensures { result ≡ flat_unlock s }
{
    match s {
        sync::unlock::Unlock::Sync(x0) => {
            let q0 = crate::of_hardware::of_update(x0);
            UnlockFlat {
                tag: 0,
                b1: q0.tag,
                w0: q0.w0,
            }
        },
        sync::unlock::Unlock::Swsm(x0) => {
            let q0 = crate::of_hardware::of_update(x0);
            UnlockFlat {
                tag: 1,
                b1: q0.tag,
                w0: q0.w0,
            }
        },
    }
}

#[tactic(auto, unfolding(crate::specs::Sync::the_unlock))]
pub fn unlock(b: UnlockFlat) -> sync::unlock::Unlock
    ensures { result ≡ the_unlock b }
{
    let tag = b.tag;
    match tag {
        0 => sync::unlock::Unlock::Sync(crate::of_hardware::update(
            crate::of_hardware::UpdateFlat {
                tag: b.b1,
                w0: b.w0,
            },
        )),
        _ => sync::unlock::Unlock::Swsm(crate::of_hardware::update(
            crate::of_hardware::UpdateFlat {
                tag: b.b1,
                w0: b.w0,
            },
        )),
    }
}

#[tactic(auto, unfolding(crate::specs::Sync::flat_stage))]
pub fn of_stage(s: sync::acquire_bits::Stage) -> StageFlat
    ensures { result ≡ flat_stage s }
{
    match s {
        sync::acquire_bits::Stage::Locking(x0) => {
            let q0 = of_lock(x0);
            StageFlat {
                tag: 0,
                b1: q0.tag,
                b2: q0.b1,
                b3: q0.b2,
                b4: 0,
                b5: 0,
                b6: 0,
                w0: q0.w0,
                w1: q0.w1,
            }
        },
        sync::acquire_bits::Stage::Reading => StageFlat {
            tag: 1,
            b1: 0,
            b2: 0,
            b3: 0,
            b4: 0,
            b5: 0,
            b6: 0,
            w0: 0,
            w1: 0,
        },
        sync::acquire_bits::Stage::Taking(x0) => StageFlat {
            tag: 2,
            b1: 0,
            b2: 0,
            b3: 0,
            b4: 0,
            b5: 0,
            b6: 0,
            w0: x0,
            w1: 0,
        },
        sync::acquire_bits::Stage::Taken(x0, x1) => {
            let q0 = of_unlock(x0);
            let q1 = crate::of_hardware::of_outcome(x1);
            StageFlat {
                tag: 3,
                b1: q1.tag,
                b2: q1.b1,
                b3: q1.b2,
                b4: q1.b3,
                b5: q0.tag,
                b6: q0.b1,
                w0: q1.w0,
                w1: q0.w0,
            }
        },
        sync::acquire_bits::Stage::Muxing(x0) => {
            let q0 = crate::of_hardware::of_update(x0);
            StageFlat {
                tag: 4,
                b1: q0.tag,
                b2: 0,
                b3: 0,
                b4: 0,
                b5: 0,
                b6: 0,
                w0: q0.w0,
                w1: 0,
            }
        },
        sync::acquire_bits::Stage::Unlocking(x0, x1) => {
            let q0 = of_unlock(x0);
            StageFlat {
                tag: 5,
                b1: q0.tag,
                b2: q0.b1,
                b3: 0,
                b4: 0,
                b5: 0,
                b6: 0,
                w0: q0.w0,
                w1: x1,
            }
        },
        sync::acquire_bits::Stage::Waiting(x0) => StageFlat {
            tag: 6,
            b1: 0,
            b2: 0,
            b3: 0,
            b4: 0,
            b5: 0,
            b6: 0,
            w0: x0,
            w1: 0,
        },
    }
}

#[tactic(auto, unfolding(crate::specs::Sync::the_stage))]
pub fn stage(b: StageFlat) -> sync::acquire_bits::Stage
    ensures { result ≡ the_stage b }
{
    let tag = b.tag;
    match tag {
        0 => sync::acquire_bits::Stage::Locking(lock(LockFlat {
            tag: b.b1,
            b1: b.b2,
            b2: b.b3,
            w0: b.w0,
            w1: b.w1,
        })),
        1 => sync::acquire_bits::Stage::Reading,
        2 => sync::acquire_bits::Stage::Taking(b.w0),
        3 => sync::acquire_bits::Stage::Taken(
            unlock(UnlockFlat {
                tag: b.b5,
                b1: b.b6,
                w0: b.w1,
            }),
            crate::of_hardware::outcome(crate::of_hardware::OutcomeFlat {
                tag: b.b1,
                b1: b.b2,
                b2: b.b3,
                b3: b.b4,
                w0: b.w0,
            }),
        ),
        4 => sync::acquire_bits::Stage::Muxing(crate::of_hardware::update(
            crate::of_hardware::UpdateFlat {
                tag: b.b1,
                w0: b.w0,
            },
        )),
        5 => sync::acquire_bits::Stage::Unlocking(
            unlock(UnlockFlat {
                tag: b.b1,
                b1: b.b2,
                w0: b.w0,
            }),
            b.w1,
        ),
        _ => sync::acquire_bits::Stage::Waiting(b.w0),
    }
}

#[tactic(auto, unfolding(crate::specs::Sync::flat_acquire_bits))]
pub fn of_acquire_bits(s: sync::acquire_bits::AcquireBits) -> AcquireBitsFlat
    ensures { result ≡ flat_acquire_bits s }
{
    let p1 = s.stage;
    let q1 = of_stage(p1);
    AcquireBitsFlat {
        b0: q1.tag,
        b1: q1.b1,
        b2: q1.b2,
        b3: q1.b3,
        b4: q1.b4,
        b5: q1.b5,
        b6: q1.b6,
        w0: q1.w0,
        w1: q1.w1,
        w2: s.left,
    }
}

#[tactic(auto, unfolding(crate::specs::Sync::the_acquire_bits))]
pub fn acquire_bits(b: AcquireBitsFlat) -> sync::acquire_bits::AcquireBits
    ensures { result ≡ the_acquire_bits b }
{
    let p1 = stage(StageFlat {
        tag: b.b0,
        b1: b.b1,
        b2: b.b2,
        b3: b.b3,
        b4: b.b4,
        b5: b.b5,
        b6: b.b6,
        w0: b.w0,
        w1: b.w1,
    });
    sync::acquire_bits::AcquireBits {
        left: b.w2,
        stage: p1,
    }
}

#[tactic(auto, unfolding(crate::specs::Sync::flat_release_bits))]
pub fn of_release_bits(s: sync::release_bits::ReleaseBits) -> ReleaseBitsFlat
    ensures { result ≡ flat_release_bits s }
{
    match s {
        sync::release_bits::ReleaseBits::Muxing(x0) => {
            let q0 = crate::of_hardware::of_update(x0);
            ReleaseBitsFlat {
                tag: 0,
                b1: q0.tag,
                b2: 0,
                b3: 0,
                b4: 0,
                b5: 0,
                b6: 0,
                w0: q0.w0,
                w1: 0,
            }
        },
        sync::release_bits::ReleaseBits::Locking(x0) => {
            let q0 = of_lock(x0);
            ReleaseBitsFlat {
                tag: 1,
                b1: q0.tag,
                b2: q0.b1,
                b3: q0.b2,
                b4: 0,
                b5: 0,
                b6: 0,
                w0: q0.w0,
                w1: q0.w1,
            }
        },
        sync::release_bits::ReleaseBits::Clearing(x0) => {
            let q0 = crate::of_hardware::of_update(x0);
            ReleaseBitsFlat {
                tag: 2,
                b1: q0.tag,
                b2: 0,
                b3: 0,
                b4: 0,
                b5: 0,
                b6: 0,
                w0: q0.w0,
                w1: 0,
            }
        },
        sync::release_bits::ReleaseBits::Unlocking(x0, x1) => {
            let q0 = of_unlock(x0);
            let q1 = crate::of_hardware::of_outcome(x1);
            ReleaseBitsFlat {
                tag: 3,
                b1: q1.tag,
                b2: q1.b1,
                b3: q1.b2,
                b4: q1.b3,
                b5: q0.tag,
                b6: q0.b1,
                w0: q1.w0,
                w1: q0.w0,
            }
        },
        sync::release_bits::ReleaseBits::Waiting => ReleaseBitsFlat {
            tag: 4,
            b1: 0,
            b2: 0,
            b3: 0,
            b4: 0,
            b5: 0,
            b6: 0,
            w0: 0,
            w1: 0,
        },
    }
}

#[tactic(auto, unfolding(crate::specs::Sync::the_release_bits))]
pub fn release_bits(b: ReleaseBitsFlat) -> sync::release_bits::ReleaseBits
    ensures { result ≡ the_release_bits b }
{
    let tag = b.tag;
    match tag {
        0 => sync::release_bits::ReleaseBits::Muxing(crate::of_hardware::update(
            crate::of_hardware::UpdateFlat {
                tag: b.b1,
                w0: b.w0,
            },
        )),
        1 => sync::release_bits::ReleaseBits::Locking(lock(LockFlat {
            tag: b.b1,
            b1: b.b2,
            b2: b.b3,
            w0: b.w0,
            w1: b.w1,
        })),
        2 => sync::release_bits::ReleaseBits::Clearing(crate::of_hardware::update(
            crate::of_hardware::UpdateFlat {
                tag: b.b1,
                w0: b.w0,
            },
        )),
        3 => sync::release_bits::ReleaseBits::Unlocking(
            unlock(UnlockFlat {
                tag: b.b5,
                b1: b.b6,
                w0: b.w1,
            }),
            crate::of_hardware::outcome(crate::of_hardware::OutcomeFlat {
                tag: b.b1,
                b1: b.b2,
                b2: b.b3,
                b3: b.b4,
                w0: b.w0,
            }),
        ),
        _ => sync::release_bits::ReleaseBits::Waiting,
    }
}
