// States of `bus` as numbers, and back. Written by `derive`.
ghost use Rattle.std.specs.Prelude.{◌≡◌};
ghost use Rattle.flat.specs.Bus.{flat_taken, the_taken, flat_goal, the_goal, flat_line, the_line, flat_line_state, the_line_state, flat_job, the_job, flat_part, the_part, flat_clear, the_clear};

#[repr(C)]
#[derive(Clone, Copy)]
pub struct TakenFlat {
    pub b0: u8,
    pub b1: u8,
    pub b2: u8,
}

#[repr(C)]
#[derive(Clone, Copy)]
pub struct GoalFlat {
    pub tag: u8,
    pub b1: u8,
    pub h0: u16,
}

#[repr(C)]
#[derive(Clone, Copy)]
pub struct LineFlat {
    pub tag: u8,
    pub b1: u8,
    pub b2: u8,
    pub h0: u16,
}

#[repr(C)]
#[derive(Clone, Copy)]
pub struct LineStateFlat {
    pub b0: u8,
    pub b1: u8,
    pub b2: u8,
    pub b3: u8,
    pub h0: u16,
    pub w0: u32,
}

#[repr(C)]
#[derive(Clone, Copy)]
pub struct JobFlat {
    pub b0: u8,
    pub b1: u8,
    pub b2: u8,
    pub b3: u8,
    pub b4: u8,
    pub h0: u16,
    pub w0: u32,
}

#[repr(C)]
#[derive(Clone, Copy)]
pub struct PartFlat {
    pub tag: u8,
    pub b1: u8,
}

#[repr(C)]
#[derive(Clone, Copy)]
pub struct ClearFlat {
    pub b0: u8,
    pub b1: u8,
    pub b2: u8,
    pub b3: u8,
    pub b4: u8,
    pub b5: u8,
    pub b6: u8,
    pub h0: u16,
    pub w0: u32,
}

#[tactic(auto, unfolding(crate::specs::Bus::flat_taken))]
pub fn of_taken(s: bus::Taken) -> TakenFlat
    ensures { result ≡ flat_taken s }
{
    TakenFlat {
        b0: s.high,
        b1: s.low,
        b2: s.last,
    }
}

#[tactic(auto, unfolding(crate::specs::Bus::the_taken))]
pub fn taken(b: TakenFlat) -> bus::Taken
    ensures { result ≡ the_taken b }
{
    bus::Taken {
        high: b.b0,
        low: b.b1,
        last: b.b2,
    }
}

#[tactic(auto, unfolding(crate::specs::Bus::flat_goal))]
pub fn of_goal(s: bus::line::Goal) -> GoalFlat
    ensures { result ≡ flat_goal s }
{
    match s {
        bus::line::Goal::High => GoalFlat {
            tag: 0,
            b1: 0,
            h0: 0,
        },
        bus::line::Goal::Free => GoalFlat {
            tag: 1,
            b1: 0,
            h0: 0,
        },
        bus::line::Goal::Low => GoalFlat {
            tag: 2,
            b1: 0,
            h0: 0,
        },
        bus::line::Goal::Release => GoalFlat {
            tag: 3,
            b1: 0,
            h0: 0,
        },
        bus::line::Goal::Down(x0) => GoalFlat {
            tag: 4,
            b1: x0,
            h0: 0,
        },
        bus::line::Goal::Up(x0) => GoalFlat {
            tag: 5,
            b1: 0,
            h0: x0,
        },
        bus::line::Goal::Close => GoalFlat {
            tag: 6,
            b1: 0,
            h0: 0,
        },
    }
}

#[tactic(auto, unfolding(crate::specs::Bus::the_goal))]
pub fn goal(b: GoalFlat) -> bus::line::Goal
    ensures { result ≡ the_goal b }
{
    let tag = b.tag;
    match tag {
        0 => bus::line::Goal::High,
        1 => bus::line::Goal::Free,
        2 => bus::line::Goal::Low,
        3 => bus::line::Goal::Release,
        4 => bus::line::Goal::Down(b.b1),
        5 => bus::line::Goal::Up(b.h0),
        _ => bus::line::Goal::Close,
    }
}

#[tactic(auto, unfolding(crate::specs::Bus::flat_line))]
pub fn of_line(s: bus::line::Line) -> LineFlat
    ensures { result ≡ flat_line s }
{
    match s {
        bus::line::Line::Look => LineFlat {
            tag: 0,
            b1: 0,
            b2: 0,
            h0: 0,
        },
        bus::line::Line::Pause(x0) => LineFlat {
            tag: 1,
            b1: x0,
            b2: 0,
            h0: 0,
        },
        bus::line::Line::Sample => LineFlat {
            tag: 2,
            b1: 0,
            b2: 0,
            h0: 0,
        },
        bus::line::Line::Ack(x0) => LineFlat {
            tag: 3,
            b1: x0,
            b2: 0,
            h0: 0,
        },
        bus::line::Line::Rest(x0) => LineFlat {
            tag: 4,
            b1: x0,
            b2: 0,
            h0: 0,
        },
        bus::line::Line::Write(x0) => {
            let q0 = of_goal(x0);
            LineFlat {
                tag: 5,
                b1: q0.tag,
                b2: q0.b1,
                h0: q0.h0,
            }
        },
        bus::line::Line::Flush(x0) => {
            let q0 = of_goal(x0);
            LineFlat {
                tag: 6,
                b1: q0.tag,
                b2: q0.b1,
                h0: q0.h0,
            }
        },
        bus::line::Line::Settle(x0) => {
            let q0 = of_goal(x0);
            LineFlat {
                tag: 7,
                b1: q0.tag,
                b2: q0.b1,
                h0: q0.h0,
            }
        },
        bus::line::Line::Check => LineFlat {
            tag: 8,
            b1: 0,
            b2: 0,
            h0: 0,
        },
        bus::line::Line::Rise(x0) => LineFlat {
            tag: 9,
            b1: 0,
            b2: 0,
            h0: x0,
        },
    }
}

#[tactic(auto, unfolding(crate::specs::Bus::the_line))]
pub fn line(b: LineFlat) -> bus::line::Line
    ensures { result ≡ the_line b }
{
    let tag = b.tag;
    match tag {
        0 => bus::line::Line::Look,
        1 => bus::line::Line::Pause(b.b1),
        2 => bus::line::Line::Sample,
        3 => bus::line::Line::Ack(b.b1),
        4 => bus::line::Line::Rest(b.b1),
        5 => bus::line::Line::Write(goal(GoalFlat {
            tag: b.b1,
            b1: b.b2,
            h0: b.h0,
        })),
        6 => bus::line::Line::Flush(goal(GoalFlat {
            tag: b.b1,
            b1: b.b2,
            h0: b.h0,
        })),
        7 => bus::line::Line::Settle(goal(GoalFlat {
            tag: b.b1,
            b1: b.b2,
            h0: b.h0,
        })),
        8 => bus::line::Line::Check,
        _ => bus::line::Line::Rise(b.h0),
    }
}

#[tactic(auto, unfolding(crate::specs::Bus::flat_line_state))]
pub fn of_line_state(s: bus::line::LineState) -> LineStateFlat
    ensures { result ≡ flat_line_state s }
{
    let p2 = s.line;
    let q2 = of_line(p2);
    LineStateFlat {
        b0: q2.tag,
        b1: q2.b1,
        b2: q2.b2,
        b3: s.bits,
        h0: q2.h0,
        w0: s.ctl,
    }
}

#[tactic(auto, unfolding(crate::specs::Bus::the_line_state))]
pub fn line_state(b: LineStateFlat) -> bus::line::LineState
    ensures { result ≡ the_line_state b }
{
    let p2 = line(LineFlat {
        tag: b.b0,
        b1: b.b1,
        b2: b.b2,
        h0: b.h0,
    });
    bus::line::LineState {
        ctl: b.w0,
        bits: b.b3,
        line: p2,
    }
}

#[tactic(auto, unfolding(crate::specs::Bus::flat_job))]
pub fn of_job(s: bus::job::Job) -> JobFlat
    ensures { result ≡ flat_job s }
{
    let p1 = s.state;
    let q1 = of_line_state(p1);
    JobFlat {
        b0: q1.b0,
        b1: q1.b1,
        b2: q1.b2,
        b3: q1.b3,
        b4: s.left,
        h0: q1.h0,
        w0: q1.w0,
    }
}

#[tactic(auto, unfolding(crate::specs::Bus::the_job))]
pub fn job(b: JobFlat) -> bus::job::Job
    ensures { result ≡ the_job b }
{
    let p1 = line_state(LineStateFlat {
        b0: b.b0,
        b1: b.b1,
        b2: b.b2,
        b3: b.b3,
        h0: b.h0,
        w0: b.w0,
    });
    bus::job::Job {
        left: b.b4,
        state: p1,
    }
}

#[tactic(auto, unfolding(crate::specs::Bus::flat_part))]
pub fn of_part(s: bus::clear::Part) -> PartFlat
    ensures { result ≡ flat_part s }
{
    match s {
        bus::clear::Part::First => PartFlat { tag: 0, b1: 0 },
        bus::clear::Part::Free => PartFlat { tag: 1, b1: 0 },
        bus::clear::Part::Again => PartFlat { tag: 2, b1: 0 },
        bus::clear::Part::Stop => PartFlat { tag: 3, b1: 0 },
        bus::clear::Part::Probe(x0) => PartFlat { tag: 4, b1: x0 },
        bus::clear::Part::Lower(x0) => PartFlat { tag: 5, b1: x0 },
        bus::clear::Part::Pull => PartFlat { tag: 6, b1: 0 },
    }
}

#[tactic(auto, unfolding(crate::specs::Bus::the_part))]
pub fn part(b: PartFlat) -> bus::clear::Part
    ensures { result ≡ the_part b }
{
    let tag = b.tag;
    match tag {
        0 => bus::clear::Part::First,
        1 => bus::clear::Part::Free,
        2 => bus::clear::Part::Again,
        3 => bus::clear::Part::Stop,
        4 => bus::clear::Part::Probe(b.b1),
        5 => bus::clear::Part::Lower(b.b1),
        _ => bus::clear::Part::Pull,
    }
}

#[tactic(auto, unfolding(crate::specs::Bus::flat_clear))]
pub fn of_clear(s: bus::clear::Clear) -> ClearFlat
    ensures { result ≡ flat_clear s }
{
    let p0 = s.part;
    let q0 = of_part(p0);
    let p1 = s.job;
    let q1 = of_job(p1);
    ClearFlat {
        b0: q1.b0,
        b1: q1.b1,
        b2: q1.b2,
        b3: q1.b3,
        b4: q1.b4,
        b5: q0.tag,
        b6: q0.b1,
        h0: q1.h0,
        w0: q1.w0,
    }
}

#[tactic(auto, unfolding(crate::specs::Bus::the_clear))]
pub fn clear(b: ClearFlat) -> bus::clear::Clear
    ensures { result ≡ the_clear b }
{
    let p0 = part(PartFlat {
        tag: b.b5,
        b1: b.b6,
    });
    let p1 = job(JobFlat {
        b0: b.b0,
        b1: b.b1,
        b2: b.b2,
        b3: b.b3,
        b4: b.b4,
        h0: b.h0,
        w0: b.w0,
    });
    bus::clear::Clear { part: p0, job: p1 }
}
