// What the rules share: when a read's value is changed, and how.

// The reads of a register so far, in periods; with a period of 0 they are counted on.
#[derive(Clone, Copy)]
pub struct Turns {
    pub period: u32,
    pub reads: u32,
}

impl Turns {
    pub(crate) fn begun(period: u32) -> Self {
        Turns { period, reads: 0 }
    }

    // The reads in the period so far.
    pub(crate) fn turn(&self) -> u32 {
        self.reads.checked_rem(self.period).unwrap_or(self.reads)
    }

    pub(crate) fn count(&mut self) {
        self.reads = self.reads.wrapping_add(1);
    }
}

// The bits that are kept, and those that are set.
#[derive(Clone, Copy)]
pub struct Change {
    pub and: u32,
    pub or: u32,
}

impl Change {
    pub(crate) fn of(self, v: u32) -> u32 {
        v & self.and | self.or
    }
}
