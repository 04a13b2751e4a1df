// A rule of the lines: I2CCTL answers as if a module that acknowledges every byte were on its lines.
ghost use Rattle.std.specs.Prelude.{◌≤◌};

use crate::queue::Queue;
use crate::reads::{Change, Turns};

// The bits of I2CCTL, in one of its layouts.
#[derive(Clone, Copy)]
pub struct Bits {
    scl_in: u32,
    scl_out: u32,
    sda_in: u32,
    sda_out: u32,
}

const EARLY: Bits = Bits {
    scl_in: 1,
    scl_out: 2,
    sda_in: 4,
    sda_out: 8,
};

// That of the X552 and X553.
const LATE: Bits = Bits {
    scl_in: 0x4000,
    scl_out: 0x0200,
    sda_in: 0x1000,
    sda_out: 0x0400,
};

impl Bits {
    // Where the register is I2CCTL.
    pub(crate) fn at(register: u32) -> Option<Self> {
        match register {
            0x0_0028 => Some(EARLY),
            0x1_5f5c => Some(LATE),
            _ => None,
        }
    }
}

// The rule, and what the lines have come to. In each period the reads from at on, so many as run says, are changed. slot: the SCL
// pulse since a START, 1 to 8 for a byte's bits and 9 for its acknowledgement; None before a START and after a STOP. since: the
// reads since SCL rose; SCL is read high from stretch on, SDA acknowledges from late on. first: the byte is the address after a
// START. sends: that address asks the module to send.
#[derive(Clone, Copy)]
pub struct Lines {
    pub register: u32,
    pub turns: Turns,
    pub at: u32,
    pub run: u32,
    pub change: Change,
    pub stretch: u32,
    pub late: u32,
    pub bits: Bits,
    pub scl: bool,
    pub sda: bool,
    pub slot: Option<u32>,
    pub since: u32,
    pub first: bool,
    pub sends: bool,
    pub queue: Option<Queue>,
}

// The value with the bit set or not.
fn with(v: u32, bit: u32, set: bool) -> u32 {
    if set { v | bit } else { v & !bit }
}

impl Lines {
    // SDA changed while SCL stayed high: a STOP or a START.
    fn turned(&mut self, sda: bool) {
        if self.sda == sda {
            return;
        }
        if sda {
            self.slot = None;
        } else {
            self.slot = Some(9);
            self.first = true;
            self.sends = false;
        }
    }

    // The pulse of an acknowledgement: the byte is over.
    fn ended(&mut self) {
        if self.first {
            self.first = false;
        } else if self.sends {
            self.queue = self.queue.and_then(Queue::sent);
        }
    }

    // SCL rose. The last bit of an address says who sends.
    fn risen(&mut self, sda: bool) {
        self.slot = self.slot.map(|slot| slot % 9 + 1);
        self.since = 0;
        match self.slot {
            Some(8) if self.first => self.sends = sda,
            Some(9) => self.ended(),
            _ => {}
        }
    }

    // A write of the register.
    pub(crate) fn written(&mut self, v: u32) {
        let scl = v & self.bits.scl_out != 0;
        let sda = v & self.bits.sda_out != 0;
        if scl && self.scl {
            self.turned(sda);
        } else if scl {
            self.risen(sda);
        }
        self.scl = scl;
        self.sda = sda;
    }

    // Whether the module holds SDA low to acknowledge.
    fn acknowledges(&self) -> bool {
        self.scl && self.slot == Some(9) && self.late <= self.since
    }

    // SDA in the slot of a byte's bit, the highest first: the queue's where the module sends, else the stream's.
    fn bit(&self, slot: u32, v: u32) -> u32
        requires { slot ≤ 8 }
    {
        match self.queue {
            Some(queue) if self.sends && !self.first => {
                let byte = u32::from(queue.byte);
                with(v, self.bits.sda_in, byte << slot & 0x100 != 0)
            }
            _ => v,
        }
    }

    // SDA as it is read.
    fn sampled(&self, v: u32) -> u32 {
        match self.slot {
            Some(slot @ 1..=8) if self.scl => self.bit(slot, v),
            _ => with(v, self.bits.sda_in, !self.acknowledges()),
        }
    }

    // Within the window the value is changed.
    fn in_window(&self, v: u32) -> u32 {
        let inside = self
            .turns
            .turn()
            .checked_sub(self.at)
            .is_some_and(|k| k < self.run);
        if inside { self.change.of(v) } else { v }
    }

    // The value of a read, made from the stream's. The read counts.
    pub(crate) fn read(&mut self, v: u32) -> u32 {
        let outs = with(
            with(v, self.bits.scl_out, self.scl),
            self.bits.sda_out,
            self.sda,
        );
        let high = self.scl && self.stretch <= self.since;
        let value = self.in_window(self.sampled(with(outs, self.bits.scl_in, high)));
        self.turns.count();
        self.since = self.since.wrapping_add(1);
        value
    }
}
