// The script of a case, made from its seed and its shape.
use crate::rng;

// The bytes so far, at most 64, and the stream that addresses and operands come from. A fixed array: no call allocates.
#[derive(Clone, Copy)]
pub struct Made {
    room: [u8; 64],
    count: usize,
    stream: u32,
}

impl Made {
    pub(crate) fn bytes(&self) -> Option<&[u8]> {
        self.room.get(..self.count)
    }

    // A byte more, None where it has no room.
    fn put(&mut self, b: u8) -> Option<()> {
        *self.room.get_mut(self.count)? = b;
        self.count += 1;
        Some(())
    }

    // The next byte of the stream.
    fn draw(&mut self) -> u8 {
        self.stream = rng::next(self.stream);
        rng::byte(self.stream)
    }

    // A start and the sending of an address that is even for sends and odd for reads.
    fn address(&mut self, read: u8) -> Option<()> {
        self.put(0x10)?;
        self.put(0x20)?;
        let b = self.draw();
        self.put(b & 0xfe | read)
    }

    fn sends(&mut self, count: u32) -> Option<()> {
        self.address(0)?;
        for _ in 0..count {
            self.put(0x20)?;
            let b = self.draw();
            self.put(b)?;
        }
        Some(())
    }

    fn reads(&mut self, count: u32) -> Option<()> {
        self.address(1)?;
        for _ in 0..count {
            self.put(0x30)?;
        }
        self.put(0x31)
    }

    // The phrase that a byte of the shape, less one, names.
    fn phrase(&mut self, p: u8) -> Option<()> {
        let count = u32::from(p / 2);
        if p % 2 == 0 {
            self.sends(count)
        } else {
            self.reads(count)
        }
    }
}

// The phrases from the lowest byte of the shape up to the first that is 0, and a stop.
pub(crate) fn script(seed: u32, shape: u32) -> Option<Made> {
    let mut made = Made {
        room: [0; 64],
        count: 0,
        stream: seed,
    };
    for b in shape.to_le_bytes() {
        let Some(p) = b.checked_sub(1) else { break };
        made.phrase(p)?;
    }
    made.put(0x40)?;
    Some(made)
}
