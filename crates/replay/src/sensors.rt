// What the module on the lines sends to the call of light: of each byte some bits are the stream's, as the shape has it. A choice
// is a number of bits of the shape.
use crate::reads::Change;

// What becomes of the stream's bits in a coefficient, by its choice.
fn change(choice: u32) -> Change {
    let (and, or) = match choice {
        0 => (0xffff_ffff, 0),
        2 => (0, 0x8000_0000),
        3 => (0, 0x3f80_0000),
        4 => (0, 0xbf80_0000),
        5 => (0x807f_ffff, 0),
        6 => (0, 1),
        7 => (0, 0x7f7f_ffff),
        8 => (0, 0xff7f_ffff),
        9 => (0x8000_0000, 0x7f80_0000),
        10 => (0x807f_ffff, 0x7f80_0001),
        11 => (0xff7f_ffff, 0),
        12 => (0x83ff_ffff, 0x3c00_0000),
        13 => (0x8fff_ffff, 0x2000_0000),
        14 => (0x8f7f_ffff, 0x7000_0000),
        15 => (0x8000_0000, 0x0080_0000),
        _ => (0, 0),
    };
    Change { and, or }
}

// The choice of Rx_PWR(n).
fn choice(shape: u32, n: u32) -> u32 {
    match n {
        4 => shape / 0x1000 % 16,
        3 => shape / 0x1_0000 % 16,
        2 => shape / 0x10_0000 % 16,
        1 => shape / 0x100_0000 % 16,
        _ => shape / 0x1000_0000,
    }
}

// The byte of a number that has so many after it, high byte first.
fn part(number: u32, after: u32) -> u8 {
    let [lowest, low, high, highest] = number.to_le_bytes();
    match after {
        0 => lowest,
        1 => low,
        2 => high,
        _ => highest,
    }
}

fn coefficient(shape: u32, n: u32, after: u32, drawn: u8) -> u8 {
    let Change { and, or } = change(choice(shape, n));
    drawn & part(and, after) | part(or, after)
}

// A byte of the temperature.
fn temperature(choice: u32, after: u32, drawn: u8) -> u8 {
    match choice {
        0 => drawn,
        1 => part(0x8000, after),
        2 => part(0xffff, after),
        _ => part(0x7fff, after),
    }
}

// A byte of the count of received light.
fn count(choice: u32, after: u32, drawn: u8) -> u8 {
    match choice {
        0 => drawn,
        1 => 0,
        2 => part(1, after),
        _ => part(0xffff, after),
    }
}

// With so many bytes left, 1 to 31; drawn is the stream's byte.
pub(crate) fn byte(shape: u32, left: u32, drawn: u8) -> u8 {
    match left {
        31 => (shape & 0xff) as u8,
        29..=30 => temperature(shape / 256 % 4, left - 29, drawn),
        21..=22 => count(shape / 1024 % 4, left - 21, drawn),
        1..=20 => coefficient(shape, (left - 1) / 4, (left - 1) % 4, drawn),
        _ => drawn,
    }
}
