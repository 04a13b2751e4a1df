// The check bytes of the combined transfers.
#![tactic(auto, unfolding(crate::specs::Sum::ones_add, crate::specs::Sum::high_write, crate::specs::Sum::high_read, crate::specs::Sum::read_check, crate::specs::Sum::check_byte, crate::specs::Sum::ones_sum, crate::specs::Sum::ones_sum_from, crate::specs::Sum::write_check))]

ghost use Rattle.std.specs.Prelude.{◌≡◌};
ghost use Rattle.script.specs.Sum.{ones_add, high_read, high_write, low, high, read_check, write_check};

// One's-complement sum, carry folded back in.
pub fn ones_add(a: u8, b: u8) -> u8
    ensures { result ≡ ones_add a b }
{
    let sum = a as u16 + b as u16;
    (sum % 256 + sum / 256) as u8
}

// The lower byte.
pub(crate) fn low(v: u16) -> u8
    ensures { result ≡ low v }
{
    (v % 256) as u8
}

// The upper byte.
pub(crate) fn high(v: u16) -> u8
    ensures { result ≡ high v }
{
    (v / 256) as u8
}

// The upper bits of a register's 15, with the flag of a write.
pub(crate) fn high_write(reg: u16) -> u8
    ensures { result ≡ high_write reg }
{
    (reg / 128 % 256) as u8 & 0xfe
}

// The same with the flag of a read.
pub(crate) fn high_read(reg: u16) -> u8
    ensures { result ≡ high_read reg }
{
    high_write(reg) | 1
}

// The check byte of a combined read.
pub fn read_check(reg: u16) -> u8
    ensures { result ≡ read_check reg }
{
    255 - ones_add(high_read(reg), low(reg))
}

// The check byte of a combined write.
pub fn write_check(reg: u16, value: u16) -> u8
    ensures { result ≡ write_check reg value }
{
    let address = ones_add(high_write(reg), low(reg));
    255 - ones_add(ones_add(address, high(value)), low(value))
}
