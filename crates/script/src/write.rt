// The scripts of the Rust's four transfers, as arrays and written into a lent buffer.
#![tactic(auto, unfolding(crate::specs::Scripts::read_byte_script, crate::specs::Scripts::write_byte_script, crate::specs::Scripts::read_combined_script, crate::specs::Scripts::write_combined_script, crate::specs::Scripts::is_even, crate::specs::Scripts::write_script, crate::specs::Scripts::wrote_as, hardware::specs::Prog::pick))]

ghost use Rattle.std.specs.Prelude.{◌≤◌, ◌≡◌, ◌++◌, length, drop};
ghost use Rattle.script.specs.Scripts.{is_even, read_byte_script, write_byte_script, read_combined_script, write_combined_script, write_script, wrote_as};

use crate::sum;
use hardware::Refusal;

pub fn read_byte_script(device: u8, offset: u8) -> [u8; 10]
    ensures { result ≡ read_byte_script device offset }
{
    [
        0x10,
        0x20,
        device,
        0x20,
        offset,
        0x10,
        0x20,
        device | 1,
        0x31,
        0x40,
    ]
}

pub fn write_byte_script(device: u8, offset: u8, value: u8) -> [u8; 8]
    ensures { result ≡ write_byte_script device offset value }
{
    [0x10, 0x20, device, 0x20, offset, 0x20, value, 0x40]
}

pub fn read_combined_script(device: u8, reg: u16) -> [u8; 16]
    ensures { result ≡ read_combined_script device reg }
{
    let high = sum::high_read(reg);
    let low = sum::low(reg);
    let csum = sum::read_check(reg);
    [
        0x10,
        0x20,
        device,
        0x20,
        high,
        0x20,
        low,
        0x20,
        csum,
        0x10,
        0x20,
        device | 1,
        0x30,
        0x30,
        0x31,
        0x40,
    ]
}

pub fn write_combined_script(device: u8, reg: u16, value: u16) -> [u8; 14]
    ensures { result ≡ write_combined_script device reg value }
{
    let high = sum::high_write(reg);
    let low = sum::low(reg);
    let value_high = sum::high(value);
    let value_low = sum::low(value);
    let csum = sum::write_check(reg, value);
    [
        0x10, 0x20, device, 0x20, high, 0x20, low, 0x20, value_high, 0x20, value_low, 0x20, csum,
        0x40,
    ]
}

fn even(device: u8) -> bool
    ensures { result ≡ is_even device }
{
    device % 2 == 0
}

fn put(buffer: &mut [u8], script: &[u8])
    requires { length script.now ≤ length buffer.old }
    ensures { buffer.new ≡ script.now ++ drop (length script.now) buffer.old }
{
    buffer[..script.len()].copy_from_slice(script);
}

// Questions 3 and 9, and then the script's bytes.
fn write(buffer: &mut [u8], device: u8, script: &[u8]) -> Result<usize, Refusal>
    ensures { wrote_as result buffer.new ≡ write_script device script.now buffer.old }
{
    if even(device) {
        if script.len() <= buffer.len() {
            put(buffer, script);
            return Ok(script.len());
        }
        return Err(Refusal::Buffer);
    }
    Err(Refusal::Device)
}

pub fn write_read_byte(buffer: &mut [u8], device: u8, offset: u8) -> Result<usize, Refusal>
    ensures { wrote_as result buffer.new ≡ write_script device (read_byte_script device offset) buffer.old }
{
    let script = read_byte_script(device, offset);
    write(buffer, device, &script)
}

pub fn write_write_byte(
    buffer: &mut [u8],
    device: u8,
    offset: u8,
    value: u8,
) -> Result<usize, Refusal>
    ensures { wrote_as result buffer.new ≡ write_script device (write_byte_script device offset value) buffer.old }
{
    let script = write_byte_script(device, offset, value);
    write(buffer, device, &script)
}

pub fn write_read_combined(buffer: &mut [u8], device: u8, reg: u16) -> Result<usize, Refusal>
    ensures { wrote_as result buffer.new ≡ write_script device (read_combined_script device reg) buffer.old }
{
    let script = read_combined_script(device, reg);
    write(buffer, device, &script)
}

pub fn write_write_combined(
    buffer: &mut [u8],
    device: u8,
    reg: u16,
    value: u16,
) -> Result<usize, Refusal>
    ensures { wrote_as result buffer.new ≡ write_script device (write_combined_script device reg value) buffer.old }
{
    let script = write_combined_script(device, reg, value);
    write(buffer, device, &script)
}
