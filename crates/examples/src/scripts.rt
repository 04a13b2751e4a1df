// Examples of scripts: the combined ones, what fits a buffer, and which are refused.
use crate::shown::Shown;
use std::io;

// The module's device, which the combined bytes do not depend on.
const DEVICE: u8 = 0xA0;

// The bytes sent between the device and the second start: two of the register and the check byte.
pub(crate) fn print_read(rt: &impl Print, reg: u16) -> io::Result<()> {
    let s = script::write::read_combined_script(DEVICE, reg);
    let sent = [s[4], s[6], s[8]];
    println!(rt; "combined read of {reg:04x}:{}", Shown(sent.as_slice()))
}

// The bytes sent after the device: two of the register, two of the value and the check byte.
pub(crate) fn print_write(rt: &impl Print, reg: u16, value: u16) -> io::Result<()> {
    let s = script::write::write_combined_script(DEVICE, reg, value);
    let sent = [s[4], s[6], s[8], s[10], s[12]];
    println!(rt;
        "combined write of {value:04x} to {reg:04x}:{}",
        Shown(sent.as_slice())
    )
}

fn print_buffer(rt: &impl Print, buffer: &mut [u8]) -> io::Result<()> {
    print!(rt; "script of read_byte, buffer of {} bytes: ", buffer.len())?;
    println!(rt;
        "{}",
        Shown(script::write::write_read_byte(buffer, DEVICE, 0))
    )
}

pub(crate) fn print_buffers(rt: &impl Print) -> io::Result<()> {
    print_buffer(rt, &mut [0; 9])?;
    print_buffer(rt, &mut [0; 10])
}

fn print_judged(rt: &impl Print, name: &str, bytes: &[u8]) -> io::Result<()> {
    println!(rt; "script {name}: {}", Shown(script::cursor::judge(bytes)))
}

// Sends: 10, 20 A0, thirty times 20 20, 40. Reads: 10, 20 A1, sixty times 30, 31, 40.
pub(crate) fn print_lengths(rt: &impl Print) -> io::Result<()> {
    let mut sends = [0x20u8; 64];
    sends[0] = 0x10;
    sends[2] = 0xA0;
    sends[63] = 0x40;
    print_judged(rt, "of 64 bytes", &sends)?;
    let mut reads = [0x30u8; 65];
    reads[0] = 0x10;
    reads[1] = 0x20;
    reads[2] = 0xA1;
    reads[63] = 0x31;
    reads[64] = 0x40;
    print_judged(rt, "of 65 bytes", &reads)
}

pub(crate) fn print_forms(rt: &impl Print) -> io::Result<()> {
    let unclosed = [0x10u8, 0x20, 0xA1, 0x30, 0x40];
    print_judged(rt, "with no 31 after an odd address", &unclosed)?;
    let middle = [0x10u8, 0x20, 0xA0, 0x40, 0x10, 0x20, 0xA0, 0x40];
    print_judged(rt, "with a 40 in the middle", &middle)?;
    let cut = [0x10u8, 0x20, 0xA0, 0x20];
    print_judged(rt, "with a 20 at the end", &cut)
}
