// Runs the worked examples and prints what comes out.
#![tactic(auto)]

mod classes;
mod host;
mod scripts;
mod sends;
mod shown;
mod views;

use hardware::Family;
use std::io;

fn print_bits(rt: &impl Print, name: &str, mask: u32, family: Family) -> io::Result<()> {
    let m = sync::regs::bits(family, mask);
    let (sw, fw, hw) = (m.sw, m.fw, m.hw);
    println!(rt;
        "bits, {name}, mask {mask:04x}: software {sw:04x}, firmware {fw:04x}, hardware {hw:04x}"
    )
}

fn main(rt: HostRuntime) -> io::Result<()> {
    print_bits(&rt, "X552", 0x1806, Family::X552)?;
    print_bits(&rt, "X540", 0x0001, Family::X540)?;
    for reg in [0x1234, 0x7FFF, 0x0080] {
        scripts::print_read(&rt, reg)?;
    }
    scripts::print_write(&rt, 0x1234, 0xABCD)?;
    classes::print_classes(&rt)?;
    scripts::print_buffers(&rt)?;
    scripts::print_lengths(&rt)?;
    scripts::print_forms(&rt)?;
    for first in [10, 11] {
        sends::print_send(&rt, first)?;
    }
    views::print_views(&rt)
}
