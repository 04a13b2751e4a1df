// Classes of SFP modules.
use crate::shown::Shown;
use sfp::class::SfpBytes;
use std::io;

// An SFP whose other bytes are 0.
const PLAIN: SfpBytes = SfpBytes {
    b0: sfp::class::SFP,
    b3: 0,
    b6: 0,
    b8: 0,
    b12: 0,
    b14: 0,
    b15: 0,
    b60: 0,
};

fn print_class(rt: &impl Print, b: SfpBytes) -> io::Result<()> {
    let (b3, b6, b8, b12, b14, b15) = (b.b3, b.b6, b.b8, b.b12, b.b14, b.b15);
    print!(rt;
        "class, bytes 3/6/8/12/14/15 {b3:02x}/{b6:02x}/{b8:02x}/{b12:02x}/{b14:02x}/{b15:02x}"
    )?;
    let found = sfp::class::class(b);
    print!(rt; ": {}", Shown(found.kind))?;
    if found.multispeed {
        print!(rt; ", multispeed")?;
    }
    println!(rt; ", requests {}", sfp::class::requests_of(b))
}

fn fibre(b3: u8, b6: u8, b12: u8, b15: u8) -> SfpBytes {
    SfpBytes {
        b3,
        b6,
        b12,
        b15,
        ..PLAIN
    }
}

fn cable(b8: u8) -> SfpBytes {
    SfpBytes { b8, ..PLAIN }
}

pub(crate) fn print_classes(rt: &impl Print) -> io::Result<()> {
    let modules = [
        fibre(0x00, 0x00, 0x67, 0x0A),
        fibre(0x00, 0x00, 0x67, 0x09),
        fibre(0x00, 0x40, 0x66, 0x00),
        cable(0x0C),
        fibre(0x10, 0x01, 0x00, 0x00),
        fibre(0x20, 0x01, 0x00, 0x00),
    ];
    for b in modules {
        print_class(rt, b)?;
    }
    Ok(())
}
