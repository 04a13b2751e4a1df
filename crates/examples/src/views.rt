// The viewer: parts of A0 and A2, and the parts that it refuses.
use crate::shown::Shown;
use std::io;

// The two pages.
#[derive(Clone, Copy)]
struct Pages<'a> {
    a0: &'a [u8],
    a2: &'a [u8],
}

// The number of the refusal, or none; then the bytes handed back.
fn print_view(
    rt: &impl Print,
    pages: Pages<'_>,
    device: u8,
    first: usize,
    size: usize,
) -> io::Result<()> {
    let Pages { a0, a2 } = pages;
    print!(rt; "view of {device:02x} from byte {first}, size {size}:")?;
    let number = bench::view::viewed(a0, a2, device, first, size);
    if number != 0 {
        print!(rt; " refused {number}")?;
    }
    println!(rt; "{}", Shown(bench::view::view(a0, a2, device, first, size)))
}

// The last two bytes of each page are its own.
fn page(next_to_last: u8, last: u8) -> [u8; 256] {
    let mut bytes = [0u8; 256];
    bytes[254] = next_to_last;
    bytes[255] = last;
    bytes
}

pub(crate) fn print_views(rt: &impl Print) -> io::Result<()> {
    let a0 = page(0x01, 0x02);
    let a2 = page(0x21, 0x22);
    let pages = Pages { a0: &a0, a2: &a2 };
    let parts = [
        (0xA0, 254, 2),
        (0xA2, 254, 2),
        (0xA2, 256, 0),
        (0xA0, 254, 3),
        (0xA2, 254, 3),
        (0xA4, 254, 2),
        (0xA4, 254, 3),
    ];
    for (device, first, size) in parts {
        print_view(rt, pages, device, first, size)?;
    }
    Ok(())
}
