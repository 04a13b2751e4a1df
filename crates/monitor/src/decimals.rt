// Numbers with decimals, by integer arithmetic.
use std::fmt;
use std::fmt::{Display, Formatter};

// What `raised` makes of 0.
const ZERO: u32 = 32_768;

fn sign(n: i16) -> &'static str {
    if unsigned::raised(n) < ZERO { "-" } else { "" }
}

fn size(n: i16) -> u32 {
    unsigned::raised(n).abs_diff(ZERO)
}

// A count of ten-thousandths.
#[derive(Clone, Copy)]
pub struct TenThousandths(pub u64);

impl Display for TenThousandths {
    fn fmt<W: fmt::Write>(&self, f: &mut Formatter<W>) -> fmt::Result {
        write!(f, "{}.{:04}", self.0 / 10_000, self.0 % 10_000)
    }
}

// A signed count of tenths.
#[derive(Clone, Copy)]
pub struct Tenths(pub i16);

impl Display for Tenths {
    fn fmt<W: fmt::Write>(&self, f: &mut Formatter<W>) -> fmt::Result {
        let size = size(self.0);
        write!(f, "{}{}.{}", sign(self.0), size / 10, size % 10)
    }
}

// A signed count of 1/256, exactly: 1/256 is 390,625 hundred-millionths. Two decimals, and more where they are not 0.
#[derive(Clone, Copy)]
pub struct Parts(pub i16);

impl Display for Parts {
    fn fmt<W: fmt::Write>(&self, f: &mut Formatter<W>) -> fmt::Result {
        let size = size(self.0);
        let decimals = size % 256 * 390_625;
        write!(
            f,
            "{}{}.{:02}",
            sign(self.0),
            size / 256,
            decimals / 1_000_000
        )?;
        let mut rest = decimals % 1_000_000;
        for _ in 0..6 {
            if rest == 0 {
                break;
            }
            write!(f, "{}", rest / 100_000)?;
            rest = rest % 100_000 * 10;
        }
        Ok(())
    }
}
