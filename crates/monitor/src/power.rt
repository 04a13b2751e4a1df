// Powers in mW and their levels in dBm.
use crate::decimals::{TenThousandths, Tenths};
use std::fmt;
use std::fmt::{Display, Formatter};
use std::num::saturating_f32_to_u64;

#[derive(Clone, Copy)]
struct Dbm(Option<i16>);

impl Display for Dbm {
    fn fmt<W: fmt::Write>(&self, f: &mut Formatter<W>) -> fmt::Result {
        match self.0 {
            Some(t) => write!(f, "{} dBm", Tenths(t)),
            None => write!(f, "no light"),
        }
    }
}

// A count of 0.1 uW.
#[derive(Clone, Copy)]
pub struct Counted(pub u16);

impl Display for Counted {
    fn fmt<W: fmt::Write>(&self, f: &mut Formatter<W>) -> fmt::Result {
        let power = TenThousandths(u64::from(self.0));
        write!(f, "{power} mW ({})", Dbm(level::lookup::level(self.0)))
    }
}

// From 2^63 on in size a float is not printed: that is more than 9 * 10^14 mW, or less than -9 * 10^14 mW.
const LARGE: f32 = 9_223_372_036_854_775_808.0;

// A float in 0.1 uW, to the nearest 0.1 uW, halves away from 0.
#[derive(Clone, Copy)]
pub struct Calibrated(pub f32);

impl Calibrated {
    fn large<W: fmt::Write>(&self, f: &mut Formatter<W>) -> fmt::Result {
        if self.0 < 0.0 {
            write!(f, "less than -9 * 10^14 mW (")
        } else {
            write!(f, "more than 9 * 10^14 mW (")
        }
    }

    // A sign only where the rounded count is not 0; the pattern beside it tells a float below 0. The level is that of the rounded
    // count, where that is 1 to 65,535.
    fn rounded<W: fmt::Write>(&self, f: &mut Formatter<W>) -> fmt::Result {
        let count = saturating_f32_to_u64(self.0.abs().round());
        let negative = self.0 < 0.0;
        let sign = if negative && 0 < count { "-" } else { "" };
        write!(f, "{sign}{} mW (", TenThousandths(count))?;
        if 0 < count
            && !negative
            && let Ok(count) = u16::try_from(count)
        {
            write!(f, "{}, ", Dbm(level::lookup::level(count)))?;
        }
        write!(f, "rounded from ")
    }
}

impl Display for Calibrated {
    fn fmt<W: fmt::Write>(&self, f: &mut Formatter<W>) -> fmt::Result {
        if LARGE <= self.0.abs() {
            self.large(f)?;
        } else {
            self.rounded(f)?;
        }
        write!(f, "the float {:08x})", unsigned::pattern(self.0))
    }
}
