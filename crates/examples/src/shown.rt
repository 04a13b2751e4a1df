// What is printed of the library's types.
use hardware::{Error, R, Refusal};
use sfp::Kind;
use std::fmt;

#[derive(Clone, Copy)]
pub struct Shown<T>(pub T);

impl fmt::Display for Shown<Kind> {
    fn fmt<W: fmt::Write>(&self, f: &mut fmt::Formatter<W>) -> fmt::Result {
        f.write_str(match self.0 {
            Kind::DaCu => "DaCu",
            Kind::DaActiveLimiting => "DaActiveLimiting",
            Kind::SrLr => "SrLr",
            Kind::Cu1g => "Cu1g",
            Kind::Sx1g => "Sx1g",
            Kind::Lx1g => "Lx1g",
            Kind::Bx10g => "Bx10g",
            Kind::Bx1g => "Bx1g",
            Kind::Unknown => "Unknown",
            Kind::NotPresent => "NotPresent",
        })
    }
}

impl fmt::Display for Shown<Refusal> {
    fn fmt<W: fmt::Write>(&self, f: &mut fmt::Formatter<W>) -> fmt::Result {
        write!(f, "refused {}", hardware::refusal_number(self.0))
    }
}

impl fmt::Display for Shown<Result<usize, Refusal>> {
    fn fmt<W: fmt::Write>(&self, f: &mut fmt::Formatter<W>) -> fmt::Result {
        match self.0 {
            Ok(n) => write!(f, "written {n}"),
            Err(q) => write!(f, "{}", Shown(q)),
        }
    }
}

impl fmt::Display for Shown<Result<(), Refusal>> {
    fn fmt<W: fmt::Write>(&self, f: &mut fmt::Formatter<W>) -> fmt::Result {
        match self.0 {
            Ok(()) => f.write_str("accepted"),
            Err(q) => write!(f, "{}", Shown(q)),
        }
    }
}

// The device goes with I2c.
impl fmt::Display for Shown<Error> {
    fn fmt<W: fmt::Write>(&self, f: &mut fmt::Formatter<W>) -> fmt::Result {
        write!(f, "failed {}", hardware::error_number(self.0))?;
        if bus::is_i2c(self.0) {
            write!(f, ", device {:02x}", hardware::error_value(self.0, 0))?;
        }
        Ok(())
    }
}

impl fmt::Display for Shown<R<()>> {
    fn fmt<W: fmt::Write>(&self, f: &mut fmt::Formatter<W>) -> fmt::Result {
        match self.0 {
            Ok(()) => f.write_str("succeeded"),
            Err(e) => write!(f, "{}", Shown(e)),
        }
    }
}

// Bytes, with a blank before each.
impl<'a> fmt::Display for Shown<&'a [u8]> {
    fn fmt<W: fmt::Write>(&self, f: &mut fmt::Formatter<W>) -> fmt::Result {
        for b in self.0 {
            write!(f, " {b:02x}")?;
        }
        Ok(())
    }
}
