// What a module says, a value to a line.
use crate::decimals::{Parts, TenThousandths};
use crate::power::{Calibrated, Counted};
use crate::readings;
use crate::readings::End;
use image::files::Image;
use light::power::{PowerError, Reading};
use light::sensed::{EXTERNAL, INTERNAL, LightError, MONITORED, Measured, Measures};
use sfp::class::has;
use std::fmt::{Display, Formatter};
use std::{fmt, io};

// Byte 92 of A0 says whether there is monitoring, and with which calibration.
#[derive(Clone, Copy)]
struct Calibration(u8);

impl Display for Calibration {
    fn fmt<W: fmt::Write>(&self, f: &mut Formatter<W>) -> fmt::Result {
        f.write_str(if !has(self.0, MONITORED) {
            "none: the module has no monitoring"
        } else if has(self.0, EXTERNAL) {
            "external: receiver power by its coefficients, the rest raw"
        } else if has(self.0, INTERNAL) {
            "internal"
        } else {
            "none: the values are raw"
        })
    }
}

#[derive(Clone, Copy)]
struct Received(Reading);

impl Display for Received {
    fn fmt<W: fmt::Write>(&self, f: &mut Formatter<W>) -> fmt::Result {
        match self.0 {
            Reading::Internal(n) => write!(f, "{}", Counted(n)),
            Reading::Calibrated(x) => write!(f, "{}", Calibrated(x)),
            Reading::Absent => write!(f, "absent"),
        }
    }
}

fn measures(rt: &impl Print, m: Measures) -> io::Result<()> {
    println!(rt; "module temperature  {} degrees C", Parts(m.temperature))?;
    println!(rt;
        "module voltage      {} V",
        TenThousandths(u64::from(m.voltage))
    )?;
    // In steps of 2 uA.
    let bias = u32::from(m.bias) * 2;
    println!(rt; "laser bias current  {}.{:03} mA", bias / 1000, bias % 1000)?;
    println!(rt; "laser output power  {}", Counted(m.sent))?;
    println!(rt; "receiver power      {}", Received(m.reading))
}

fn failed(rt: &impl Print, end: Measured, why: &str) -> io::Result<()> {
    println!(rt;
        "failed              {}{why}",
        light::sensed::measured_number(end)
    )
}

// Without monitoring nothing was measured.
fn ended(rt: &impl Print, kind: u8, end: End) -> io::Result<()> {
    let measured = end.measured;
    match measured {
        Ok(m) => {
            if has(kind, MONITORED) {
                measures(rt, m)?;
            }
        }
        Err(LightError::Power(PowerError::Coefficient)) => {
            failed(
                rt,
                measured,
                ": a coefficient of the receiver power is not finite",
            )?;
        }
        Err(LightError::Power(PowerError::Power)) => failed(
            rt,
            measured,
            ": the receiver power is not finite",
        )?,
        Err(LightError::Bus(_)) => failed(rt, measured, "")?,
    }
    println!(rt; "transfers           {}", end.transfers)
}

pub(crate) fn all(rt: &impl Print, path: &[u8], image: Image) -> io::Result<()> {
    let kind = image.a0[92];
    println!(rt; "image               {}", image::print::shown(path))?;
    println!(rt; "calibration         {}", Calibration(kind))?;
    match readings::read(image) {
        Some(end) => ended(rt, kind, end),
        // Not met: every lock and grant comes, and the port is one that opens.
        None => println!(rt; "the call did not end"),
    }
}
