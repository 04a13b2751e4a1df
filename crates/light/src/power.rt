// Received power, in 0.1 µW. An externally calibrated module supplies the coefficients of a polynomial in its raw count, five
// 32-bit floats in A2 bytes 56 to 75, Rx_PWR(4) first.
#![tactic(auto, using(crate::proofs::Finite::below_infinity, crate::proofs::Finite::not_above, crate::proofs::Finite::pattern_no_nan, crate::proofs::Finite::each_finite), unfolding(crate::specs::Power::horner_of, crate::specs::Power::horner_from, crate::specs::Power::power_of, crate::specs::Power::powered_of, hardware::specs::Prog::pick, crate::specs::Power::judged))]

ghost use Rattle.std.specs.Prelude.{◌≡◌, true};
ghost use Rattle.std.specs.Float.{binary32};
ghost use Rattle.std.specs.Float.Ieee.{of_bits};
ghost use Rattle.std.specs.Float.Ieee.Scale.{finite};
ghost use Rattle.light.specs.Power.{finite_pattern, all_finite, coefficients_of, horner_of, power_of, powered_of};

// What a module says of its received light. Internal: its own count. Calibrated: worked out with its coefficients.
#[derive(Clone, Copy)]
pub enum Reading {
    Internal(u16),
    Calibrated(f32),
    Absent,
}

// Rx_PWR(4) to Rx_PWR(0) as the module's bytes have them.
#[derive(Clone, Copy)]
pub struct Patterns {
    pub c4: u32,
    pub c3: u32,
    pub c2: u32,
    pub c1: u32,
    pub c0: u32,
}

#[derive(Clone, Copy)]
pub struct Coefficients {
    pub c4: f32,
    pub c3: f32,
    pub c2: f32,
    pub c1: f32,
    pub c0: f32,
}

// Coefficient, the papers' 28: one of them is not finite. Power, 29: all are, and the power is not.
#[derive(Clone, Copy)]
pub enum PowerError {
    Coefficient,
    Power,
}

pub type Powered = Result<f32, PowerError>;

// Whether a pattern is a finite number's, decided before a float is made of it.
pub fn finite_pattern(bits: u32) -> bool
    ensures { result ≡ finite_pattern bits }
{
    bits / 0x80_0000 % 256 != 255
}

// Neither an infinity nor a NaN, which is below and above nothing.
pub fn finite(x: f32) -> bool
    ensures { result ≡ finite x }
{
    let infinity = f32::from_bits(0x7f80_0000);
    if -infinity < x { x < infinity } else { false }
}

// Horner's rule, each product and each sum rounded once.
pub fn horner(c: Coefficients, count: u16) -> f32
    ensures { result ≡ horner_of c count }
{
    let x = count as f32;
    (((c.c4 * x + c.c3) * x + c.c2) * x + c.c1) * x + c.c0
}

pub(crate) fn all_finite(p: Patterns) -> bool
    ensures { result ≡ all_finite p }
{
    finite_pattern(p.c4)
        & finite_pattern(p.c3)
        & finite_pattern(p.c2)
        & finite_pattern(p.c1)
        & finite_pattern(p.c0)
}

pub(crate) fn coefficient(bits: u32) -> f32
    requires { finite_pattern bits ≡ true }
    ensures { result ≡ of_bits binary32 bits }
{
    f32::from_bits(bits)
}

pub(crate) fn floats(p: Patterns) -> Coefficients
    requires { all_finite p ≡ true }
    ensures { result ≡ coefficients_of p }
{
    Coefficients {
        c4: coefficient(p.c4),
        c3: coefficient(p.c3),
        c2: coefficient(p.c2),
        c1: coefficient(p.c1),
        c0: coefficient(p.c0),
    }
}

// 28 before 29: the power is worked out only of finite coefficients.
pub fn power(p: Patterns, count: u16) -> Powered
    ensures { powered_of result ≡ power_of p count }
{
    if !all_finite(p) {
        return Err(PowerError::Coefficient);
    }
    let x = horner(floats(p), count);
    if finite(x) {
        Ok(x)
    } else {
        Err(PowerError::Power)
    }
}
