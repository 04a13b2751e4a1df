// Other numbers as unsigned ones, for the programs that print or compare them.
#![tactic(auto)]

ghost use Rattle.std.specs.Prelude.{◌≡◌, cond, pos, ◌+ℤ◌};
ghost use Rattle.std.specs.Float.{binary32};
ghost use Rattle.std.specs.Float.Ieee.{eq, to_bits};

// With 32,768 added.
#[tactic(auto, using(crate::proofs::Laws::wide, crate::proofs::Laws::raised_fits, crate::proofs::Laws::raised_up, crate::proofs::Laws::raised_is))]
pub fn raised(t: i16) -> u32
    ensures { pos result ≡ t +ℤ pos 32768 }
{
    (t as i32 + 32768) as u32
}

// The bit pattern of a float; 0 of a NaN, which does not equal itself and whose pattern is not defined.
#[tactic(auto, using(crate::proofs::Laws::no_nan))]
pub fn pattern(x: f32) -> u32
    ensures { result ≡ cond (eq x x) (to_bits binary32 x) 0 }
{
    if x == x {
        return f32::to_bits(x);
    }
    0
}
