// States of `sfp` as numbers, and back. Written by `derive`.
ghost use Rattle.std.specs.Prelude.{◌≡◌};
ghost use Rattle.flat.specs.Sfp.{flat_codes, the_codes};

#[repr(C)]
#[derive(Clone, Copy)]
pub struct CodesFlat {
    pub b0: u8,
    pub b1: u8,
    pub b2: u8,
}

#[tactic(auto, unfolding(crate::specs::Sfp::flat_codes))]
pub fn of_codes(s: sfp::Codes) -> CodesFlat
    ensures { result ≡ flat_codes s }
{
    CodesFlat {
        b0: s.g1,
        b1: s.g10,
        b2: s.cable,
    }
}

#[tactic(auto, unfolding(crate::specs::Sfp::the_codes))]
pub fn codes(b: CodesFlat) -> sfp::Codes
    ensures { result ≡ the_codes b }
{
    sfp::Codes {
        g1: b.b0,
        g10: b.b1,
        cable: b.b2,
    }
}
