// The check bytes of SFF-8472.
ghost use Rattle.std.specs.Prelude.{◌≡◌};
ghost use Rattle.sfp.specs.Sum.{sum_of};

// The low eight bits of the sum of the bytes.
pub fn sum(bytes: &[u8]) -> u8
    ensures { result ≡ sum_of bytes.now }
{
    bytes.iter().fold(0, |total, b| total.wrapping_add(*b))
}
