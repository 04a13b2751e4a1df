// Numbers of two bytes, high byte first.
ghost use Rattle.std.specs.Prelude.{◌≡◌};
ghost use Rattle.light.specs.Words.{word_of, signed, temperature_of};

pub fn word(high: u8, low: u8) -> u16
    ensures { result ≡ word_of high low }
{
    high as u16 * 256 + low as u16
}

// Two's complement, where all ones is -1 and each clear bit takes its value off.
#[tactic(auto, using(crate::proofs::Signed::signed_is, crate::proofs::Signed::turned_bits, crate::proofs::Signed::turned_fits))]
pub fn signed(count: u16) -> i16
    ensures { result ≡ signed count }
{
    if count < 0x8000 {
        count as i16
    } else {
        -1 - (0xffff - count) as i16
    }
}

// In 1/256 degree Celsius.
#[tactic(auto, using(crate::proofs::Signed::signed_held))]
pub fn temperature(high: u8, low: u8) -> i16
    ensures { result ≡ temperature_of high low }
{
    signed(word(high, low))
}
