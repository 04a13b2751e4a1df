// Numbers in decimal or hexadecimal digits.
ghost use Rattle.std.specs.Prelude.{◌≡◌, Some};
ghost use Rattle.report.specs.Number.{digit_of, more_of, read_of};

// The value of a digit, in either case.
#[tactic(auto, using(crate::proofs::Laws::above, crate::proofs::Laws::below, crate::proofs::Laws::between, crate::proofs::Laws::between_cases, crate::proofs::Laws::capital, crate::proofs::Laws::decimal, crate::proofs::Laws::small))]
fn digit(b: u8) -> Option<u8>
    ensures { result ≡ digit_of b }
{
    match b {
        b'0'..=b'9' => Some(b - b'0'),
        b'a'..=b'f' => Some(b - b'a' + 10),
        b'A'..=b'F' => Some(b - b'A' + 10),
        _ => None,
    }
}

// One more digit; `base` is 10 or 16. From 2^32 - 1 on the value stays there.
#[tactic(auto, using(crate::proofs::Laws::next_digit, crate::proofs::Laws::next_none, crate::proofs::Laws::next_other))]
fn more(value: u32, b: u8, base: u8) -> Option<u32>
    ensures { result ≡ more_of base (Some value) b }
{
    let n = digit(b)?;
    if n < base {
        Some(
            value
                .saturating_mul(u32::from(base))
                .saturating_add(u32::from(n)),
        )
    } else {
        None
    }
}

// A number of 1 to `limit` digits.
#[tactic(auto, using(crate::proofs::Laws::run_end, crate::proofs::Laws::run_next, crate::proofs::Laws::run_stop), unfolding(crate::specs::Number::read_of, hardware::specs::Prog::pick))]
pub(crate) fn read(text: &[u8], base: u8, limit: u8) -> Option<u32>
    ensures { result ≡ read_of base limit text.now }
{
    if text.is_empty() || usize::from(limit) < text.len() {
        return None;
    }
    let mut value = 0;
    for b in text {
        value = more(value, *b, base)?;
    }
    Some(value)
}
