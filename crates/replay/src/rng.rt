// The stream of answers and the sum over words.
ghost use Rattle.std.specs.Prelude.{◌≡◌, ◌+◌, ◌*◌, ◌/◌, ◌%◌, ◌^◌, bit_xor};

// Where every sum begins.
pub const BASIS: u32 = 2166136261;

// The state after x.
pub(crate) fn next(x: u32) -> u32
    ensures { result ≡ (x * 1664525 + 1013904223) % 2 ^ 32 }
{
    x.wrapping_mul(1664525).wrapping_add(1013904223)
}

// The output at the state x: its halves swapped.
pub(crate) fn swapped(x: u32) -> u32
    ensures { result ≡ x % 65536 * 65536 + x / 65536 }
{
    x % 65536 * 65536 + x / 65536
}

// The output's lowest byte.
pub(crate) fn byte(x: u32) -> u8 {
    (swapped(x) & 0xff) as u8
}

// The sum h with the word w, FNV-1a.
pub(crate) fn fnv(h: u32, w: u32) -> u32
    ensures { result ≡ (bit_xor h w * 16777619) % 2 ^ 32 }
{
    (h ^ w).wrapping_mul(16777619)
}

// The words of a block: the outputs of a stream of its own.
pub(crate) fn fill(block: &mut [u32], seed: u32) {
    let mut x = seed;
    for word in block.iter_mut() {
        x = next(x);
        *word = swapped(x);
    }
}

// The sum over words or bytes.
pub(crate) fn sum<T: Copy + Into<u32>>(items: &[T]) -> u32 {
    items.iter().fold(BASIS, |h, x| fnv(h, (*x).into()))
}
