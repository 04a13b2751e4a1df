// The viewer: the part requested of A0 or A2, of the pages that the caller lends.
#![tactic(auto, using(crate::proofs::Laws::left_fits, crate::proofs::Laws::within_fits, crate::proofs::Laws::no_refusal_is_0), unfolding(crate::specs::View::within, crate::specs::View::viewed, crate::specs::View::view_at, crate::specs::View::page_at, hardware::specs::Prog::pick, crate::specs::View::view))]

ghost use Rattle.std.specs.Prelude.{◌≡◌, IfOk};
ghost use Rattle.bench.specs.View.{within, number_of, part, page_at, viewed, view, view_at};

use hardware::Refusal;

// Whether a part lies in the page, which ends with the bytes lent.
fn within(page: &[u8], first: usize, size: usize) -> bool
    ensures { result ≡ within page.now first size }
{
    first <= page.len() && size <= page.len() - first
}

// The part requested, or the question that is answered by no.
fn part<'a>(
    a0: &'a [u8],
    a2: &'a [u8],
    device: u8,
    first: usize,
    size: usize,
) -> Result<&'a [u8], Refusal>
    ensures number { number_of result ≡ viewed a0.now a2.now device first size }
    ensures value { IfOk result (λ p. p.now ≡ part (page_at a0.now a2.now device) first size) }
    ensures place { IfOk result (λ p. p.ref_ptr ≡ view_at a0.entry.ref_ptr a2.entry.ref_ptr 0 device first) }
{
    let page = match device {
        0xa0 => a0,
        0xa2 => a2,
        _ => return Err(Refusal::Device),
    };
    if !within(page, first, size) {
        return Err(Refusal::Buffer);
    }
    Ok(&page[first..first + size])
}

// The number of the refusal, or 0 where `view` hands the part back.
pub fn viewed(a0: &[u8], a2: &[u8], device: u8, first: usize, size: usize) -> u8
    ensures { result ≡ viewed a0.now a2.now device first size }
{
    match part(a0, a2, device, first, size) {
        Ok(_) => 0,
        Err(refusal) => hardware::refusal_number(refusal),
    }
}

// The part requested; refused, the empty part at the head of A0.
pub fn view<'a>(a0: &'a [u8], a2: &'a [u8], device: u8, first: usize, size: usize) -> &'a [u8]
    ensures value { result.now ≡ view a0.now a2.now device first size }
    ensures place { result.ref_ptr ≡ view_at a0.entry.ref_ptr a2.entry.ref_ptr (viewed a0.now a2.now device first size) device first }
{
    match part(a0, a2, device, first, size) {
        Ok(bytes) => bytes,
        Err(_) => &a0[..0],
    }
}
