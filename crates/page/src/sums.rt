// The two check bytes of a page.
ghost use Rattle.std.specs.Prelude.{◌≤◌, ◌≡◌, length};
ghost use Rattle.page.specs.Page.{sums_of, paged_of, paged_number};

use hardware::Error;

// Why a page is not read. FirstSum, SecondSum: every byte was read, and that sum is wrong.
#[derive(Clone, Copy)]
pub enum PageError {
    FirstSum,
    SecondSum,
    Bus(Error),
}

pub type Paged = Result<(), PageError>;

// The papers' number of a failure, or 0.
pub fn paged_number(p: Paged) -> u8
    ensures { result ≡ paged_number p }
{
    match p {
        Ok(()) => 0,
        Err(PageError::FirstSum) => 26,
        Err(PageError::SecondSum) => 27,
        Err(PageError::Bus(e)) => hardware::error_number(e),
    }
}

// The sums of a buffer that holds a page, in their order.
#[tactic(auto, using(crate::proofs::Laws::sum_right_lem, crate::proofs::Laws::sum_wrong), unfolding(crate::specs::Page::sums_of, crate::specs::Page::paged_of, hardware::specs::Prog::pick))]
pub(crate) fn judge(buffer: &[u8]) -> Paged
    requires { 96 ≤ length buffer.now }
    ensures { paged_of result ≡ sums_of buffer.now }
{
    if sfp::sum::sum(&buffer[0..63]) != buffer[63] {
        return Err(PageError::FirstSum);
    }
    if sfp::sum::sum(&buffer[64..95]) != buffer[95] {
        return Err(PageError::SecondSum);
    }
    Ok(())
}
