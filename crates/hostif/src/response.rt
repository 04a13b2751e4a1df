// The second half of a firmware command: the response is read back, raw, into the block.
#![tactic(auto, using(hardware::proofs::Laws::one_less, crate::proofs::Laws::fill_more, crate::proofs::Laws::words_fit, crate::proofs::Left::words_few, crate::proofs::Laws::rest_fits), unfolding(crate::specs::Hostif::len_of, crate::specs::Hostif::status_of, crate::specs::Hostif::words_of, crate::specs::Hostif::valid_response, crate::specs::Hostif::access_response, crate::specs::Hostif::fill, hardware::specs::Prog::erase, crate::specs::Hostif::response_next, hardware::specs::Registers::reply, crate::specs::Hostif::valid_response_next, crate::specs::Left::response_next_left, hardware::specs::Prog::pick, crate::specs::Left::response_left, crate::specs::Hostif::head_seen, hardware::specs::Failures::failure_of, crate::specs::Hostif::word_seen, crate::specs::Hostif::rest_response))]

ghost use Rattle.std.specs.Prelude.{ℕ, ◌-◌, ◌<◌, ◌≤◌, ◌≡◌, true, List, length, set};
ghost use Rattle.hardware.specs.Prog.{erase};
ghost use Rattle.hardware.specs.Promise.{Bounds};
ghost use Rattle.hardware.specs.Registers.{reply};
ghost use Rattle.hostif.specs.Hostif.{len_of, status_of, words_of, word_seen, fill, head_seen, access_response, rest_response, response_next, valid_response, valid_response_next};
ghost use Rattle.hostif.specs.Left.{response_left, response_next_left};

use crate::request::FLEX_MNG;
use hardware::{Access, Answer, Error, Next, R};

// Head: with HICR as last read. Rest: with the head, and the words left after this one.
#[derive(Clone, Copy)]
pub enum Response {
    Head(u32),
    Rest(u32, u8),
}

pub type ResponseNext = Next<Response, R<u8>>;

fn len(head: u32) -> u32
    ensures { result ≡ len_of head }
{
    head / 256 % 256
}

fn status(head: u32) -> u8
    ensures { result ≡ status_of head }
{
    (head / 65536 % 256) as u8
}

// The words of the response after its head.
fn words(head: u32) -> u8
    ensures { result ≡ words_of head }
{
    let bytes = len(head);
    ((bytes + 3) / 4) as u8
}

// The word of the block that is read now: 1 first.
fn place(head: u32, left: u8) -> u8
    ensures { result ≡ words_of head - left }
{
    let n = words(head);
    if n < left {
        return 0;
    }
    n - left
}

pub(crate) fn access(s: Response) -> Access
    ensures { result ≡ access_response s }
{
    match s {
        Response::Head(_) => Access::Read(FLEX_MNG),
        Response::Rest(head, left) => {
            let at = place(head, left);
            Access::Read(FLEX_MNG + 4 * at as u32)
        }
    }
}

fn more(head: u32, left: u8) -> ResponseNext
    ensures { Bounds ((l : List ℕ) → response_next result l ≡ erase (fill head left l)) ((n : ℕ) → left ≤ words_of head → words_of head < n → valid_response_next n result ≡ true) (response_next_left result ≤ left) }
{
    if left == 0 {
        return Next::End(Ok(status(head)));
    }
    Next::Going(Response::Rest(head, left - 1))
}

fn store(block: &mut [u32], at: usize, v: u32)
    ensures { block.new ≡ set block.old at v }
{
    if at < block.len() {
        block[at] = v;
    }
}

fn head(last: u32, block: &mut [u32], w: R<u32>) -> ResponseNext
    ensures { Bounds (response_next result block.new ≡ erase (head_seen last block.old (reply w))) (valid_response_next (length block.old) result ≡ true) (response_next_left result ≤ 64) }
{
    match w {
        Ok(head) => {
            if 4 * block.len() < len(head) as usize + 4 {
                return Next::End(Err(Error::HostInterface(last)));
            }
            store(block, 0, head);
            more(head, words(head))
        }
        Err(e) => Next::End(Err(e)),
    }
}

fn rest(head: u32, left: u8, block: &mut [u32], w: R<u32>) -> ResponseNext
    ensures { Bounds (response_next result block.new ≡ erase (word_seen (fill head left) (words_of head - left) block.old (reply w))) (left ≤ words_of head → words_of head < length block.old → valid_response_next (length block.old) result ≡ true) (response_next_left result ≤ left) }
{
    match w {
        Ok(v) => {
            store(block, place(head, left) as usize, v);
            more(head, left)
        }
        Err(e) => Next::End(Err(e)),
    }
}

pub(crate) fn step(s: Response, block: &mut [u32], a: Answer) -> ResponseNext
    ensures { Bounds (response_next result block.new ≡ erase (rest_response s block.old a)) (valid_response (length block.old) s ≡ true → valid_response_next (length block.old) result ≡ true) (response_next_left result < response_left s) }
{
    match s {
        Response::Head(last) => head(last, block, hardware::read_raw(a)),
        Response::Rest(h, left) => rest(h, left, block, hardware::read_raw(a)),
    }
}

pub(crate) fn valid(n: usize, s: Response) -> bool
    ensures { result ≡ valid_response n s }
{
    match s {
        Response::Head(_) => true,
        Response::Rest(head, left) => {
            let all = words(head);
            if left < all {
                return (all as usize) < n;
            }
            false
        }
    }
}
