// A case of the list: what a line asks, and what the original did.
use crate::asked::{Asked, Call, Malformed};
use crate::calls::Summary;
use crate::host::Host;
use crate::lines::{Bits, Lines};
use crate::queue::{Queue, Source};
use crate::reads::{Change, Turns};
use crate::rng;
use crate::rules::{Rule, Rules};
use transfer::attempt::Sequence;

// Added to the register's number in a rule of the lines.
const MARK: u32 = 0x8000_0000;

// The numbers of a line that are left.
#[derive(Clone, Copy)]
struct Numbers<'a> {
    rest: &'a [u32],
}

impl Numbers<'_> {
    fn several<const N: usize>(&mut self) -> Result<[u32; N], Malformed> {
        let (numbers, rest) = self.rest.split_first_chunk::<N>().ok_or(Malformed)?;
        self.rest = rest;
        Ok(*numbers)
    }
}

// The bytes that the module on the lines sends to the call.
fn queue(call: Call, q: Asked) -> Option<Queue> {
    let (a, b, c) = (u128::from(q.a), u128::from(q.b), u128::from(q.c));
    let (left, source) = match call {
        Call::Identify | Call::IdentifyQsfp => (12, Source::Number(a | b << 32 | c << 64)),
        Call::SoftRateSelect => (8, Source::Number(b | c << 32)),
        Call::Page | Call::QsfpPage => (
            96,
            Source::Page {
                stream: q.b,
                wrong: q.c,
                total: 0,
            },
        ),
        Call::Light => (
            31,
            Source::Light {
                stream: q.b,
                shape: q.c,
            },
        ),
        _ => return None,
    };
    Some(Queue::new(left, source))
}

// The rule of a line's seven numbers.
fn rule([register, period, hold, and1, or1, and2, or2]: [u32; 7]) -> Rule {
    Rule {
        register,
        turns: Turns::begun(period),
        hold,
        first: Change { and: and1, or: or1 },
        then: Change { and: and2, or: or2 },
    }
}

// The rule of the lines, with the register's number less the mark.
fn lines_of(
    register: u32,
    [_, period, at, run, and, or, times]: [u32; 7],
    queue: Option<Queue>,
) -> Result<Lines, Malformed> {
    Ok(Lines {
        register,
        turns: Turns::begun(period),
        at,
        run,
        change: Change { and, or },
        stretch: times & 0xffff,
        late: times >> 16,
        bits: Bits::at(register).ok_or(Malformed)?,
        scl: false,
        sda: true,
        slot: None,
        since: 0,
        first: false,
        sends: false,
        queue,
    })
}

// So many rules. Only the last may be of the lines.
fn rules(numbers: &mut Numbers<'_>, count: u32, sent: Option<Queue>) -> Result<Rules, Malformed> {
    let mut list = [None; 4];
    let mut lines = None;
    for place in list.get_mut(..count as usize).ok_or(Malformed)? {
        if lines.is_some() {
            return Err(Malformed);
        }
        let words = numbers.several::<7>()?;
        match words[0].checked_sub(MARK) {
            Some(register) => lines = Some(lines_of(register, words, sent)?),
            None => *place = Some(rule(words)),
        }
    }
    Ok(Rules { list, lines })
}

// The call, and its sequence: with 100 added, the default one.
fn called(number: u32) -> Result<(Call, Option<Sequence>), Malformed> {
    let call = Call::try_from(number % 100)?;
    match number / 100 {
        0 => Ok((call, Some(Sequence::Pulses))),
        1 if call.clears() => Ok((call, None)),
        _ => Err(Malformed),
    }
}

// What a line asks, the host it is asked of, and what is to come out: the accesses, the sum over them and the call's result.
#[derive(Clone, Copy)]
pub struct Case {
    call: Call,
    asked: Asked,
    host: Host,
    accesses: u32,
    sum: u32,
    summary: Summary,
}

impl TryFrom<&[u32]> for Case {
    type Error = Malformed;

    fn try_from(line: &[u32]) -> Result<Self, Malformed> {
        let mut numbers = Numbers { rest: line };
        let [number, family, device, lan, a, b, c] = numbers.several::<7>()?;
        let [stream, fail_at, ones_at, count] = numbers.several::<4>()?;
        let (call, sequence) = called(number)?;
        let asked = Asked {
            family,
            device: u16::try_from(device).map_err(|_| Malformed)?,
            lan,
            sequence,
            a,
            b,
            c,
        };
        let host = Host {
            stream,
            fail_at,
            ones_at,
            accesses: 0,
            sum: rng::BASIS,
            rules: rules(&mut numbers, count, queue(call, asked))?,
        };
        let [accesses, sum, code, v1, v2, v3] = numbers.several::<6>()?;
        if !numbers.rest.is_empty() {
            return Err(Malformed);
        }
        let values = [v1, v2, v3];
        Ok(Case {
            call,
            asked,
            host,
            accesses,
            sum,
            summary: Summary { code, values },
        })
    }
}

impl Case {
    // Whether the port does what the line says.
    pub(crate) fn agrees(mut self) -> bool {
        self.call.run(&mut self.host, self.asked) == Some(self.summary)
            && self.host.accesses == self.accesses
            && self.host.sum == self.sum
    }
}
