// The words of the command line: IMAGE and NAME=VALUE in any order, each name at most once.
ghost use Rattle.std.specs.Prelude.{◌≡◌, ◌∷◌, ◌++◌, Contains, MatchOption};

use crate::digits;
use bench::receiver::{Chosen, Stage};
use hardware::{Family, Refusal};
use image::words;
use std::rt::Env;
use transfer::attempt::Sequence;

// The families by name.
pub const FAMILIES: [(&str, Family); 5] = [
    ("82599", Family::F82599),
    ("X540", Family::X540),
    ("X550", Family::X550),
    ("X552", Family::X552),
    ("X553", Family::X553),
];

// I2CCTL, and the number of the word that gives it.
#[derive(Clone, Copy)]
pub struct Control {
    pub word: u32,
    pub place: usize,
}

// What the words give. first: the next byte is the offset. noted: SDA was last noted high. image: the number of the word that
// names the image.
#[derive(Clone, Copy, Default)]
pub struct Settings {
    pub family: Option<Family>,
    pub port: Option<u32>,
    pub device: Option<u16>,
    pub stage: Option<Stage>,
    pub taken: Option<u8>,
    pub page: Option<Chosen>,
    pub first: Option<bool>,
    pub noted: Option<bool>,
    pub a0: Option<u8>,
    pub a2: Option<u8>,
    pub control: Option<Control>,
    pub esdp: Option<u32>,
    pub sequence: Option<Sequence>,
    pub image: Option<usize>,
}

// What is wrong with a word. Hex: it has not 1 to so many hexadecimal digits. Count: the stage's number is above this. Control:
// the driver may not begin with it.
#[derive(Clone, Copy)]
pub enum Fault {
    Long,
    Second,
    Name,
    Twice,
    Refused(Refusal),
    Hex(u8),
    Stage,
    Count(u8),
    Page,
    Next,
    Sda,
    Sequence,
    Control,
}

impl Fault {
    // The papers' number of the question that refuses the word.
    pub(crate) fn question(self) -> Option<u8> {
        match self {
            Fault::Refused(q) => Some(hardware::refusal_number(q)),
            _ => None,
        }
    }
}

// The number of a word, and what is wrong with it.
#[derive(Clone, Copy)]
pub struct Wrong {
    pub place: usize,
    pub fault: Fault,
}

impl Wrong {
    // Which of this and a later one is named: the later only where the papers' questions refuse both and its own comes first.
    fn first_asked(self, later: Wrong) -> Wrong {
        match (self.fault.question(), later.fault.question()) {
            (Some(asked), Some(before)) if before < asked => later,
            _ => self,
        }
    }
}

// What the text names.
fn named<T: Copy>(text: &[u8], values: &[(&str, T)], otherwise: Fault) -> Result<T, Fault> {
    values
        .iter()
        .find(|(name, _)| name.as_bytes() == text)
        .map(|(_, value)| *value)
        .ok_or(otherwise)
}

// The papers' number of a family by its name; 5 is that of none.
fn family_number(text: &[u8]) -> u32 {
    named(text, &FAMILIES, Fault::Name).map_or(5, |f| u32::from(hardware::family_number(f)))
}

// Question 1.
fn family(text: &[u8]) -> Result<Family, Fault> {
    hardware::open_family(family_number(text)).map_err(Fault::Refused)
}

// Question 2, which the 82599's opening puts to any number; what is no number is not 0 or 1 either.
fn port(text: &[u8]) -> Result<u32, Fault> {
    let lan = digits::read(text, 10, 255).ok_or(Fault::Refused(Refusal::Lan))?;
    match hardware::open_port(0, 0, lan) {
        Ok(_) => Ok(lan),
        Err(q) => Err(Fault::Refused(q)),
    }
}

fn hex<T: TryFrom<u32>>(text: &[u8], most: u8) -> Result<T, Fault>
where
    T::Error: Drop,
{
    digits::read(text, 16, most)
        .and_then(|n| T::try_from(n).ok())
        .ok_or(Fault::Hex(most))
}

// A stage's number.
fn within(n: u32, most: u8) -> Result<u8, Fault> {
    u8::try_from(n)
        .ok()
        .filter(|n| *n <= most)
        .ok_or(Fault::Count(most))
}

// What stands before and after the first of a byte.
fn split_once(text: &[u8], at: u8) -> Option<(&[u8], &[u8])>
    ensures { MatchOption result (¬ Contains text.now at) (λ p. (text.now ≡ p.0.now ++ at ∷ p.1.now) × ¬ Contains p.0.now at) }
{
    let place = text.iter().position(|b| *b == at)?;
    Some((&text[..place], &text[place + 1..]))
}

fn stage(text: &[u8]) -> Result<Stage, Fault> {
    let Some((name, number)) = split_once(text, b':') else {
        let plain = [
            ("idle", Stage::Idle),
            ("ackread", Stage::AckRead),
            ("ackwrite", Stage::AckWrite),
            ("listen", Stage::Listen),
        ];
        return named(text, &plain, Fault::Stage);
    };
    let n = digits::read(number, 10, 255).ok_or(Fault::Stage)?;
    match name {
        b"address" => Ok(Stage::Address(within(n, 8)?)),
        b"receive" => Ok(Stage::Receive(within(n, 8)?)),
        b"send" => Ok(Stage::Send(within(n, 7)?)),
        _ => Err(Fault::Stage),
    }
}

// Stores a value, unless the name was given before.
fn put<T: Drop>(slot: &mut Option<T>, value: Result<T, Fault>) -> Result<(), Fault> {
    if slot.is_some() {
        return Err(Fault::Twice);
    }
    *slot = Some(value?);
    Ok(())
}

impl Settings {
    fn setting(&mut self, name: &[u8], text: &[u8], place: usize) -> Result<(), Fault> {
        let pages = [("A0", Chosen::A0), ("A2", Chosen::A2)];
        let next = [("data", false), ("offset", true)];
        let sda = [("low", false), ("high", true)];
        let sequences = [("rounds", Sequence::Rounds), ("pulses", Sequence::Pulses)];
        match name {
            b"family" => put(&mut self.family, family(text)),
            b"port" => put(&mut self.port, port(text)),
            b"device" => put(&mut self.device, hex(text, 4)),
            b"stage" => put(&mut self.stage, stage(text)),
            b"taken" => put(&mut self.taken, hex(text, 2)),
            b"page" => put(&mut self.page, named(text, &pages, Fault::Page)),
            b"next" => put(&mut self.first, named(text, &next, Fault::Next)),
            b"sda" => put(&mut self.noted, named(text, &sda, Fault::Sda)),
            b"a0" => put(&mut self.a0, hex(text, 2)),
            b"a2" => put(&mut self.a2, hex(text, 2)),
            b"control" => {
                let word = hex(text, 8);
                put(&mut self.control, word.map(|word| Control { word, place }))
            }
            b"esdp" => put(&mut self.esdp, hex(text, 8)),
            b"sequence" => put(&mut self.sequence, named(text, &sequences, Fault::Sequence)),
            _ => Err(Fault::Name),
        }
    }

    fn image(&mut self, place: usize) -> Result<(), Fault> {
        if self.image.is_some() {
            return Err(Fault::Second);
        }
        self.image = Some(place);
        Ok(())
    }

    // A word: a setting where a '=' comes before any '/', else an image.
    fn word(&mut self, word: &[u8], place: usize) -> Result<(), Fault> {
        match split_once(word, b'=') {
            Some((name, text)) if !name.contains(&b'/') => self.setting(name, text, place),
            _ => self.image(place),
        }
    }
}

// What all words give, or which one is named as wrong: the first, but a refused family before a refused port number. `count` has
// the program's own name in it.
pub(crate) fn all(rt: &impl Env, count: usize) -> Result<Settings, Wrong> {
    let mut settings = Settings::default();
    let mut wrong: Option<Wrong> = None;
    for place in 1..count {
        let mut buffer = [0; words::LONGEST];
        let taken = words::read(rt, place, &mut buffer)
            .ok_or(Fault::Long)
            .and_then(|word| settings.word(word, place));
        if let Err(fault) = taken {
            let later = Wrong { place, fault };
            wrong = Some(wrong.map_or(later, |first| first.first_asked(later)));
        }
    }
    wrong.map_or(Ok(settings), Err)
}
