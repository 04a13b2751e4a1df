// The rules that change a read's value.
use crate::lines::Lines;
use crate::reads::{Change, Turns};

// One rule: the first reads of each period, so many as it holds, are changed one way, the others another.
#[derive(Clone, Copy)]
pub struct Rule {
    pub register: u32,
    pub turns: Turns,
    pub hold: u32,
    pub first: Change,
    pub then: Change,
}

impl Rule {
    // The value of a read, which counts.
    fn read(&mut self, v: u32) -> u32 {
        let change = if self.turns.turn() < self.hold {
            self.first
        } else {
            self.then
        };
        self.turns.count();
        change.of(v)
    }
}

// The rule of the lines comes after the others.
#[derive(Clone, Copy)]
pub struct Rules {
    pub list: [Option<Rule>; 4],
    pub lines: Option<Lines>,
}

impl Rules {
    // A read's value, by the first rule that names the register.
    pub(crate) fn read(&mut self, register: u32, v: u32) -> u32 {
        for rule in self.list.iter_mut().flatten() {
            if rule.register == register {
                return rule.read(v);
            }
        }
        match &mut self.lines {
            Some(l) if l.register == register => l.read(v),
            _ => v,
        }
    }

    // A write, which only the lines follow.
    pub(crate) fn written(&mut self, register: u32, v: u32) {
        match &mut self.lines {
            Some(l) if l.register == register => l.written(v),
            _ => {}
        }
    }
}
