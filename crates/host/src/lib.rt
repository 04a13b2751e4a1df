// The calls for hosts outside of Rattle. What crosses is numbers, by value: a host opens a call, makes the access that the
// block names, and hands the block's state back in with the answer, until the block names an end.
#![tactic(auto)]

use flat::State;

pub mod decibels;
pub mod direct;
pub mod kept;
pub mod numbers;
pub mod open;
pub mod shown;
pub mod step;

// What is next. kind 0: read the register `first`. 1: write `second` to the register `first`. 2: wait `first` microseconds.
// With these three `third` is 0, or, where a script has just read a byte, 256 and the byte. 3: the end; the result's values
// are `first` to `sixth` and, of light, `temperature`. 4: the call failed with the number `first`, whose values are `second`
// and `third`. 5: refused with the number `first`, the state as it was. transfers, slowest: at an end what was metered.
#[repr(C)]
#[derive(Clone, Copy)]
pub struct Next {
    pub kind: u32,
    pub first: u32,
    pub second: u32,
    pub third: u32,
    pub fourth: u32,
    pub fifth: u32,
    pub sixth: u32,
    pub transfers: u32,
    pub slowest: u32,
    pub temperature: i16,
}

#[repr(C)]
#[derive(Clone, Copy)]
pub struct Block {
    pub next: Next,
    pub state: State,
}
