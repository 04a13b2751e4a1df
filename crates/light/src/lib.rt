// Temperature and received light of a module, from its bytes (SFF-8472, page A2).
#![tactic(auto)]

pub mod calls;
pub mod power;
pub mod sensed;
pub mod walk;
pub mod words;
