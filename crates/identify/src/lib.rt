// `identify` and `identify_qsfp` of `sfp.rs`, one access at a time.
#![tactic(auto)]

pub mod calls;
pub mod place;
pub mod walk;
