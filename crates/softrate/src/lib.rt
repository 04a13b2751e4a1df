// `soft_rate_select` of `sfp.rs`, one access at a time.
#![tactic(auto)]

pub mod calls;
pub mod spot;
pub mod walk;
