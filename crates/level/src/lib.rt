// Received light as a level in dBm.
#![tactic(auto)]

pub mod dbm;
pub mod lookup;
