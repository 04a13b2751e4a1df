// Transfers: the commands of a script on the bus, an attempt with its clearing, and the call that runs a script once.
#![tactic(auto)]

pub mod attempt;
pub mod calls;
pub mod transfer;
