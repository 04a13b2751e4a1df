// The firmware's host interface: a command, and the PHY token that one asks for.
#![tactic(auto)]

pub mod calls;
pub mod command;
pub mod request;
pub mod response;
pub mod token;
