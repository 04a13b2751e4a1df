// The scripts of transfers: their commands, the questions put to them, and the scripts of the Rust's four transfers.
#![tactic(auto)]

pub mod cursor;
pub mod reader;
pub mod sum;
pub mod write;
