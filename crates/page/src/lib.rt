// Whole pages of a module with their check bytes: bytes 0 to 95 of SFF-8472, 128 to 223 of SFF-8636.
#![tactic(auto)]

pub mod calls;
pub mod sums;
pub mod walk;
