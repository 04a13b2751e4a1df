// A mask of semaphores, with the firmware's PHY token where it is among them, is acquired and released.
#![tactic(auto)]

pub mod acquire;
pub mod calls;
pub mod release;
