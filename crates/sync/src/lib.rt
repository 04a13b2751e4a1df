// The software/firmware semaphores: the register semaphore, and the bits of SW_FW_SYNC under it.
#![tactic(auto)]

pub mod acquire_bits;
pub mod calls;
pub mod lock;
pub mod regs;
pub mod release_bits;
pub mod swesmbi;
pub mod unlock;
