// A whole feed: bytes in, lines out, on any store.
#![tactic(auto)]

pub mod ends;
pub mod fault;
pub mod memory;
mod playing;
mod printing;
mod pumping;
pub mod running;
mod window;
