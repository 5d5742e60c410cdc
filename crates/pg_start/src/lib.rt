//! What both programs do at their start: stack taken, a configuration read, a server made.
#![tactic(auto)]

mod address;
mod server;
mod stack;
mod start_fault;

pub use address::own_address;
pub use server::{PooledServer, new_server, read_config};
pub use stack::take_stack;
pub use start_fault::StartFault;
