//! A journal of requests: each is on the disk before its reply leaves.
#![tactic(auto)]

mod device;
mod digest;
mod fault;
mod file;
mod head;
mod journal;
mod memory;
mod read;
mod records;
mod replay;
mod steps;

pub use device::Device;
pub use digest::Reply;
pub use fault::JournalError;
pub use file::DiskFile;
pub use head::FIRST_RECORD;
pub use journal::Journal;
pub use memory::Memory;
pub use records::record_len;
pub use replay::Replay;
