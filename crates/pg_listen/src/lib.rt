//! Many clients of one server at once: frames in, reply frames out.
#![tactic(auto)]

mod again;
mod client;
mod clients;
mod frames;
mod journaled;
mod keeper;
mod laws;
mod limits;
mod listen;
mod network;
mod queue;
mod service;
mod sessions;
mod tenants;
mod trailing;
mod turn;

pub use again::{Difference, Watch};
pub use clients::ListenEnd;
pub use journaled::{Journaled, Unstarted, listen_on_journal};
pub use keeper::Keeper;
pub use laws::{law_again, law_crashes};
pub use limits::Limits;
pub use listen::listen_on;
pub use network::{Closing, Network, Received, ReplyNote, Sent, Signal};
pub use trailing::{Trailing, listen_on_trailing};
