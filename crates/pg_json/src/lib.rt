//! Requests and replies as JSON. No other crate reads or writes it.
#![tactic(auto)]

mod bytes;
mod fields;
mod held_rows;
mod instances;
mod laws;
mod noted_rows;
mod number;
mod page;
mod parameters;
mod pieces;
mod plain_rows;
mod query_reply;
mod read;
mod request;
mod rollback;
mod room;
mod rows;
mod scratch;
mod status;
mod unread;
mod value;
mod values;

pub use bytes::{ReplyBytes, done, refusal};
pub use held_rows::HeldRows;
pub use instances::{instances_of_replies, instances_of_requests};
pub use laws::{law_of_refusal_texts, law_of_replies};
pub use query_reply::QueryReply;
pub use read::read_request;
pub use request::RequestBody;
pub use rollback::rollback_body;
pub use room::{room_behind, room_behind_integer};
pub use rows::{ReplyColumns, RowsReply};
pub use scratch::RequestScratch;
pub use status::{TenantStatus, write_status};
