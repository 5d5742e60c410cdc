//! Frames in, frames out: the server, its configuration, and what one of its runs promises.
#![tactic(auto)]

mod answered;
mod config;
mod config_fault;
mod connections;
mod counted;
mod counted_listener;
mod draft;
mod end;
mod instances;
mod laws;
mod serve_fault;
mod server;
mod service;
mod shared;
mod tenant_names;
mod tokens;
mod wire;

pub use answered::Answered;
pub use config::Config;
pub use config_fault::ConfigFault;
pub use connections::serve_on;
pub use counted::{Counted, DeviceFault};
pub use counted_listener::CountedListener;
pub use end::End;
pub use instances::{instances_of_configurations, instances_of_runs, instances_of_transactions};
pub use laws::{
    law_calls, law_of_commit, law_of_refusals, law_of_rollback, law_of_waiting,
    law_one_list_of_bodies, law_two_worlds,
};
pub use pg_tenant::Rights;
pub use serve_fault::ServeFault;
pub use server::Server;
pub use shared::Shared;
pub use tenant_names::TenantNames;
