//! What a tenant holds of the rows of its queries, until they are pulled.
#![tactic(auto)]

mod pages;

pub use pages::Pages;
