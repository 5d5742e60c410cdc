//! The ids that come next.

/// The ids that the next elements get.
#[derive(Clone, Copy)]
pub struct NextIds {
    pub node: u64,
    pub rel: u64,
}
