//! What clients may take.

/// What clients may take.
#[derive(Clone, Copy)]
pub struct Limits {
    /// How many connections there may be at once.
    pub clients: usize,
    /// How many of them may be one tenant's.
    pub tenant_clients: usize,
    /// For how many microseconds a client may be in the middle of a frame or of a reply, or show no token of a tenant.
    pub patience: u64,
    /// How many bytes of replies may wait for being taken, over all clients, before some are closed.
    pub waiting: usize,
    /// How many of one tenant's clients, before its requests wait.
    pub tenant_waiting: usize,
    /// How many bytes of records may wait before they are written; where it is 1, each is written before the next request is answered.
    pub unsettled: usize,
    /// For how many microseconds records may wait for which no reply waits, before they are written at the next tick.
    pub delay: u64,
    /// Whether a transaction stays open when the client is gone that began it.
    pub keep_open: bool,
    /// At how many places, from the first on, a tenant may have a transaction open at the start that no client began: it is rolled back.
    pub left_open: usize,
}
