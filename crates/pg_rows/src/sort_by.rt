//! What a sort of rows goes by.

/// The values of a column, falling or rising.
#[derive(Clone, Copy)]
pub struct SortBy {
    pub column: usize,
    pub descends: bool,
}
