//! The memory that is lent to tell plates apart.

/// What it takes to tell two plates apart and to say so.
#[derive(Drop)]
pub struct Memory<'a, L> {
    /// For the row of letters that tells the plates apart: one more than a word has.
    pub row: &'a mut [L],
    /// For the search of that row.
    pub scratch: &'a mut [u32],
    /// For the bytes of the line that tells it.
    pub line: &'a mut [u8],
}
