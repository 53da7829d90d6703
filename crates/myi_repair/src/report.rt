//! What a repair says of itself.

/// How many rows a repair kept, how many it left out because they repeat a unique key, and the length
/// of the data file before and after it, in bytes.
#[derive(Clone, Copy, Debug, PartialEq, Eq)]
pub struct Report {
    pub kept: u64,
    pub repeats: u64,
    pub old_length: u64,
    pub new_length: u64,
}
