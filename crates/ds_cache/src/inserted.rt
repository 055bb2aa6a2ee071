//! What an insertion did.

/// What became of a descriptor that was to be inserted.
#[derive(Clone, Copy, Debug, PartialEq, Eq)]
pub enum Inserted {
    /// An entry that overlaps it is at least as new, and is another descriptor; `by` is its generation,
    /// and of several that of the one used last.
    Older { by: u32 },
    /// It stood already, and has the later lease.
    Renewed,
    /// It is new, and what overlapped it went.
    Added,
    /// Every serial was given.
    Spent,
}
