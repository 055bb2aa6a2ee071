//! What a seek answers.
use ds_cache::Token;
use ds_desc::Info;

/// What was found where a key was sought.
#[derive(Drop)]
pub enum Sought {
    /// The range that contains the key, as it stood when it was found. The token names its entry
    /// in the cache. Where the cache holds a newer descriptor than a lookup's first row, or every
    /// serial was given, the row is found all the same, and its token names no entry.
    Found { info: Info, token: Token },
    /// The lookup's answer, or the question, was lost.
    Lost,
}
