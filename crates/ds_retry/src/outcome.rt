//! What the sending of one part comes to.
use ds_base::Span;
use ds_desc::RangeDesc;
use ds_kind::{Failure, Left, Replies};

/// What holds for all pieces of a part.
#[derive(Drop)]
pub struct Rule {
    /// The span that must lie in one range, if there is one.
    pub whole: Option<Span>,
}

/// How the sending of one part ended.
#[derive(Drop)]
pub enum PartOutcome {
    /// Each item was answered; this is left of the limit.
    Done { replies: Replies, left: Left },
    /// The span that must lie in one range doesn't lie in this one, to which the part's first key
    /// was routed.
    NotWhole { desc: RangeDesc },
    /// A delivered piece failed.
    Failed(Failure),
    /// These many sends were lost of which nobody knows whether they acted.
    Ambiguous { lost: u32 },
    /// Refusals and losses used up the budget.
    Exhausted { refused: u32, lost: u32 },
}
