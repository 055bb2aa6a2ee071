//! What a kind may do.
ghost use Rattle.std.specs.Prelude.{◌≡◌};

/// The flags of a kind.
#[derive(Clone, Copy, Debug, PartialEq, Eq)]
pub struct Flags {
    /// It looks at values.
    pub read: bool,
    /// It changes what stands at keys, or a transaction's record.
    pub write: bool,
    /// It acts on a span and not on one key.
    pub range: bool,
    /// It goes down its span.
    pub reverse: bool,
    /// It is part of a transaction: a batch that holds one and has no transaction becomes one.
    pub txn: bool,
    /// It stands in no part with others.
    pub alone: bool,
    /// It may stand before a commit that is staged.
    pub prefix: bool,
    /// Sent again it does no harm.
    pub repeatable: bool,
}

impl Flags {
    ghost use Rattle.ds_kind.specs.Flags.{is_numbered};

    pub(crate) const NONE: Flags = Flags {
        read: false,
        write: false,
        range: false,
        reverse: false,
        txn: false,
        alone: false,
        prefix: false,
        repeatable: false,
    };

    /// Whether requests of the kind take sequence numbers of their own.
    pub fn is_numbered(self) -> bool
        ensures { result ≡ is_numbered self }
    {
        self.write && self.txn && !self.alone
    }
}
