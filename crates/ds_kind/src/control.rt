//! The kinds that end transactions, settle intents, and move ranges and leases.
use crate::flags::Flags;
use crate::kind::{Bounds, Kind};
use crate::reply::Flights;
use ds_base::{Key, TxnNo};

/// Commits or aborts the transaction.
pub struct EndTxn;

/// What a [`EndTxn`] is given.
#[derive(Clone, Drop)]
pub struct EndTxnArgs {
    pub key: Key,
    /// Whether to commit; otherwise to roll back.
    pub commit: bool,
    /// Whether the transaction must end in the piece that holds all of its batch.
    pub one_phase: bool,
    /// Whether the commit may be staged beside writes in flight.
    pub parallel: bool,
    /// The writes that a staged commit waits for.
    pub in_flight: Flights,
}

impl Kind for EndTxn {
    ghost use Rattle.ds_kind.specs.Reach.{At, Over};
    ghost use Rattle.ds_kind.specs.Flags.{flags_of};
    ghost use Rattle.ds_kind.specs.declared.name.KindName.TheVariants.{EndTxn};

    type Args = EndTxnArgs;

    const FLAGS: Flags = Flags {
        write: true,
        txn: true,
        alone: true,
        ..Flags::NONE
    };

    ghost FLAGS = { flags_of EndTxn };

    ghost reach = { λ a. At a.key };

    fn bounds<'a>(args: &'a EndTxnArgs) -> Bounds<'a> {
        Bounds::Point(&args.key)
    }
}

/// Settles a transaction's intent at a key.
pub struct ResolveIntent;

/// What a [`ResolveIntent`] is given.
#[derive(Clone, Drop)]
pub struct ResolveIntentArgs {
    pub key: Key,
    pub txn: TxnNo,
}

impl Kind for ResolveIntent {
    ghost use Rattle.ds_kind.specs.Reach.{At, Over};
    ghost use Rattle.ds_kind.specs.Flags.{flags_of};
    ghost use Rattle.ds_kind.specs.declared.name.KindName.TheVariants.{ResolveIntent};

    type Args = ResolveIntentArgs;

    const FLAGS: Flags = Flags {
        write: true,
        repeatable: true,
        ..Flags::NONE
    };

    ghost FLAGS = { flags_of ResolveIntent };

    ghost reach = { λ a. At a.key };

    fn bounds<'a>(args: &'a ResolveIntentArgs) -> Bounds<'a> {
        Bounds::Point(&args.key)
    }
}

/// Settles a transaction's intents in a span.
pub struct ResolveIntentRange;

/// What a [`ResolveIntentRange`] is given.
#[derive(Clone, Drop)]
pub struct ResolveIntentRangeArgs {
    pub start: Key,
    pub end: Key,
    pub txn: TxnNo,
}

impl Kind for ResolveIntentRange {
    ghost use Rattle.ds_kind.specs.Reach.{At, Over};
    ghost use Rattle.ds_kind.specs.Flags.{flags_of};
    ghost use Rattle.ds_kind.specs.declared.name.KindName.TheVariants.{ResolveIntentRange};

    type Args = ResolveIntentRangeArgs;

    const FLAGS: Flags = Flags {
        write: true,
        range: true,
        repeatable: true,
        ..Flags::NONE
    };

    ghost FLAGS = { flags_of ResolveIntentRange };

    ghost reach = { λ a. Over a.start a.end };

    fn bounds<'a>(args: &'a ResolveIntentRangeArgs) -> Bounds<'a> {
        Bounds::Between(&args.start, &args.end)
    }
}

/// Splits the range at a key.
pub struct AdminSplit;

/// What a [`AdminSplit`] is given.
#[derive(Clone, Drop)]
pub struct AdminSplitArgs {
    pub key: Key,
}

impl Kind for AdminSplit {
    ghost use Rattle.ds_kind.specs.Reach.{At, Over};
    ghost use Rattle.ds_kind.specs.Flags.{flags_of};
    ghost use Rattle.ds_kind.specs.declared.name.KindName.TheVariants.{AdminSplit};

    type Args = AdminSplitArgs;

    const FLAGS: Flags = Flags {
        alone: true,
        repeatable: true,
        ..Flags::NONE
    };

    ghost FLAGS = { flags_of AdminSplit };

    ghost reach = { λ a. At a.key };

    fn bounds<'a>(args: &'a AdminSplitArgs) -> Bounds<'a> {
        Bounds::Point(&args.key)
    }
}

/// Moves the lease of the range of a key.
pub struct AdminTransferLease;

/// What a [`AdminTransferLease`] is given.
#[derive(Clone, Drop)]
pub struct AdminTransferLeaseArgs {
    pub key: Key,
    pub node: u8,
}

impl Kind for AdminTransferLease {
    ghost use Rattle.ds_kind.specs.Reach.{At, Over};
    ghost use Rattle.ds_kind.specs.Flags.{flags_of};
    ghost use Rattle.ds_kind.specs.declared.name.KindName.TheVariants.{AdminTransferLease};

    type Args = AdminTransferLeaseArgs;

    const FLAGS: Flags = Flags {
        alone: true,
        repeatable: true,
        ..Flags::NONE
    };

    ghost FLAGS = { flags_of AdminTransferLease };

    ghost reach = { λ a. At a.key };

    fn bounds<'a>(args: &'a AdminTransferLeaseArgs) -> Bounds<'a> {
        Bounds::Point(&args.key)
    }
}
