//! The kinds that read.
use crate::flags::Flags;
use crate::kind::{Bounds, Kind};
use ds_base::{Key, Seq};

/// Reads the value of one key.
pub struct Get;

/// What a [`Get`] is given.
#[derive(Clone, Drop)]
pub struct GetArgs {
    pub key: Key,
}

impl Kind for Get {
    ghost use Rattle.ds_kind.specs.Reach.{At, Over};
    ghost use Rattle.ds_kind.specs.Flags.{flags_of};
    ghost use Rattle.ds_kind.specs.declared.name.KindName.TheVariants.{Get};

    type Args = GetArgs;

    const FLAGS: Flags = Flags {
        read: true,
        txn: true,
        repeatable: true,
        ..Flags::NONE
    };

    ghost FLAGS = { flags_of Get };

    ghost reach = { λ a. At a.key };

    fn bounds<'a>(args: &'a GetArgs) -> Bounds<'a> {
        Bounds::Point(&args.key)
    }
}

/// Reads the rows of a span, ascending.
pub struct Scan;

/// What a [`Scan`] is given.
#[derive(Clone, Drop)]
pub struct ScanArgs {
    pub start: Key,
    pub end: Key,
}

impl Kind for Scan {
    ghost use Rattle.ds_kind.specs.Reach.{At, Over};
    ghost use Rattle.ds_kind.specs.Flags.{flags_of};
    ghost use Rattle.ds_kind.specs.declared.name.KindName.TheVariants.{Scan};

    type Args = ScanArgs;

    const FLAGS: Flags = Flags {
        read: true,
        range: true,
        txn: true,
        repeatable: true,
        ..Flags::NONE
    };

    ghost FLAGS = { flags_of Scan };

    ghost reach = { λ a. Over a.start a.end };

    fn bounds<'a>(args: &'a ScanArgs) -> Bounds<'a> {
        Bounds::Between(&args.start, &args.end)
    }
}

/// Reads the rows of a span, descending.
pub struct ReverseScan;

/// What a [`ReverseScan`] is given.
#[derive(Clone, Drop)]
pub struct ReverseScanArgs {
    pub start: Key,
    pub end: Key,
}

impl Kind for ReverseScan {
    ghost use Rattle.ds_kind.specs.Reach.{At, Over};
    ghost use Rattle.ds_kind.specs.Flags.{flags_of};
    ghost use Rattle.ds_kind.specs.declared.name.KindName.TheVariants.{ReverseScan};

    type Args = ReverseScanArgs;

    const FLAGS: Flags = Flags {
        read: true,
        range: true,
        reverse: true,
        txn: true,
        repeatable: true,
        ..Flags::NONE
    };

    ghost FLAGS = { flags_of ReverseScan };

    ghost reach = { λ a. Over a.start a.end };

    fn bounds<'a>(args: &'a ReverseScanArgs) -> Bounds<'a> {
        Bounds::Between(&args.start, &args.end)
    }
}

/// Tells whether a write of the transaction stands at a key.
pub struct QueryIntent;

/// What a [`QueryIntent`] is given.
#[derive(Clone, Drop)]
pub struct QueryIntentArgs {
    pub key: Key,
    /// The number of the write asked for.
    pub seq: Seq,
}

impl Kind for QueryIntent {
    ghost use Rattle.ds_kind.specs.Reach.{At, Over};
    ghost use Rattle.ds_kind.specs.Flags.{flags_of};
    ghost use Rattle.ds_kind.specs.declared.name.KindName.TheVariants.{QueryIntent};

    type Args = QueryIntentArgs;

    const FLAGS: Flags = Flags {
        read: true,
        txn: true,
        prefix: true,
        repeatable: true,
        ..Flags::NONE
    };

    ghost FLAGS = { flags_of QueryIntent };

    ghost reach = { λ a. At a.key };

    fn bounds<'a>(args: &'a QueryIntentArgs) -> Bounds<'a> {
        Bounds::Point(&args.key)
    }
}
