//! The kinds that write a transaction's values.
use crate::flags::Flags;
use crate::kind::{Bounds, Kind};
use ds_base::{Key, Value};

/// Writes a value.
pub struct Put;

/// What a [`Put`] is given.
#[derive(Clone, Drop)]
pub struct PutArgs {
    pub key: Key,
    pub value: Value,
}

impl Kind for Put {
    ghost use Rattle.ds_kind.specs.Reach.{At, Over};
    ghost use Rattle.ds_kind.specs.Flags.{flags_of};
    ghost use Rattle.ds_kind.specs.declared.name.KindName.TheVariants.{Put};

    type Args = PutArgs;

    const FLAGS: Flags = Flags {
        write: true,
        txn: true,
        ..Flags::NONE
    };

    ghost FLAGS = { flags_of Put };

    ghost reach = { λ a. At a.key };

    fn bounds<'a>(args: &'a PutArgs) -> Bounds<'a> {
        Bounds::Point(&args.key)
    }
}

/// Writes a value where the one seen is the expected one, or none is seen and that is allowed.
pub struct ConditionalPut;

/// What a [`ConditionalPut`] is given.
#[derive(Clone, Drop)]
pub struct ConditionalPutArgs {
    pub key: Key,
    pub value: Value,
    /// The value that must be seen; `None` asks that none is.
    pub expect: Option<Value>,
    /// Whether no value seen is as good as the expected one.
    pub allow_absent: bool,
}

impl Kind for ConditionalPut {
    ghost use Rattle.ds_kind.specs.Reach.{At, Over};
    ghost use Rattle.ds_kind.specs.Flags.{flags_of};
    ghost use Rattle.ds_kind.specs.declared.name.KindName.TheVariants.{ConditionalPut};

    type Args = ConditionalPutArgs;

    const FLAGS: Flags = Flags {
        read: true,
        write: true,
        txn: true,
        ..Flags::NONE
    };

    ghost FLAGS = { flags_of ConditionalPut };

    ghost reach = { λ a. At a.key };

    fn bounds<'a>(args: &'a ConditionalPutArgs) -> Bounds<'a> {
        Bounds::Point(&args.key)
    }
}

/// Writes a value unless another one is seen.
pub struct InitPut;

/// What a [`InitPut`] is given.
#[derive(Clone, Drop)]
pub struct InitPutArgs {
    pub key: Key,
    pub value: Value,
}

impl Kind for InitPut {
    ghost use Rattle.ds_kind.specs.Reach.{At, Over};
    ghost use Rattle.ds_kind.specs.Flags.{flags_of};
    ghost use Rattle.ds_kind.specs.declared.name.KindName.TheVariants.{InitPut};

    type Args = InitPutArgs;

    const FLAGS: Flags = Flags {
        read: true,
        write: true,
        txn: true,
        ..Flags::NONE
    };

    ghost FLAGS = { flags_of InitPut };

    ghost reach = { λ a. At a.key };

    fn bounds<'a>(args: &'a InitPutArgs) -> Bounds<'a> {
        Bounds::Point(&args.key)
    }
}

/// Adds to the whole number seen, none counting as 0.
pub struct Increment;

/// What a [`Increment`] is given.
#[derive(Clone, Drop)]
pub struct IncrementArgs {
    pub key: Key,
    /// What is added; it may be negative.
    pub by: i64,
}

impl Kind for Increment {
    ghost use Rattle.ds_kind.specs.Reach.{At, Over};
    ghost use Rattle.ds_kind.specs.Flags.{flags_of};
    ghost use Rattle.ds_kind.specs.declared.name.KindName.TheVariants.{Increment};

    type Args = IncrementArgs;

    const FLAGS: Flags = Flags {
        read: true,
        write: true,
        txn: true,
        ..Flags::NONE
    };

    ghost FLAGS = { flags_of Increment };

    ghost reach = { λ a. At a.key };

    fn bounds<'a>(args: &'a IncrementArgs) -> Bounds<'a> {
        Bounds::Point(&args.key)
    }
}

/// Writes a deletion.
pub struct Delete;

/// What a [`Delete`] is given.
#[derive(Clone, Drop)]
pub struct DeleteArgs {
    pub key: Key,
}

impl Kind for Delete {
    ghost use Rattle.ds_kind.specs.Reach.{At, Over};
    ghost use Rattle.ds_kind.specs.Flags.{flags_of};
    ghost use Rattle.ds_kind.specs.declared.name.KindName.TheVariants.{Delete};

    type Args = DeleteArgs;

    const FLAGS: Flags = Flags {
        write: true,
        txn: true,
        ..Flags::NONE
    };

    ghost FLAGS = { flags_of Delete };

    ghost reach = { λ a. At a.key };

    fn bounds<'a>(args: &'a DeleteArgs) -> Bounds<'a> {
        Bounds::Point(&args.key)
    }
}

/// Writes a deletion at each key of a span that shows a value.
pub struct DeleteRange;

/// What a [`DeleteRange`] is given.
#[derive(Clone, Drop)]
pub struct DeleteRangeArgs {
    pub start: Key,
    pub end: Key,
}

impl Kind for DeleteRange {
    ghost use Rattle.ds_kind.specs.Reach.{At, Over};
    ghost use Rattle.ds_kind.specs.Flags.{flags_of};
    ghost use Rattle.ds_kind.specs.declared.name.KindName.TheVariants.{DeleteRange};

    type Args = DeleteRangeArgs;

    const FLAGS: Flags = Flags {
        read: true,
        write: true,
        range: true,
        txn: true,
        ..Flags::NONE
    };

    ghost FLAGS = { flags_of DeleteRange };

    ghost reach = { λ a. Over a.start a.end };

    fn bounds<'a>(args: &'a DeleteRangeArgs) -> Bounds<'a> {
        Bounds::Between(&args.start, &args.end)
    }
}
