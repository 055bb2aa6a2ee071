//! What each kind is.
ghost use Rattle.std.specs.Prelude.{◌≡◌};
ghost use Rattle.ds_kind.specs.Reach.{reach_of_bounds};

use crate::flags::Flags;
use ds_base::Key;

/// Where a request acts: at one key, or from a start up to an end.
#[derive(Clone, Copy)]
pub enum Bounds<'a> {
    Point(&'a Key),
    Between(&'a Key, &'a Key),
}

/// A kind of request.
pub trait Kind {
    ghost use Rattle.ds_kind.specs.Reach.{Reach};
    ghost use Rattle.ds_kind.specs.declared.flags.Flags.{Flags};

    /// What a request of the kind is given.
    type Args;

    /// What it may do.
    const FLAGS: Flags;

    ghost FLAGS: { Flags };

    // where a request of these arguments acts
    ghost reach: { Self.Args → Reach };

    /// Where a request of these arguments acts.
    fn bounds<'a>(args: &'a Self::Args) -> Bounds<'a>
        ensures { reach_of_bounds result ≡ reach args.now };
}
