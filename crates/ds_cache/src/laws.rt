//! Laws of what an insertion does, for the proofs above. The functions here do nothing.
ghost use Rattle.ds_cache.specs.Laws.{FreshLaw, KeptLaw, PutLaw, StandingLaw, TokenLaw};

/// Where a descriptor stands, nothing outdates it: so at most one of
/// [`Older`](crate::Inserted::Older) and [`Renewed`](crate::Inserted::Renewed) fits.
pub fn standing_law()
    ensures { StandingLaw }
{}

/// An insertion keeps what every cache keeps.
pub fn put_law()
    ensures { PutLaw }
{}

/// The token of an insertion names an entry with the descriptor that was inserted, or none.
pub fn token_law()
    ensures { TokenLaw }
{}

/// The serial of an added entry is above all that were given before.
pub fn fresh_law()
    ensures { FreshLaw }
{}

/// What stands under a given serial after an insertion stood there before it, with the same
/// descriptor: so a token never names a later entry than its own.
pub fn kept_law()
    ensures { KeptLaw }
{}
