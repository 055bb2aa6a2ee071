//! Which kinds may stand in one part.
ghost use Rattle.std.specs.Prelude.{◌≡◌, true, false, map};
ghost use Rattle.ds_kind.specs.Flags.{fit, flags_of};
ghost use Rattle.ds_kind.specs.Table.{all_kinds, fits_of, IsSymmetric, AloneFitsNothing};

use crate::flags::Flags;
use crate::name::KindName;

/// Whether requests of the two kinds may stand in one part: neither stands alone, both or neither
/// write, and not one goes forward over a range and the other back.
pub fn compatible(a: KindName, b: KindName) -> bool
    ensures { result ≡ fit (flags_of a) (flags_of b) }
{
    fits(a.flags(), b.flags())
}

/// Does nothing: its clauses tell what holds of [`compatible`] at every two kinds. The order of the
/// two does not matter, and a kind that stands alone is compatible with nothing.
#[tactic(auto, using(crate::proofs::FitFacts::fit_symmetric))]
pub fn compatible_both_ways(a: KindName, b: KindName)
    ensures symmetric { fit (flags_of a) (flags_of b) ≡ fit (flags_of b) (flags_of a) }
    ensures alone { (flags_of a).alone ≡ true → fit (flags_of a) (flags_of b) ≡ false }
{}

fn fits(a: Flags, b: Flags) -> bool
    ensures { result ≡ fit a b }
{
    !a.alone && !b.alone && a.write == b.write && !(a.range && b.range && a.reverse != b.reverse)
}

fn row<const N: usize>(flags: &[Flags; N], a: Flags) -> [bool; N]
    ensures { result ≡ map (fit a) flags.now }
{
    let mut row = [false; N];
    for j in 0..N {
        row[j] = fits(a, flags[j]);
    }
    row
}

fn rows<const N: usize>(flags: &[Flags; N]) -> [[bool; N]; N]
    ensures { result ≡ map (λ a. map (fit a) flags.now) flags.now }
{
    let mut rows = [[false; N]; N];
    for i in 0..N {
        rows[i] = row(flags, flags[i]);
    }
    rows
}

/// N kinds, their flags, and which of them may stand in one part.
#[derive(Drop)]
pub struct KindTable<const N: usize> {
    pub kinds: [KindName; N],
    pub flags: [Flags; N],
    pub fits: [[bool; N]; N],
    ghost made: { fits ≡ map (λ a. map (fit a) flags) flags },
}

// The flags of each kind, in order.
fn flags_of_all<const N: usize>(kinds: &[KindName; N]) -> [Flags; N]
    ensures { result ≡ map flags_of kinds.now }
{
    let mut flags = [Flags::NONE; N];
    for i in 0..N {
        flags[i] = kinds[i].flags();
    }
    flags
}

impl<const N: usize> KindTable<N> {
    /// The table of these kinds, in this order.
    pub fn of(kinds: [KindName; N]) -> KindTable<N>
        ensures kinds { result.kinds ≡ kinds.entry }
        ensures flags { result.flags ≡ map flags_of kinds.entry }
        ensures fits { result.fits ≡ fits_of (map flags_of kinds.entry) }
        ensures symmetric { IsSymmetric result.fits }
        ensures alone { AloneFitsNothing result.flags result.fits }
    {
        let flags = flags_of_all(&kinds);
        let fits = rows(&flags);
        KindTable { kinds, flags, fits }
    }
}

impl KindTable<15> {
    /// The table of all kinds, in the order of [`KindName::ALL`].
    pub fn kinds() -> KindTable<15>
        ensures kinds { result.kinds ≡ all_kinds }
        ensures flags { result.flags ≡ map flags_of all_kinds }
        ensures fits { result.fits ≡ fits_of (map flags_of all_kinds) }
        ensures symmetric { IsSymmetric result.fits }
        ensures alone { AloneFitsNothing result.flags result.fits }
    {
        KindTable::of(KindName::ALL)
    }
}
