//! Searches in lists whose numbers rise: each halves what is left to look at.
ghost use Rattle.std.specs.Prelude.{◌≡◌, ◌≤◌, nat_le, nat_lt, ◌==◌, find, length, slice_get};
ghost use Rattle.std.specs.Option.{option_copied};
ghost use Rattle.ds_cell.specs.Content.{Rises};
ghost use Rattle.ds_cell.specs.Seen.{last_where};
ghost use Rattle.ds_cell.specs.Change.{place_before};

use crate::entry::{Version, Written};

/// What stands in lists in the order of a number.
pub(crate) trait Ranked {
    ghost use Rattle.std.specs.Prelude.{ℕ};

    ghost rank: { Self → ℕ };

    /// The number.
    fn rank(&self) -> u64
        ensures { result ≡ rank self.now };
}

impl Ranked for Version {
    ghost use Rattle.ds_cell.specs.Content.{stamp_of};

    ghost rank = { stamp_of };

    fn rank(&self) -> u64 {
        self.stamp.0
    }
}

impl Ranked for Written {
    ghost use Rattle.ds_cell.specs.Content.{seq_of};

    ghost rank = { seq_of };

    fn rank(&self) -> u64 {
        u64::from(self.seq.0)
    }
}

/// How many have numbers up to `n`, which is the place before the first greater one.
pub(crate) fn count_up_to<T: Ranked>(items: &[T], n: u64) -> usize
    requires { Rises T.rank items.now }
    ensures place { result ≡ place_before (λ x. nat_lt n (T.rank x)) items.now }
    ensures within { result ≤ length items.now }
{
    items.partition_point(|x| x.rank() <= n)
}

fn nth<T>(items: &[T], i: usize) -> Option<&T>
    ensures { option_copied result ≡ slice_get items.now i }
{
    items.get(i)
}

/// The one with the greatest number not above `n`.
pub(crate) fn latest<T: Ranked>(items: &[T], n: u64) -> Option<&T>
    requires { Rises T.rank items.now }
    ensures { option_copied result ≡ last_where (λ x. nat_le (T.rank x) n) items.now }
{
    let count = count_up_to(items, n);
    if count == 0 {
        None
    } else {
        nth(items, count - 1)
    }
}

/// The one with the number `n`.
pub(crate) fn under<T: Ranked>(items: &[T], n: u64) -> Option<&T>
    requires { Rises T.rank items.now }
    ensures { option_copied result ≡ find (λ x. T.rank x == n) items.now }
{
    match latest(items, n) {
        Some(x) => { if x.rank() == n { Some(x) } else { None } }
        None => None,
    }
}
