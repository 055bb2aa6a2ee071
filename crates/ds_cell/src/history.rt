//! The writes of a cell's transaction, by rising number.
ghost use Rattle.std.specs.Prelude.{◌≡◌, ◌≤◌, nat_lt, length, OnOk, IfOk, OnErr, None};
ghost use Rattle.std.specs.Option.{option_copied};
ghost use Rattle.ds_cell.specs.Content.{Rises, seq_of};
ghost use Rattle.ds_cell.specs.Seen.{newest, under, last_of};
ghost use Rattle.ds_cell.specs.Change.{place_before, with_write};
ghost use Rattle.ds_cell.specs.Taken.{without_write};

use crate::entry::Written;
use crate::ranked;
use ds_base::Seq;
use std::alloc::{AllocError, Global};

// The write with the greatest number not above `seq`.
pub(crate) fn newest(history: &[Written], seq: Seq) -> Option<&Written>
    requires { Rises seq_of history.now }
    ensures { option_copied result ≡ newest seq.0 history.now }
{
    ranked::latest(history, u64::from(seq.0))
}

// The write under the number.
pub(crate) fn under(history: &[Written], seq: Seq) -> Option<&Written>
    requires { Rises seq_of history.now }
    ensures { option_copied result ≡ under seq.0 history.now }
{
    ranked::under(history, u64::from(seq.0))
}

pub(crate) fn last_write(history: &[Written]) -> Option<&Written>
    ensures { option_copied result ≡ last_of history.now }
{
    history.iter().rev().find(|_| true)
}

fn place_of_write(history: &[Written], seq: Seq) -> usize
    requires { Rises seq_of history.now }
    ensures place { result ≡ place_before (λ w. nat_lt seq.0 w.seq.0) history.now }
    ensures within { result ≤ length history.now }
{
    ranked::count_up_to(history, u64::from(seq.0))
}

// Adds a write under a number that is free. Want of memory leaves the writes as they were.
pub(crate) fn add_write(history: &mut Vec<Written>, written: Written) -> Result<(), AllocError>
    requires rises { Rises seq_of history.old.items }
    requires free { under written.seq.0 history.old.items ≡ None }
    ensures ok { OnOk result (history.new.items ≡ with_write written history.old.items) }
    ensures back { OnOk result (without_write written.seq.0 history.new.items ≡ history.old.items) }
    ensures err { OnErr result (history.new.items ≡ history.old.items) }
    ensures rises { Rises seq_of history.new.items }
{
    let place = place_of_write(history.as_slice(), written.seq);
    history.insert(place, written)?;
    Ok(())
}

// Removes the write under the number. It takes no memory.
pub(crate) fn remove_write(history: &mut Vec<Written>, seq: Seq)
    ensures without { history.new.items ≡ without_write seq.0 history.old.items }
    ensures rises { Rises seq_of history.old.items → Rises seq_of history.new.items }
{
    history.retain(|w| w.seq.0 != seq.0);
}

pub(crate) fn copy_history(alloc: Global, history: &[Written]) -> Result<Vec<Written>, AllocError>
    ensures { IfOk result (λ h. h.items ≡ history.now) }
{
    history.to_vec(alloc)
}
