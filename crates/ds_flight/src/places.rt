//! Where tasks stand in the work.
ghost use Rattle.std.specs.Prelude.{◌≡◌, ◌≤◌, length, OnOk};
ghost use Rattle.std.specs.List.{position};
ghost use Rattle.ds_cover.specs.Cuts.{seek_key};
ghost use Rattle.ds_flight.specs.Places.{is_rest, nth_routed, one_if_routed, placed, rest_if, waiting};

use crate::work::{Flying, Task};
use ds_cut::Cutter;
use std::alloc::AllocError;

/// The place of the first rest.
pub(crate) fn first_rest(work: &[Task]) -> Option<usize>
    ensures { result ≡ position is_rest work.now }
{
    work.iter().position(|task| matches!(task, Task::Rest(_)))
}

/// Whether the task is routed, as a number.
fn one_if_routed(task: &Task) -> usize
    ensures number { result ≡ one_if_routed task.now }
    ensures one { result ≤ 1 }
{
    match task {
        Task::Rest(_) => 0,
        Task::Routed(_) => 1,
    }
}

/// How many routed pieces wait.
pub(crate) fn routed_count(work: &[Task]) -> usize
    ensures { result ≡ waiting work.now }
{
    let mut count = 0;
    'tasks: for task in work {
        count += one_if_routed(task);
    }
    count
}

/// The place of the n-th routed piece, from 0.
pub(crate) fn nth_routed(work: &[Task], n: usize) -> Option<usize>
    ensures { result ≡ nth_routed n work.now }
{
    let mut left = n;
    'tasks: for at in 0..work.len() {
        if one_if_routed(&work[at]) == 0 {
            continue;
        }
        if left == 0 {
            return Some(at);
        }
        left -= 1;
    }
    None
}

/// Puts back what is left of a rest, if anything is.
fn put_rest(work: &mut Vec<Task>, at: usize, rest: Cutter) -> Result<(), AllocError>
    requires { at ≤ length work.old.items }
    ensures { OnOk result (work.new.items ≡ rest_if (seek_key rest.dir rest.items) rest at work.old.items) }
{
    if rest.seek().is_none() {
        return Ok(());
    }
    work.insert(at, Task::Rest(rest))?;
    Ok(())
}

/// Puts a piece in a place, before what is left of its rest.
pub(crate) fn place(
    work: &mut Vec<Task>,
    at: usize,
    flying: Flying,
    rest: Cutter,
) -> Result<(), AllocError>
    requires { at ≤ length work.old.items }
    ensures { OnOk result (work.new.items ≡ placed flying rest at work.old.items) }
{
    put_rest(work, at, rest)?;
    work.insert(at, Task::Routed(flying))?;
    Ok(())
}
