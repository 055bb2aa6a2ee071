//! The versions of a cell, by rising stamp.
ghost use Rattle.std.specs.Prelude.{◌≡◌, ◌==◌, OnOk, IfOk, OnErr, fold};
ghost use Rattle.std.specs.Option.{option_copied};
ghost use Rattle.std.specs.List.{list_any};
ghost use Rattle.ds_cell.specs.Content.{Rises, stamp_of};
ghost use Rattle.ds_cell.specs.Seen.{version_at, last_of, raised, stamp_from};
ghost use Rattle.ds_cell.specs.Change.{made, settling};
ghost use Rattle.ds_cell.specs.Taken.{is_among, without_stamps};

use crate::entry::{Version, Written};
use crate::ranked;
use crate::taken::Stamps;
use ds_base::{Copies, Stamp};
use std::alloc::{AllocError, Global};

// The version with the greatest stamp not above `stamp`.
pub(crate) fn version_at(versions: &[Version], stamp: Stamp) -> Option<&Version>
    requires { Rises stamp_of versions.now }
    ensures { option_copied result ≡ version_at stamp.0 versions.now }
{
    ranked::latest(versions, stamp.0)
}

pub(crate) fn last_version(versions: &[Version]) -> Option<&Version>
    ensures { option_copied result ≡ last_of versions.now }
{
    versions.iter().rev().find(|_| true)
}

// The greatest so far, or the version's stamp where that is at least `from` and above it.
fn raised(from: Stamp, greatest: Option<Stamp>, version: &Version) -> Option<Stamp>
    ensures { result ≡ raised from.0 greatest version.now }
{
    match greatest {
        None => {
            if from.0 <= version.stamp.0 {
                Some(version.stamp)
            } else {
                None
            }
        }
        Some(great) => {
            if from.0 <= version.stamp.0 && great.0 < version.stamp.0 {
                Some(version.stamp)
            } else {
                Some(great)
            }
        }
    }
}

fn stamp_from(from: Stamp, version: Option<&Version>) -> Option<Stamp>
    ensures { result ≡ stamp_from from.0 (option_copied version.entry) }
{
    match version {
        None => None,
        Some(version) => raised(from, None, version),
    }
}

// The greatest stamp at or above `from` of a version or a waiting write.
pub(crate) fn newest_from(from: Stamp, versions: &[Version], waiting: &[Version]) -> Option<Stamp>
    ensures { result ≡ fold (raised from.0) (stamp_from from.0 (last_of versions.now)) waiting.now }
{
    let start = stamp_from(from, last_version(versions));
    waiting
        .iter()
        .fold(start, |greatest, version| raised(from, greatest, version))
}

// Whether a version stands at the stamp.
fn has_stamp(versions: &[Version], stamp: Stamp) -> bool
    requires { Rises stamp_of versions.now }
    ensures { result ≡ list_any (λ v. v.stamp.0 == stamp.0) versions.now }
{
    ranked::under(versions, stamp.0).is_some()
}

// Makes a version, unless one stands at its stamp.
pub(crate) fn make(versions: &mut Vec<Version>, version: Version) -> Result<(), AllocError>
    requires { Rises stamp_of versions.old.items }
    ensures ok { OnOk result (versions.new.items ≡ made versions.old.items version) }
    ensures err { OnErr result (versions.new.items ≡ versions.old.items) }
    ensures rises { Rises stamp_of versions.new.items }
{
    if has_stamp(versions.as_slice(), version.stamp) {
        return Ok(());
    }
    let place = ranked::count_up_to(versions.as_slice(), version.stamp.0);
    versions.insert(place, version)?;
    Ok(())
}

// The same, with a note of its stamp where it is made.
fn make_noted(
    alloc: Global,
    versions: &mut Vec<Version>,
    version: Version,
    stamps: &mut Stamps,
) -> Result<(), AllocError>
    requires { Rises stamp_of versions.old.items }
    ensures ok { OnOk result (versions.new.items ≡ made versions.old.items version) }
    ensures back { without_stamps stamps.new versions.new.items ≡ without_stamps stamps.old versions.old.items }
    ensures rises { Rises stamp_of versions.new.items }
{
    if has_stamp(versions.as_slice(), version.stamp) {
        return Ok(());
    }
    stamps.push(alloc, version.stamp)?;
    make(versions, version)
}

// Makes the versions in order, with a note of the stamps of those that are made.
fn make_all(
    alloc: Global,
    versions: &mut Vec<Version>,
    new: Vec<Version>,
    stamps: &mut Stamps,
) -> Result<(), AllocError>
    requires { Rises stamp_of versions.old.items }
    ensures ok { OnOk result (versions.new.items ≡ fold made versions.old.items new.items) }
    ensures back { without_stamps stamps.new versions.new.items ≡ without_stamps stamps.old versions.old.items }
    ensures rises { Rises stamp_of versions.new.items }
{
    'new: for version in new {
        make_noted(alloc, versions, version, stamps)?;
    }
    Ok(())
}

// Makes the versions in order, and gives the stamps of those that were made. Want of memory leaves
// the versions as they were.
pub(crate) fn make_each(
    alloc: Global,
    versions: &mut Vec<Version>,
    new: Vec<Version>,
) -> Result<Stamps, AllocError>
    requires { Rises stamp_of versions.old.items }
    ensures ok { OnOk result (versions.new.items ≡ fold made versions.old.items new.items) }
    ensures back { IfOk result (λ stamps. without_stamps stamps versions.new.items ≡ versions.old.items) }
    ensures err { OnErr result (versions.new.items ≡ versions.old.items) }
    ensures rises { Rises stamp_of versions.new.items }
{
    let mut stamps = Stamps::new(alloc);
    match make_all(alloc, versions, new, &mut stamps) {
        Ok(()) => Ok(stamps),
        Err(err) => {
            remove_versions(versions, &stamps);
            Err(err)
        }
    }
}

fn is_among(stamps: &Stamps, version: &Version) -> bool
    ensures { result ≡ is_among stamps.now version.now }
{
    stamps.as_slice().iter().any(|s| s.0 == version.stamp.0)
}

// Removes the versions at the stamps. It takes no memory.
pub(crate) fn remove_versions(versions: &mut Vec<Version>, stamps: &Stamps)
    ensures without { versions.new.items ≡ without_stamps stamps.now versions.old.items }
    ensures rises { Rises stamp_of versions.old.items → Rises stamp_of versions.new.items }
{
    versions.retain(|v| !is_among(stamps, v));
}

// The versions that an intent with this last write becomes.
pub(crate) fn settling(
    alloc: Global,
    commit: Option<Stamp>,
    last: &Written,
    waiting: &[Version],
) -> Result<Vec<Version>, AllocError>
    ensures { IfOk result (λ vs. vs.items ≡ settling commit last.now waiting.now) }
{
    let mut versions = copy_versions(alloc, waiting)?;
    if let Some(stamp) = commit {
        let value = last.value.copy(alloc)?;
        versions.insert(0, Version { stamp, value })?;
    }
    Ok(versions)
}

pub(crate) fn copy_versions(alloc: Global, versions: &[Version]) -> Result<Vec<Version>, AllocError>
    ensures { IfOk result (λ vs. vs.items ≡ versions.now) }
{
    versions.to_vec(alloc)
}
