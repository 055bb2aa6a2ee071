//! Lookups, which old descriptors that are armed answer first.
ghost use Rattle.std.specs.Prelude.{◌≡◌, ◌<◌, ◌++◌, ◌∷◌, [], Some, position, length, IfOk, OnOk, OnErr};
ghost use Rattle.std.specs.List.{remove, slice_get};
ghost use Rattle.ds_desc.specs.declared.desc.RangeDesc.{RangeDesc};
ghost use Rattle.ds_desc.specs.declared.meta.Looked.TheVariants as Looked;
ghost use Rattle.ds_rule.specs.declared.journal.JournalStep.TheVariants.{Look};
ghost use Rattle.ds_rule.specs.World.{answers_lookup, armed_row, first_node};

use ds_base::{Copies, Dir, Key};
use ds_desc::{Info, Infos, Lease, Nodes, RangeDesc};
use ds_rule::JournalStep;
use std::alloc::{AllocError, Global};

fn first_of(nodes: &Nodes) -> u8
    ensures { result ≡ first_node nodes.now }
{
    match nodes.get(0) {
        Some(node) => *node,
        None => 0,
    }
}

/// The row of an armed descriptor, with a lease of its own making.
fn armed_row(alloc: Global, desc: &RangeDesc) -> Result<Info, AllocError>
    ensures { IfOk result (λ i. i ≡ armed_row desc.now) }
{
    let lease = Lease {
        node: first_of(&desc.nodes),
        number: 0,
    };
    Ok(Info {
        desc: desc.copy(alloc)?,
        lease,
    })
}

/// The one row of an armed descriptor.
pub(crate) fn armed_rows(alloc: Global, desc: &RangeDesc) -> Result<Infos, AllocError>
    ensures { IfOk result (λ is. is ≡ armed_row desc.now ∷ []) }
{
    let mut rows = Infos::new(alloc);
    let row = armed_row(alloc, desc)?;
    rows.push(alloc, row)?;
    Ok(rows)
}

/// Where the first armed descriptor stands that contains the key.
pub(crate) fn armed_at(armed: &[RangeDesc], key: &Key, dir: Dir) -> Option<usize>
    ensures { result ≡ position (answers_lookup dir key.now) armed.now }
{
    armed.iter().position(|desc| desc.contains(key, dir))
}

/// The descriptor at the place.
pub(crate) fn desc_at(armed: &[RangeDesc], at: usize) -> &RangeDesc
    requires { at < length armed.now }
    ensures { slice_get armed.now at ≡ Some result.now }
{
    &armed[at]
}

/// Takes the descriptor at the place away.
pub(crate) fn take_away(armed: &mut Vec<RangeDesc>, at: usize)
    requires { at < length (armed.old).items }
    ensures { (armed.new).items ≡ remove (armed.old).items at }
{
    let _ = armed.remove(at);
}

fn look_step(alloc: Global, key: &Key, dir: Dir, infos: &Infos) -> Result<JournalStep, AllocError>
    ensures { IfOk result (λ s. s ≡ Look key.now dir (Looked.Rows infos.now)) }
{
    Ok(JournalStep::Look {
        key: key.copy(alloc)?,
        dir,
        looked: ds_desc::Looked::Rows(infos.copy(alloc)?),
    })
}

/// Notes the lookup with these rows. Want of memory leaves the steps as they were.
pub(crate) fn note_look(
    alloc: Global,
    key: &Key,
    dir: Dir,
    infos: &Infos,
    steps: &mut Vec<JournalStep>,
) -> Result<(), AllocError>
    ensures ok { OnOk result ((steps.new).items ≡ (steps.old).items ++ Look key.now dir (Looked.Rows infos.now) ∷ []) }
    ensures err { OnErr result ((steps.new).items ≡ (steps.old).items) }
{
    let step = look_step(alloc, key, dir, infos)?;
    steps.push(step)?;
    Ok(())
}
