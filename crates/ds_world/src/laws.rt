//! The laws as theorems.
ghost use Rattle.ds_cell.specs.declared.entry.Version.{Version};
ghost use Rattle.std.specs.Prelude.{ℕ, List};
ghost use Rattle.ds_cell.specs.Store.{Asker};
ghost use Rattle.ds_rule.specs.Close.{closed, with_begin};
ghost use Rattle.ds_rule.specs.Deliver.{deliver_world};
ghost use Rattle.ds_rule.specs.Moves.{abort_last, moved};
ghost use Rattle.ds_rule.specs.Shifts.{split_at, merge_at, lease_to, move_to, stale_by, foreign_at};
ghost use Rattle.ds_world.specs.Laws.{KeepsAll, LeavesContents, LeavesDescs, LeavesRest, AddsDescs, ArmsAlone, GoesBeside, GoesBesideApart, GoesBesideWrites, HasReplicas, IsNoEvent, WritesAt, WritesNowhere};

use ds_base::Key;
use ds_desc::Nodes;
use ds_kind::Piece;
use ds_rule::Event;

/// Does nothing: its clause tells that an event moves a range to replicas alone.
fn replicas_of(event: &Event)
    ensures { HasReplicas event.now }
{
    match event {
        Event::Move { nodes, .. } => {
            nodes.len();
        }
        Event::Write { .. }
        | Event::Split { .. }
        | Event::Merge { .. }
        | Event::Lease { .. }
        | Event::Stale { .. }
        | Event::Abort
        | Event::Arrive { .. }
        | Event::LoseRequest { .. }
        | Event::LoseReply { .. }
        | Event::Copy { .. }
        | Event::Restart { .. } => {}
    }
}

/// Does nothing: its clause is the law of all events. Each keeps what every world keeps, an abort
/// and the arrival of a late copy too.
pub fn event_laws(event: &Event)
    ensures { KeepsAll (λ w. moved w event.now) }
{
    replicas_of(event);
}

/// Does nothing: its clauses are the laws of what changes the records alone, the begin of a
/// transaction and the abort of the open one. Both keep what every world keeps.
pub fn record_laws()
    ensures begin { (t : Asker) → KeepsAll (with_begin t) }
    ensures abort { KeepsAll abort_last }
{}

/// Does nothing: its clauses are the laws of the end of the open transaction. It keeps what every world
/// keeps, and makes no descriptor.
pub fn close_laws()
    ensures keeps { KeepsAll closed }
    ensures descs { LeavesDescs closed }
{}

/// Does nothing: its clauses are the laws of two events beside each other, of which one is a lease of
/// the key's range to the node. A lease, a split or a move of another range, and an old descriptor of
/// any, lead to the same world before it and after it.
pub fn beside_laws(key: &Key, node: u8)
    ensures leases { (q : List ℕ) (n : ℕ) → GoesBesideApart key.now q (lease_to key.now node) (lease_to q n) }
    ensures splits { (q : List ℕ) → GoesBesideApart key.now q (lease_to key.now node) (split_at q) }
    ensures moves { (q ns : List ℕ) → GoesBesideApart key.now q (lease_to key.now node) (move_to q ns) }
    ensures stale { (q : List ℕ) (back : ℕ) → GoesBeside (lease_to key.now node) (stale_by q back) }
{
    let _ = key;
    let _ = node;
}

/// Does nothing: its clauses are the laws of a split at the key. It keeps what every world keeps and
/// what every key holds, only adds descriptors, and leaves all else but the ranges. A foreign write at
/// any key leads to the same world before it and after it.
pub fn split_laws(key: &Key)
    ensures keeps { KeepsAll (split_at key.now) }
    ensures contents { LeavesContents (split_at key.now) }
    ensures rest { LeavesRest (split_at key.now) }
    ensures descs { AddsDescs (split_at key.now) }
    ensures beside { GoesBesideWrites (split_at key.now) }
{
    let _ = key;
}

/// Does nothing: its clauses are the laws of a merge at the key, as those of [`split_laws`].
pub fn merge_laws(key: &Key)
    ensures keeps { KeepsAll (merge_at key.now) }
    ensures contents { LeavesContents (merge_at key.now) }
    ensures rest { LeavesRest (merge_at key.now) }
    ensures descs { AddsDescs (merge_at key.now) }
    ensures beside { GoesBesideWrites (merge_at key.now) }
{
    let _ = key;
}

/// Does nothing: its clauses are the laws of a lease of the key's range to the node, as those of
/// [`split_laws`]. No descriptor is made.
pub fn lease_laws(key: &Key, node: u8)
    ensures keeps { KeepsAll (lease_to key.now node) }
    ensures contents { LeavesContents (lease_to key.now node) }
    ensures descs { LeavesDescs (lease_to key.now node) }
    ensures rest { LeavesRest (lease_to key.now node) }
    ensures beside { GoesBesideWrites (lease_to key.now node) }
{
    let _ = key;
    let _ = node;
}

/// Does nothing: its clauses are the laws of a move of the key's range to the nodes, as those of
/// [`split_laws`].
pub fn move_laws(key: &Key, nodes: &Nodes)
    ensures keeps { KeepsAll (move_to key.now nodes.now) }
    ensures contents { LeavesContents (move_to key.now nodes.now) }
    ensures rest { LeavesRest (move_to key.now nodes.now) }
    ensures descs { AddsDescs (move_to key.now nodes.now) }
    ensures beside { GoesBesideWrites (move_to key.now nodes.now) }
{
    let _ = key;
    nodes.len();
}

/// Does nothing: its clauses are the laws of an old descriptor that stands so many places before the
/// last. It leaves all but the rows that wait to be looked up.
pub fn stale_laws(key: &Key, back: u32)
    ensures keeps { KeepsAll (stale_by key.now back) }
    ensures rest { ArmsAlone (stale_by key.now back) }
    ensures beside { GoesBesideWrites (stale_by key.now back) }
{
    let _ = key;
    let _ = back;
}

/// Does nothing: its clauses are the laws of a foreign write. It keeps what every world keeps, and
/// leaves all but the ranges. What all ranges hold is changed at its key alone, as one store would
/// change it; at the bound or above it nothing is.
pub fn foreign_laws(key: &Key)
    ensures keeps { (v : Version) → KeepsAll (foreign_at key.now v) }
    ensures contents { WritesAt key.now }
    ensures nowhere { WritesNowhere key.now }
    ensures descs { (v : Version) → LeavesDescs (foreign_at key.now v) }
    ensures rest { (v : Version) → LeavesRest (foreign_at key.now v) }
{
    let _ = key;
}

/// Does nothing: its clauses are the laws of a delivery, whatever the piece asks and is answered. It
/// keeps what every world keeps, and is no event.
pub fn deliver_laws(node: u8, piece: &Piece)
    ensures keeps { KeepsAll (λ w. deliver_world w node piece.now) }
    ensures beside { IsNoEvent (λ w. deliver_world w node piece.now) }
{
    let _ = node;
    let _ = piece;
}
