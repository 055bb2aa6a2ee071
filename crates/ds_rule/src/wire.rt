//! What a sender speaks through.
ghost use Rattle.std.specs.Prelude.{◌≡◌, ◌<◌, ℕ, List, Result, true};
ghost use Rattle.std.specs.List.{list_all};
ghost use Rattle.std.specs.declared.alloc.AllocError.{AllocError};
ghost use Rattle.ds_base.specs.declared.value.Dir.{Dir};
ghost use Rattle.ds_desc.specs.declared.meta.Looked.{Looked};
ghost use Rattle.ds_kind.specs.Asks.{has_proper_span};
ghost use Rattle.ds_kind.specs.Parts.{requests_of};

use crate::answer::Answer;
use ds_desc::Meta;
use ds_kind::Piece;
use std::alloc::{AllocError, Global};

/// A cluster as a sender meets it: it answers lookups and pieces, and may move meanwhile.
pub trait Wire: Meta {
    ghost use Rattle.ds_rule.specs.Clauses.{Stands, Looks, Sends, next_pick, later_picks};

    // the world and all that happened so far, the floor of foreign writes, the counts of refusals
    // and losses, and the picks still to come
    ghost state: { Self → Stands };

    /// Sends the piece to the node. The world may move first, with foreign writes above the floor
    /// alone; then one step stands in the journal with what was asked and answered, by the rule
    /// of delivery. `Refused` and `Lost` come only where their counts rose. After want of memory
    /// the piece was not delivered and no step stands. Each of its requests must have a proper
    /// span: a point whose key has room for one more byte, or a start below its end.
    fn send(&mut self, alloc: Global, node: u8, piece: &Piece) -> Result<Answer, AllocError>
        requires { list_all has_proper_span (requests_of piece.now.items) ≡ true }
        ensures { Sends (state self.old) (state self.new) node piece.now result };

    /// Which of so many waiting pieces is sent next: the next pick by their number, and the first
    /// one where no picks are left. Nothing else changes.
    fn pick(&mut self, waiting: u32) -> u32
        requires { 0 < waiting }
        ensures picked { result ≡ next_pick (state self.old).ahead waiting }
        ensures rest { state self.new ≡ record (state self.old) { ahead = later_picks (state self.old).ahead } };

    // a lookup makes moves and one step too, and its losses are counted with those of sends
    ghost look_steps: { (a b : Self) (k : List ℕ) (d : Dir) (r : Result Looked AllocError) → Self.looked a b k d r → Looks (state a) (state b) k d r };

    ghost same_losses: { (a : Self) → Self.lost a ≡ (state a).lost };
}
