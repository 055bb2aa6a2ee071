//! The descriptors so far.
ghost use Rattle.std.specs.Prelude.{◌≡◌, [], ◌∷◌, ◌++◌, false, length, take, OnOk, OnErr, slice_get};
ghost use Rattle.std.specs.Option.{option_copied};
ghost use Rattle.ds_desc.specs.Descs.{back_from, containing, greatest_id, overlap};
ghost use Rattle.ds_lineage.specs.Last.{IsLastAt, Begins, Follows, Joins};
ghost use Rattle.ds_lineage.specs.Nodes.{ComesAfter, ContainsAt, IsLastBefore};

use crate::node::{After, Node, copy_nodes};
use ds_base::{Copies, Key};
use ds_desc::RangeDesc;
use std::alloc::{AllocError, Global};
use std::marker::Model;

/// All descriptors so far, in the order in which they were made. A contract sees that list.
#[derive(Drop)]
pub struct Lineage {
    nodes: Vec<Node>,
    greatest: u32,
}

impl Model for Lineage {
    ghost use Rattle.std.specs.Prelude.{List};
    ghost use Rattle.ds_desc.specs.declared.desc.RangeDesc.{RangeDesc};

    ghost Value = { List RangeDesc };

    ghost use Rattle.ds_lineage.specs.Nodes.{descs, IsLineage};

    ghost view = { λ l. descs l.nodes.items };

    ghost invariant = { λ l. IsLineage l.nodes.items l.greatest };
}

impl Lineage {
    /// No descriptors. It takes no memory.
    pub fn new(alloc: Global) -> Lineage
        ensures { result ≡ [] }
    {
        Lineage {
            nodes: Vec::new(alloc),
            greatest: 0,
        }
    }

    /// How many descriptors there are; the next one will stand at this place.
    pub fn len(&self) -> usize
        ensures { result ≡ length self.now }
    {
        self.nodes.len()
    }

    /// The descriptor at a place, counted from 0; `None` exactly where the place is at least the
    /// length.
    pub fn get(&self, i: usize) -> Option<&RangeDesc>
        ensures { option_copied result ≡ slice_get self.now i }
    {
        match self.nodes.get(i) {
            Some(node) => Some(&node.desc),
            None => None,
        }
    }

    /// The greatest id so far, 0 where there are no descriptors.
    pub fn greatest_id(&self) -> u32
        ensures { result ≡ greatest_id self.now }
    {
        self.greatest
    }

    /// Adds a descriptor whose keys are in none so far. Want of memory changes nothing.
    pub fn begin(&mut self, _alloc: Global, desc: RangeDesc) -> Result<(), AllocError>
        requires { Begins self.old desc.span }
        ensures ok { OnOk result (self.new ≡ self.old ++ desc ∷ []) }
        ensures err { OnErr result (self.new ≡ self.old) }
    {
        self.add(desc, After::Nothing)
    }

    /// Adds a descriptor after one: at each of its keys the one at the place `before` is the last
    /// so far. So it is after a split, of either part, and after a move. Want of memory changes
    /// nothing.
    pub fn follow(
        &mut self,
        _alloc: Global,
        desc: RangeDesc,
        before: usize,
    ) -> Result<(), AllocError>
        requires { Follows self.old desc.span before }
        ensures ok { OnOk result (self.new ≡ self.old ++ desc ∷ []) }
        ensures err { OnErr result (self.new ≡ self.old) }
    {
        self.add(desc, After::One(before))
    }

    /// Adds a descriptor after two: at each of its keys below the start of the one at the place
    /// `right` the one at `left` is the last so far, and from there on that at `right`. So it is
    /// after a merge. Want of memory changes nothing.
    pub fn join(
        &mut self,
        _alloc: Global,
        desc: RangeDesc,
        left: usize,
        right: usize,
    ) -> Result<(), AllocError>
        requires { Joins self.old desc.span left right }
        ensures ok { OnOk result (self.new ≡ self.old ++ desc ∷ []) }
        ensures err { OnErr result (self.new ≡ self.old) }
    {
        self.add(desc, After::Two { left, right })
    }

    /// Adds two descriptors that don't overlap, both after one: at each of their keys the one at the
    /// place `before` is the last so far. So it is after a split. Want of memory changes nothing.
    pub fn part(
        &mut self,
        _alloc: Global,
        left: RangeDesc,
        right: RangeDesc,
        before: usize,
    ) -> Result<(), AllocError>
        requires left { Follows self.old left.span before }
        requires right { Follows self.old right.span before }
        requires apart { overlap left.span right.span ≡ false }
        ensures ok { OnOk result (self.new ≡ self.old ++ left ∷ right ∷ []) }
        ensures err { OnErr result (self.new ≡ self.old) }
    {
        self.nodes.reserve(2)?;
        let with_left = self.greatest.max(left.id);
        let with_both = with_left.max(right.id);
        self.nodes.push_reserved(Node {
            desc: left,
            after: After::One(before),
        });
        self.nodes.push_reserved(Node {
            desc: right,
            after: After::One(before),
        });
        self.greatest = with_both;
        Ok(())
    }

    /// Keeps the first descriptors alone, so many, of which the greatest id is this one: so those that
    /// were added last are taken back.
    pub fn take_back(&mut self, count: usize, top: u32)
        requires { top ≡ greatest_id (take count self.old) }
        ensures { self.new ≡ take count self.old }
    {
        self.nodes.truncate(count);
        self.greatest = top;
    }

    /// Of the descriptors that contain the key, the one that stands `b` before the last, which is
    /// the one at the place `i`; `None` where fewer contain it. It takes at most `b` steps and no
    /// memory.
    pub fn back(&self, i: usize, key: &Key, b: u32) -> Option<&RangeDesc>
        requires { IsLastAt self.now key.now i }
        ensures { option_copied result ≡ back_from b (containing key.now self.now) }
    {
        let mut at = i;
        for step in 0..b {
            match self.before(at, key) {
                Some(place) => at = place,
                None => return None,
            }
        }
        self.get(at)
    }

    /// The place of the last descriptor before this one that contains the key, as this one does.
    fn before(&self, at: usize, key: &Key) -> Option<usize>
        requires { ContainsAt self.now key.now at }
        ensures { IsLastBefore self.now key.now at result }
    {
        match self.nodes[at].after {
            After::Nothing => None,
            After::One(place) => Some(place),
            After::Two { left, right } => {
                if *key < self.nodes[right].desc.span.start {
                    Some(left)
                } else {
                    Some(right)
                }
            }
        }
    }

    /// Adds a descriptor with what it comes after.
    fn add(&mut self, desc: RangeDesc, after: After) -> Result<(), AllocError>
        requires { ComesAfter self.old desc.span after }
        ensures ok { OnOk result (self.new ≡ self.old ++ desc ∷ []) }
        ensures err { OnErr result (self.new ≡ self.old) }
    {
        let greatest = self.greatest.max(desc.id);
        self.nodes.push(Node { desc, after })?;
        self.greatest = greatest;
        Ok(())
    }
}

impl Copies for Lineage {
    fn copy(&self, alloc: Global) -> Result<Lineage, AllocError> {
        Ok(Lineage {
            nodes: copy_nodes(alloc, self.nodes.as_slice())?,
            greatest: self.greatest,
        })
    }
}
