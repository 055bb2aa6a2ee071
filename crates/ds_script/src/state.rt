//! What the lines of a script so far leave behind for the rules over the later ones.
ghost use Rattle.std.specs.Prelude.{◌≡◌, []};
ghost use Rattle.ds_fields.specs.Fault.{Gives};

use ds_base::{Key, Stamp};
use ds_fields::{FaultKind, LineFault};
use std::alloc::Global;
use std::collections::BTreeMap;
use std::marker::Model;

/// A transaction that began and wasn't closed yet.
#[derive(Drop)]
pub struct OpenTxn {
    pub stamp: Stamp,
    /// The key that was named at its begin.
    pub anchor: Key,
    /// The number of the line at which it began.
    pub line: u32,
}

/// A step of the block of a line.
#[derive(Clone, Copy, Debug, PartialEq, Eq)]
pub struct Step {
    /// The number of the line.
    pub line: u32,
    /// The step, counted from 1.
    pub at: u32,
}

/// Which step each number of a copy belongs to. A contract sees the list, by rising number.
#[derive(Drop)]
pub struct CopySteps {
    steps: BTreeMap<u32, Step>,
}

impl Model for CopySteps {
    ghost use Rattle.std.specs.Prelude.{ℕ, List};
    ghost use Rattle.ds_script.specs.declared.state.Step.{Step};

    ghost Value = { List (ℕ × Step) };

    ghost view = { λ c. c.steps.entries };
}

/// What is known of a script after some of its lines.
#[derive(Drop)]
pub struct State {
    /// How many nodes the cluster has, once its line was read.
    pub nodes: Option<u8>,
    pub txn: Option<OpenTxn>,
    pub copies: CopySteps,
}

impl CopySteps {
    ghost use Rattle.ds_script.specs.Rules.{claim};

    /// No number belongs to a step yet.
    pub fn new(alloc: Global) -> CopySteps
        ensures { result ≡ [] }
    {
        CopySteps {
            steps: BTreeMap::new(alloc),
        }
    }

    /// The number belongs to the step; `Bad(Order)` exactly where it belongs to another one.
    pub fn claim(&mut self, copy: u32, step: Step) -> Result<(), LineFault>
        ensures { Gives (λ _. self.new) result (claim copy step self.old) }
    {
        match self.steps.insert(copy, step)? {
            Some(other) if other.line != step.line || other.at != step.at => {
                Err(LineFault::Bad(FaultKind::Order))
            }
            _ => Ok(()),
        }
    }
}

impl State {
    ghost use Rattle.ds_script.specs.Rules.{start, top};

    /// Before the first line.
    pub fn new(alloc: Global) -> State
        ensures { result ≡ start }
    {
        State {
            nodes: None,
            txn: None,
            copies: CopySteps::new(alloc),
        }
    }

    /// How many nodes a line may name: those of the cluster, and 64 before it is known.
    pub fn top(&self) -> u8
        ensures { result ≡ top self.now.nodes }
    {
        match self.nodes {
            Some(nodes) => nodes,
            None => 64,
        }
    }
}
