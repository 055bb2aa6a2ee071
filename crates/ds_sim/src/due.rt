//! The events of a block, each made when it is due.
ghost use Rattle.std.specs.Prelude.{◌≡◌, ◌+◌, ◌<◌, ◌^◌, true, false, length, OnOk, OnErr};
ghost use Rattle.ds_rule.specs.Blocks.{all_moved};
ghost use Rattle.ds_rule.specs.Clauses.{Stays};
ghost use Rattle.ds_rule.specs.Pieces.{Each};
ghost use Rattle.ds_sim.specs.Made.{CanBeMade};
ghost use Rattle.ds_sim.specs.State.{MadeSome, state_of};
ghost use Rattle.ds_sim.specs.UnderWay.{is_due};

use crate::event::make;
use crate::sim::Sim;
use ds_rule::Timed;
use std::alloc::{AllocError, Global};

impl Sim {
    /// Makes the next event of the block, which is due. Want of memory makes none.
    fn make_next(&mut self, alloc: Global) -> Result<(), AllocError>
        requires { is_due (self.old).block ≡ true }
        ensures stays { Stays (state_of self.old) (state_of self.new) }
        ensures less { OnOk result (length (self.new).block.coming < length (self.old).block.coming) }
    {
        let event = self.block.next();
        make(
            alloc,
            &mut self.ranges,
            &mut self.armed,
            &mut self.records,
            event,
        )?;
        self.block.pass();
        Ok(())
    }

    /// Makes the events that are due before the next step. After want of memory some may be made.
    pub(crate) fn make_due(&mut self, alloc: Global) -> Result<(), AllocError>
        ensures stays { Stays (state_of self.old) (state_of self.new) }
        ensures done { OnOk result (is_due (self.new).block ≡ false) }
    {
        'each: while self.block.is_due() {
            self.make_next(alloc)?;
        }
        Ok(())
    }

    /// Makes these events, one after another. After want of memory the first ones may be made.
    pub(crate) fn make_each(&mut self, alloc: Global, events: &[Timed]) -> Result<(), AllocError>
        requires made { Each (λ t. CanBeMade t.event) events.now }
        requires few { (state_of self.old).world.count + length (state_of self.old).block + length events.now < 2 ^ 64 }
        ensures ok { OnOk result (state_of self.new ≡ record (state_of self.old) { world = all_moved (state_of self.old).world events.now }) }
        ensures err { OnErr result (MadeSome events.now (state_of self.old) (state_of self.new)) }
    {
        'each: for timed in events {
            self.event(alloc, &timed.event)?;
        }
        Ok(())
    }
}
