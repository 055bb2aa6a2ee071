//! How many refusals and losses a batch met.
ghost use Rattle.std.specs.Prelude.{◌≡◌, ◌+◌, ◌<◌, ◌≤◌, false};
ghost use Rattle.ds_retry.specs.Counted.{first_counts, one_refused, one_lost, is_spent};

use std::marker::Model;

/// The refusals and losses of one batch so far, and how many it may meet together.
#[derive(Drop)]
pub struct Attempts {
    /// Sends that were refused.
    pub refused: u32,
    /// Lookups and sends that were lost.
    pub lost: u32,
    /// Lost sends of which nobody knows whether they acted. They are among the lost ones.
    pub at_risk: u32,
    /// The number of refusals and losses at which the sender gives up.
    pub budget: u32,
}

impl Model for Attempts {
    ghost use Rattle.std.specs.Prelude.{◌≤◌};
    ghost use Rattle.ds_retry.specs.Counted.{Counts};

    ghost Value = { Counts };

    ghost view = { λ a. record { refused = a.refused; lost = a.lost; at_risk = a.at_risk; budget = a.budget } };

    ghost invariant = { λ a. a.at_risk ≤ a.lost };
}

impl Attempts {
    /// None yet.
    pub fn new(budget: u32) -> Attempts
        ensures { result ≡ first_counts budget }
    {
        Attempts {
            refused: 0,
            lost: 0,
            at_risk: 0,
            budget,
        }
    }

    fn is_spent(&self) -> bool
        requires { (self.now).refused + (self.now).lost ≤ (self.now).budget }
        ensures { result ≡ is_spent self.now }
    {
        self.refused + self.lost == self.budget
    }

    /// One more refusal. True exactly where the budget is now used up.
    pub(crate) fn refuse(&mut self) -> bool
        requires { (self.old).refused + (self.old).lost < (self.old).budget }
        ensures counts { self.new ≡ one_refused self.old }
        ensures spent { result ≡ is_spent self.new }
    {
        self.refused += 1;
        self.is_spent()
    }

    /// Counts a loss after which no node is to be tried again, as that of a lookup, at risk where
    /// nobody knows whether what was lost acted; a lookup never does. True exactly where the budget
    /// is now used up. The budget must not be used up yet.
    pub fn lose(&mut self, risky: bool) -> bool
        requires { (self.old).refused + (self.old).lost < (self.old).budget }
        ensures counts { self.new ≡ one_lost risky self.old }
        ensures spent { result ≡ is_spent self.new }
        ensures goes_on { result ≡ false → (self.new).refused + (self.new).lost < (self.new).budget }
    {
        self.lost += 1;
        self.at_risk += risky as u32;
        self.is_spent()
    }
}
