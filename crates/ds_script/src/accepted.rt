//! Scripts, and how they are run.
ghost use Rattle.std.specs.Prelude.{◌≡◌, ◌≤◌, true};
ghost use Rattle.ds_script.specs.Rules.{keeps_rules};

use crate::line::Lines;

/// The lines of a script that was accepted, without the blank ones.
///
/// By this type there are at most 20,000, their numbers rise, everything on them is within its
/// limits, and each may stand where it does.
#[derive(Drop)]
pub struct Script {
    pub lines: Lines,
    pub ghost kept: { keeps_rules lines ≡ true },
}

/// How a script is run.
#[derive(Clone, Copy, Debug, PartialEq, Eq)]
pub struct Settings {
    /// How many ranges the sender remembers, at least 1.
    pub cache: u32,
    /// How many refusals and losses end a batch, at least 1.
    pub budget: u32,
    pub ghost some_cache: { 1 ≤ cache },
    pub ghost some_budget: { 1 ≤ budget },
}
