//! The laws of chains: what holds each key once is a chain, in whatever order it came.
ghost use Rattle.ds_cover.specs.Arrivals.{ChainsOnce, CoveredChains, JoinsTheSame, OnceChains, OrdersTheSame};

/// Spans that hold each key of a span once, and no other key, are a chain when sorted by start.
pub fn once_chains()
    ensures { OnceChains }
{}

/// A chain holds each key of its span once and no other, and its starts ascend.
pub fn chains_once()
    ensures { ChainsOnce }
{}

/// Items that start at different keys come in one order, whatever the order of arrival.
pub fn orders_the_same()
    ensures { OrdersTheSame }
{}

/// The bodies of a chain of items join to the same, whatever the order of arrival.
pub fn joins_the_same()
    ensures { JoinsTheSame }
{}

/// Where blocks of cuts cover the items of a part, the cuts of each item are a chain over its span.
pub fn covered_chains()
    ensures { CoveredChains }
{}
