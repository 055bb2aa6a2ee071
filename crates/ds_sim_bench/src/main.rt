//! Does a given amount of work with the simulated cluster alone, and prints one number that depends on
//! all of it, so that `tests/measure.py` can time it.
//!
//! `ds_sim_bench RANGES CALLS` begins a cluster of RANGES ranges and makes CALLS events and lookups of it.
#![tactic(auto)]

mod cluster;
mod numbers;

use crate::cluster::cluster_calls;
use std::alloc::{AllocError, Global};
use std::rt::Env;
use std::{env, io};

fn main(rt: HostRuntime) -> io::Result<()> {
    let words = arguments(&rt)?;
    match work(rt.alloc(), &words)? {
        Some(sum) => println!(rt; "{sum}")?,
        None => println!(rt; "usage: ds_sim_bench RANGES CALLS")?,
    }
    Ok(())
}

fn arguments<R: Env + AllocGlobal>(rt: &R) -> io::Result<Vec<String>> {
    let mut words = Vec::new(rt.alloc());
    for word in env::args(rt)?.skip(1) {
        words.push(word)?;
    }
    Ok(words)
}

/// What the work that the words name comes to; `None` where they name none.
fn work(alloc: Global, words: &[String]) -> Result<Option<u64>, AllocError> {
    let [ranges, calls] = words else {
        return Ok(None);
    };
    let (Ok(ranges), Ok(calls)) = (ranges.parse::<u32>(), calls.parse::<u32>()) else {
        return Ok(None);
    };
    Ok(Some(cluster_calls(alloc, ranges, calls)?))
}
