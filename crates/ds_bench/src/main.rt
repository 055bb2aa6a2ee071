//! Does a given amount of work with a part of the sender, and prints one number that depends on
//! all of it, so that `tests/measure.py` can time it.
//!
//! `ds_bench cache SIZE CALLS` makes a cache of SIZE places, fills it, and makes CALLS calls of it,
//! each at another key; `ds_bench walk SIZE CALLS` does so at sixteen neighbouring keys in turn.
#![tactic(auto)]

mod cache;
mod numbers;

use crate::cache::cache_calls;
use std::alloc::{AllocError, Global};
use std::rt::Env;
use std::{env, io};

fn main(rt: HostRuntime) -> io::Result<()> {
    let words = arguments(&rt)?;
    match work(rt.alloc(), &words)? {
        Some(sum) => println!(rt; "{sum}")?,
        None => println!(rt; "usage: ds_bench cache|walk SIZE CALLS")?,
    }
    Ok(())
}

fn arguments<R: Env + AllocGlobal>(rt: &R) -> io::Result<Vec<String>> {
    let mut words = Vec::new(rt.alloc());
    for word in env::args(rt)?.skip(1) {
        words.push(word)?;
    }
    Ok(words)
}

/// What the work that the words name comes to; `None` where they name none.
fn work(alloc: Global, words: &[String]) -> Result<Option<u64>, AllocError> {
    let [name, size, calls] = words else {
        return Ok(None);
    };
    let (Ok(size), Ok(calls)) = (size.parse::<u32>(), calls.parse::<u32>()) else {
        return Ok(None);
    };
    match name.as_str() {
        "cache" => Ok(Some(cache_calls(alloc, size, calls, 1)?)),
        "walk" => Ok(Some(cache_calls(alloc, size, calls, 16)?)),
        _ => Ok(None),
    }
}
