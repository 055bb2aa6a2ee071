//! Replays a script of batches against a simulated cluster, and prints every step and answer.
#![tactic(auto)]

mod answer;
mod status;
#[cfg(test)]
mod tests;
mod texts;

use crate::answer::run;
use crate::status::exit_of;
use ds_io::{ReadSource, WriteSink};
use std::process::ExitCode;
use std::rt::Env;
use std::{env, io};

fn main(rt: HostRuntime) -> ExitCode {
    let mut script = ReadSource::new(rt.reader());
    let mut out = WriteSink::new(io::writer(&rt));
    // Arguments that are no text are no command.
    let words = match arguments(&rt) {
        Ok(words) => words,
        Err(_) => Vec::new(rt.alloc()),
    };
    let status = run(rt.alloc(), &words, &mut script, &mut out);
    ExitCode::from(exit_of(status))
}

fn arguments<R: Env + AllocGlobal>(rt: &R) -> io::Result<Vec<String>> {
    let mut words = Vec::new(rt.alloc());
    for word in env::args(rt)?.skip(1) {
        words.push(word)?;
    }
    Ok(words)
}
