//! Tests of the public calls of the crates that read and print texts: one file for each.
//!
//! A table of cases is one text, a case on each line: what is expected, a space, and what is read.
#![tactic(auto)]

#[cfg(test)]
mod cases;
#[cfg(test)]
mod fields_tests;
#[cfg(test)]
mod kinds_tests;
#[cfg(test)]
mod legal_tests;
#[cfg(test)]
mod limit_tests;
#[cfg(test)]
mod line_tests;
#[cfg(test)]
mod log_tests;
#[cfg(test)]
mod refusal_tests;
#[cfg(test)]
mod script_tests;
