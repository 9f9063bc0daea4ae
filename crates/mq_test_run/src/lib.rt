//! Tests of what is told of texts that aren't run.
#![tactic(auto)]

#[cfg(test)]
mod hints;
