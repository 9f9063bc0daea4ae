//! Tests of MQSC and of rules tables, from text to answer, a file for each crate.
#![tactic(auto)]

#[cfg(test)]
mod fixture;
#[cfg(test)]
mod rules;
#[cfg(test)]
mod rules_text;
#[cfg(test)]
mod sc_apply;
#[cfg(test)]
mod sc_keys;
#[cfg(test)]
mod sc_lex;
#[cfg(test)]
mod sc_parse;
#[cfg(test)]
mod text;
