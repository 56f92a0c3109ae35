//! Tests of messages and of statistics: each call made, also where an allocation fails, and what is
//! printed.
#![tactic(auto)]

#[cfg(test)]
mod messages;
#[cfg(test)]
mod stats;
