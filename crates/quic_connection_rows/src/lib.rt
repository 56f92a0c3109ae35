//! Rows of one endpoint, each worked out by hand by the rule that it names and computed on the
//! definitions of the reference machine, which every call of an endpoint follows; and that the keys
//! of scripts are those of the worked run. No function does anything: its contract is the law.
#![tactic(auto)]

pub mod asking;
pub mod closing;
pub mod keys;
pub mod made;
pub mod messages;
pub mod refused;
pub mod stopping;
