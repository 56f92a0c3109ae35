//! Tests of scripts that can't be read on, or whose answers can't be printed, and of when answers
//! are printed: through the public items of `quic_run_core`. What a script can say is a case of
//! `quic_run`.
#![tactic(auto)]

#[cfg(test)]
mod scripts;
