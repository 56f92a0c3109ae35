//! Tests of endpoints of `quic_connection`, one or two, through its public items: calls where
//! memory lacks, runs, what is counted of frames, the reasons of errors, and how one is printed.
//! What a script or a line can say is a case of `quic_run` or of `quic_peer`, and what is a value
//! of a definition a law of `quic_connection_rows` or of `quic_worked`.
#![tactic(auto)]

#[cfg(test)]
mod counts;
#[cfg(test)]
mod ends;
#[cfg(test)]
mod lacking;
#[cfg(test)]
mod made;
#[cfg(test)]
mod reasons;
#[cfg(test)]
mod runs;
