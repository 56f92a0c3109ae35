//! Tests of what an application holds of all streams: each call made, also where an allocation
//! fails.
#![tactic(auto)]

#[cfg(test)]
mod ends;
#[cfg(test)]
mod reads;
#[cfg(test)]
mod writes;
