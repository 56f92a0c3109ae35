//! One endpoint for programs in other languages, as a static library: what stands behind the
//! functions of `native/fennelhammer.h`, by `native/fennelhammer.c`, which hands each call on.
//!
//! An endpoint is on the heap, and the program that calls has its pointer. Here that is a
//! [`Held`](held::Held), which owns the endpoint: so a pointer is used in three small functions
//! alone, and what an endpoint comes to by a call stands in the contract of the call.
#![tactic(auto)]

mod answers;
mod datagrams;
mod events;
mod figures;
mod held;
mod lend;
mod life;
mod loose;
mod messages;
mod settings;
mod slot;
mod streams;
