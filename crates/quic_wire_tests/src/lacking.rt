//! Calls that take memory. Each test passes with memory, and where one of its first four
//! allocations fails: the call that answers so is then made once more.
mod close;
mod coding;
mod frame;
mod packet;
mod range_set;
mod sealing;
mod transport_parameters;
