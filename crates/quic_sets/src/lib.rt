//! Finite sets of numbers, as packet numbers and offsets have them, kept as their maximal runs: in
//! a vector ([`RangeSet`], [`ArrayRangeSet`]), in an ordered map by the offset behind each run
//! ([`OffsetSet`], and the steps of [`spans`]), or as the number behind a run from 0 on, with such
//! a map for the others ([`PrefixSet`]). Parts of a stream are found in such a map too
//! ([`by_end`]).
#![tactic(auto)]

pub mod by_end;
mod index_set;
pub mod laws;
mod offset_set;
mod prefix_set;
mod range_set;
pub mod spans;

pub use index_set::IndexSet;
pub use offset_set::OffsetSet;
pub use prefix_set::PrefixSet;
pub use range_set::{ArrayRangeSet, EltIter, Iter, RangeSet, Replace};
