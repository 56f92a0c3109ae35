//! What calls and frames of all streams keep. Each function does nothing: its contract is the law.
pub mod reads;
pub mod sends;
