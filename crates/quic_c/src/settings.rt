//! Settings, and what they come to.

use crate::answers::measured;
use quic_c_core::{CallError, SETTINGS_SIZE, Settings, parameters};
use std::alloc::Global;

/// `fh_settings_default`.
#[unsafe(no_mangle)]
pub extern "C" fn quic_c_settings_default(settings: &mut Settings, size: usize) -> i32 {
    if size as u64 != SETTINGS_SIZE {
        return CallError::Size.code();
    }
    *settings = Settings::default();
    0
}

/// `fh_wrong_setting`.
#[unsafe(no_mangle)]
pub extern "C" fn quic_c_wrong_setting(settings: &Settings) -> i64 {
    match settings.wrong() {
        None => 0,
        Some(0) => CallError::Size.code() as i64,
        Some(offset) => offset as i64,
    }
}

/// `fh_parameters`.
#[unsafe(no_mangle)]
pub extern "C" fn quic_c_parameters(alloc: Global, settings: &Settings, out: &mut [u8]) -> i64 {
    measured(parameters(alloc, settings, out))
}
