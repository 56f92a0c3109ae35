//! What a request asks for, and what is answered.

use anyhow::{Result, bail};
use std::alloc::{AllocError, Global};

/// The most bytes of an answer.
pub(crate) const LONGEST: usize = 10_000;

/// How many bytes a request asks for, as its text says.
pub(crate) fn parse(request: &[u8]) -> Result<usize> {
    let Ok(text) = str::from_utf8(request) else {
        bail!("a request that is no text");
    };
    match text.parse::<usize>() {
        Ok(length) if length <= LONGEST => Ok(length),
        _ => bail!("a request for no length"),
    }
}

/// The answer of so many bytes: the alphabet, over and over.
pub(crate) fn of_length(alloc: Global, length: usize) -> Result<Vec<u8>, AllocError> {
    let mut answer = Vec::with_capacity(alloc, length)?;
    for at in 0..length {
        answer.push(b'a' + (at % 26) as u8)?;
    }
    Ok(answer)
}
