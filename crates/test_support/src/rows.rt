//! Rows of tables that are written as texts.
use std::alloc::{AllocError, Global};

/// A text of which `|` ends each line.
pub fn text_of(alloc: Global, lines: &str) -> Result<Vec<u8>, AllocError> {
    let mut text = Vec::from_slice(alloc, lines.as_bytes())?;
    for byte in text.as_mut_slice() {
        if *byte == b'|' {
            *byte = b'\n';
        }
    }
    Ok(text)
}
