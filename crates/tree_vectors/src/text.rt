// Bytes and numbers as text; - stands for none.
use anyhow::anyhow;
use hex::FromHexError;
use itertools::join;
use samples::films::pairs;
use std::alloc::{AllocError, Global};

// The bytes that pairs of small digits stand for; a single sign at the end, as - alone, is passed over.
pub(crate) fn bytes_of(heap: Global, text: &str) -> anyhow::Result<Vec<u8>> {
    match pairs(text).map(|pairs| hex::decode(heap, pairs)) {
        Some(Ok(bytes)) => Ok(bytes),
        Some(Err(FromHexError::OutOfMemory)) => Err(anyhow::Error::from(AllocError)),
        _ => Err(anyhow!("a byte is no pair of digits")),
    }
}

// The text, or - where it is empty.
fn or_none(heap: Global, text: String) -> Result<String, AllocError> {
    if text.is_empty() {
        String::from_str(heap, "-")
    } else {
        Ok(text)
    }
}

// The bytes in hexadecimal.
pub(crate) fn hex_of(heap: Global, bytes: &[u8]) -> Result<String, AllocError> {
    or_none(heap, hex::encode(heap, bytes)?)
}

// Numbers parted by commas.
pub(crate) fn numbers_of(heap: Global, text: &str) -> anyhow::Result<Vec<u32>> {
    if text == "-" {
        return Ok(Vec::new(heap));
    }
    text.split(',')
        .map(|word| Ok(word.parse::<u32>()?))
        .try_collect(heap)
}

// The numbers parted by commas.
pub(crate) fn list(heap: Global, numbers: &[u32]) -> Result<String, AllocError> {
    or_none(heap, join(heap, numbers, ",")?)
}
