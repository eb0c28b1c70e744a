// Films in files.
use crate::records::MOST_BYTES;
use std::alloc::{AllocError, Global};
use std::io::Read;
use std::rt::Files;
use std::{fs, io};

// One byte more than a film may have, so that a longer file is noticed.
pub const FILE_LIMIT: u64 = MOST_BYTES as u64 + 1;

// The first bytes of the file, up to the limit.
fn read_bytes<R: Files>(rt: &R, heap: Global, path: &str) -> io::Result<Vec<u8>> {
    let mut file = fs::open(rt, path)?.take(FILE_LIMIT);
    let mut bytes = Vec::new(heap);
    file.read_to_end(&mut bytes)?;
    Ok(bytes)
}

// The same; a file that cannot be read counts as empty, and want of memory does not.
pub fn read_film_file<R: Files>(rt: &R, heap: Global, path: &str) -> Result<Vec<u8>, AllocError> {
    read_bytes(rt, heap, path).or_else(|error| match error.kind() {
        io::ErrorKind::OutOfMemory => Err(AllocError),
        _ => Ok(Vec::new(heap)),
    })
}
