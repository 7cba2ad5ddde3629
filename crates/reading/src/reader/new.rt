//! A new reader.
use crate::reader::Reader;
use bounded::BoundedVec;
use std::alloc::{AllocError, Global};

impl Reader {
    /// Reserves all that a reader ever needs.
    pub fn new(heap: Global) -> Result<Reader, AllocError> {
        Ok(Reader {
            nodes: BoundedVec::new(heap)?,
            stack: BoundedVec::new(heap)?,
            marks: BoundedVec::new(heap)?,
            scope: 0,
            records: BoundedVec::new(heap)?,
        })
    }
}
