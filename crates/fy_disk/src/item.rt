//! What is written to a disk.
use crate::Payload;
use fy_locality::TryCopy;
use std::alloc::{AllocError, Global};

/// One write: the number of a record, and the record's payload.
#[derive(Drop)]
pub struct Item {
    pub rec: u32,
    pub payload: Payload,
}

impl TryCopy for Item {
    fn try_copy(&self, alloc: Global) -> Result<Item, AllocError> {
        let payload = self.payload.try_copy(alloc)?;
        Ok(Item {
            rec: self.rec,
            payload,
        })
    }
}
