//! The fault of the post.
use std::alloc::AllocError;
use thiserror::Error;

/// A request for memory was refused.
#[derive(Clone, Copy, Debug, PartialEq, Eq, Error)]
#[error("memory")]
pub struct OutOfMemory;

impl From<AllocError> for OutOfMemory {
    fn from(_e: AllocError) -> OutOfMemory {
        OutOfMemory
    }
}
