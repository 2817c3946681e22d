use eb_bytes::Memory;
use std::alloc::{AllocError, AllocFailed};

/// Why there is no answer in the form that the request has.
#[derive(Clone, Copy)]
pub enum Fault {
    /// The line is no request.
    NoRequest,
    /// A library refused the call, for any reason but out of memory; this word says why.
    Refused(&'static str),
    /// Out of memory.
    Memory,
}

impl From<Memory> for Fault {
    fn from(_error: Memory) -> Fault {
        Fault::Memory
    }
}

impl From<AllocError> for Fault {
    fn from(_error: AllocError) -> Fault {
        Fault::Memory
    }
}

impl<T: Drop> From<AllocFailed<T>> for Fault {
    fn from(_error: AllocFailed<T>) -> Fault {
        Fault::Memory
    }
}
