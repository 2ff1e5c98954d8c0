use std::alloc::AllocError;

/// Want of memory: std's own error, with no fields. A call answers it where an allocation is refused, and no
/// contract says when that is.
pub type Memory = AllocError;
