/// Want of memory.
pub type Memory = std::alloc::AllocError;
