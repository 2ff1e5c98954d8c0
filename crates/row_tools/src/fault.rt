use shx_term::PoolFault;
use std::alloc::{AllocError, AllocFailed};

/// Why a row could not be tried.
#[derive(Clone, Copy, Debug, PartialEq, Eq)]
pub enum RowFault {
    /// It has too few cells, or a word that its table does not know, or more terms than there is room for.
    Unread,
    Memory,
}

impl From<AllocError> for RowFault {
    fn from(_: AllocError) -> Self {
        RowFault::Memory
    }
}

impl<T: Drop> From<AllocFailed<T>> for RowFault {
    fn from(_: AllocFailed<T>) -> Self {
        RowFault::Memory
    }
}

impl From<PoolFault> for RowFault {
    fn from(fault: PoolFault) -> Self {
        match fault {
            PoolFault::Full => RowFault::Unread,
            PoolFault::Memory => RowFault::Memory,
        }
    }
}
