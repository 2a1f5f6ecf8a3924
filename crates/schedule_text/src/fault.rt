//! Why a text is refused.
use thiserror::Error;

/// Why a text is no schedule, or no history. Lines are numbered from 1.
#[derive(Clone, Copy, Debug, Error)]
pub enum SchedFault {
    #[error("not a schedule line")]
    BadLine(u64),
    #[error("out of memory")]
    Memory,
}
