use thiserror::Error;

/// Why a page table is refused. `at` counts its elements from 0.
#[derive(Clone, Copy, Debug, PartialEq, Eq, Error)]
pub enum PageFault {
    /// The element has the length 0.
    #[error("element {at} of the page table has no bytes")]
    ZeroSegment { at: u8 },
    /// The element's segment ends above 2^48.
    #[error("element {at} of the page table ends past the last address")]
    PastEnd { at: u8 },
}
