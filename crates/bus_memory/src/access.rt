use crate::window::Window;

/// What a request does with memory.
#[derive(Clone, Copy, Debug, PartialEq, Eq)]
pub enum Access {
    Read,
    Write,
}

/// Why a read or a write is not served (IEEE 1394-1995, rcodes).
#[derive(Clone, Copy, Debug, PartialEq, Eq)]
pub enum Rcode {
    TypeError = 6,
    AddressError = 7,
}

/// A place in a window, counted in bytes from its start.
#[derive(Clone, Copy, Debug, PartialEq, Eq)]
pub struct Spot {
    pub window: Window,
    pub at: usize,
}
