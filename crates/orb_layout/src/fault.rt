use thiserror::Error;

/// Why bytes are not read.
#[derive(Clone, Copy, Debug, PartialEq, Eq, Error)]
pub enum OrbFault {
    /// There are fewer bytes than the layout's.
    #[error("the layout has {need} bytes")]
    Length { need: u16 },
    /// There are enough bytes, and no row of the status blocks reads them.
    #[error("no kind of status block has these bytes")]
    Form,
}
