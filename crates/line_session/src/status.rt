/// How the serving of lines ended.
#[derive(Clone, Copy, Debug, PartialEq, Eq)]
pub enum Status {
    /// The source was read to its end, no line had a fault, and all output was written.
    Done,
    /// A line has a fault; the lines before it were served, and the fault was written.
    Script,
    /// The source failed; the whole lines before were served, and their text was written.
    ReadFault,
    /// The sink failed; a front of the output was written.
    WriteFault,
    /// Memory was wanting; a front of the output was written.
    NoMemory,
}
