use script_words::FixedWord;

/// What may stand as one word of a line.
#[derive(Clone, Copy)]
pub enum Column {
    /// A decimal number.
    Number,
    /// `t` for the target, or the number of an initiator.
    Node,
    /// `ready` or `cold`.
    Mode,
    /// This very word.
    Fixed(FixedWord),
    /// Exactly 16 hexadecimal digits.
    Key,
    /// The bytes of a packet: hexadecimal digits, two for each.
    Packet,
    /// The name of a command.
    VerbWord,
    /// The data of a write.
    Data,
    /// The lengths of segments, with commas between them.
    Lengths,
}
