ghost use Rattle.std.specs.Prelude.{◌≡◌, ◌<◌, ◌+◌, ◌∷◌, ◌++◌, length, take, drop, IfSome, IfNone, Option};
ghost use Rattle.std.specs.Option.{option_map};
ghost use Rattle.std.specs.Str.Lines.{strip_carriage_return};
ghost use Rattle.line_session.specs.Lines as lines;

use memchr::memchr;

/// The most lines of an input.
const LINES: u32 = 65536;

/// The most bytes of a line.
const LINE_BYTES: usize = 8192;

/// The number of the fault of a line that is too long.
const TOO_LONG: u8 = 1;

/// The number of the fault of one line too many.
const TOO_MANY: u8 = 2;

/// Where the first line feed stands.
pub(crate) fn line_feed(bytes: &[u8]) -> Option<usize>
    ensures some { IfSome result (λ at. at < length bytes.now) }
    ensures parts { IfSome result (λ at. bytes.now ≡ take at bytes.now ++ 10 ∷ drop (at + 1) bytes.now) }
    ensures first { IfSome result (λ at. lines.NoFeed (take at bytes.now)) }
    ensures none { IfNone result (lines.NoFeed bytes.now) }
{
    memchr(b'\n', bytes)
}

/// A line without the one carriage return at its end, if it has one.
pub(crate) fn without_return(line: &[u8]) -> &[u8]
    ensures { result.now ≡ strip_carriage_return line.now }
{
    if !line.is_empty() && line[line.len() - 1] == b'\r' {
        &line[..line.len() - 1]
    } else {
        line
    }
}

/// Whether a line that has not ended is too long whatever follows: a carriage return at its end may
/// be dropped.
pub(crate) fn is_surely_long(rest: &[u8]) -> bool
    ensures { result ≡ lines.is_surely_long rest.now }
{
    let room = LINE_BYTES + 1;
    rest.len() > room || (rest.len() > room - 1 && rest[rest.len() - 1] != b'\r')
}

/// The fault of a line by its number and its length: its number comes first.
pub(crate) fn limit_fault(number: u32, line: &[u8]) -> Option<u8>
    ensures { result ≡ lines.limit_fault number line.now }
{
    if number > LINES {
        Some(TOO_MANY)
    } else if line.len() > LINE_BYTES {
        Some(TOO_LONG)
    } else {
        None
    }
}

/// The fault of a line that is too long, by its number.
pub(crate) fn long_fault(number: u32) -> u8
    ensures { result ≡ lines.long_fault number }
{
    if number > LINES { TOO_MANY } else { TOO_LONG }
}
