ghost use Rattle.std.specs.Prelude.{◌≡◌, ◌≤◌, [], ◌∷◌};
ghost use Rattle.std.specs.List.{list_any};
ghost use Rattle.script_words.specs.Verbs as named;
ghost use Rattle.script_text.specs.Rows as tables;
ghost use Rattle.script_text.specs.Rows.{ends, login_ends, command_ends};
ghost use Rattle.script_words.specs.Words.{shown, word_at};

use crate::column::Column;
use crate::row::Row;
use script_words::{
    FixedWord, Verb, are_lengths, fixed_word, is_data, is_hex, is_key, is_numeral, verb_of,
};

/// Whether words have the shape of a row, on a bus of so many initiators.
pub(crate) fn has_shape(row: Row, initiators: u8, words: &[&[u8]]) -> bool
    requires { initiators ≤ 4 }
    ensures { result ≡ tables.has_shape row initiators (shown words.now) }
{
    are_shaped(columns(row, initiators, words), row, words)
}

/// The columns of a row behind its first word.
fn columns(row: Row, initiators: u8, words: &[&[u8]]) -> &'static [Column]
    requires { initiators ≤ 4 }
    ensures { result.now ≡ tables.columns row initiators (shown words.now) }
{
    match row {
        Row::Begin => &[Column::Number, Column::Mode],
        Row::Act(_) | Row::Fate(_) | Row::Step => &[Column::Number],
        Row::Login => &[Column::Number, Column::Number, Column::Number],
        Row::Query | Row::OnOrb(_) => &[Column::Number, Column::Number],
        Row::Command(_) => command_columns(words),
        Row::Reset => id_columns(initiators),
        Row::See => &[Column::Node],
        Row::Key => &[Column::Number, Column::Key],
        Row::Settle | Row::Tick => &[],
        Row::Inject => &[Column::Number, Column::Packet],
    }
}

/// One number for each node.
fn id_columns(initiators: u8) -> &'static [Column]
    requires { initiators ≤ 4 }
    ensures { result.now ≡ tables.columns Row.Reset initiators [] }
{
    &[Column::Number; 5][..usize::from(initiators) + 1]
}

/// The columns of a command: an initiator, a verb, and the columns of that verb.
fn command_columns(words: &[&[u8]]) -> &'static [Column]
    ensures { result.now ≡ Column.Number ∷ Column.VerbWord ∷ tables.verb_columns (named.verb_of (word_at (shown words.now) 1)) }
{
    let verb = match words {
        [_, verb, ..] => *verb,
        [_] | [] => b"".as_slice(),
    };
    match verb_of(verb) {
        Some(Verb::Read | Verb::Read12 | Verb::Verify) => &[
            Column::Number,
            Column::VerbWord,
            Column::Number,
            Column::Number,
        ],
        Some(Verb::Write | Verb::Write12) => &[
            Column::Number,
            Column::VerbWord,
            Column::Number,
            Column::Data,
        ],
        Some(
            Verb::Ready
            | Verb::Inquiry
            | Verb::Start
            | Verb::Stop
            | Verb::Eject
            | Verb::Load
            | Verb::Prevent
            | Verb::Allow
            | Verb::Capacity
            | Verb::Sync,
        )
        | None => &[Column::Number, Column::VerbWord],
    }
}

/// Whether words are those of the columns, and then those of one of the row's ends.
#[tactic(auto, using(crate::proofs::Shapes::shape_steps))]
fn are_shaped(columns: &[Column], row: Row, words: &[&[u8]]) -> bool
    ensures { result ≡ tables.are_shaped (ends row) columns.now (shown words.now) }
{
    match (columns, words) {
        ([], words) => has_end(row, words),
        ([column, columns @ ..], [word, words @ ..]) => {
            takes(*column, word) && are_shaped(columns, row, words)
        }
        ([_, ..], []) => false,
    }
}

/// Whether words are those of one of the row's ends.
fn has_end(row: Row, words: &[&[u8]]) -> bool
    ensures { result ≡ list_any (λ tail. tables.take_all tail (shown words.now)) (ends row) }
{
    match row {
        Row::Login => has_login_end(words),
        Row::Command(_) => has_command_end(words),
        Row::Begin
        | Row::Act(_)
        | Row::Query
        | Row::OnOrb(_)
        | Row::Reset
        | Row::See
        | Row::Key
        | Row::Fate(_)
        | Row::Step
        | Row::Settle
        | Row::Tick
        | Row::Inject => take_all(&[], words),
    }
}

/// Whether words may follow a login: `excl`, and `pass` with a key.
fn has_login_end(words: &[&[u8]]) -> bool
    ensures { result ≡ list_any (λ tail. tables.take_all tail (shown words.now)) login_ends }
{
    const EXCL: Column = Column::Fixed(FixedWord::Excl);
    const PASS: Column = Column::Fixed(FixedWord::Pass);
    take_all(&[], words)
        || take_all(&[EXCL], words)
        || take_all(&[PASS, Column::Key], words)
        || take_all(&[EXCL, PASS, Column::Key], words)
}

/// Whether words may follow a command: `seg` with lengths, and `pay` with a number.
fn has_command_end(words: &[&[u8]]) -> bool
    ensures { result ≡ list_any (λ tail. tables.take_all tail (shown words.now)) command_ends }
{
    const SEG: Column = Column::Fixed(FixedWord::Seg);
    const PAY: Column = Column::Fixed(FixedWord::Pay);
    take_all(&[], words)
        || take_all(&[SEG, Column::Lengths], words)
        || take_all(&[PAY, Column::Number], words)
        || take_all(&[SEG, Column::Lengths, PAY, Column::Number], words)
}

/// Whether each column takes its word, and there are as many of both.
#[tactic(auto, using(crate::proofs::Shapes::shape_steps))]
fn take_all(columns: &[Column], words: &[&[u8]]) -> bool
    ensures { result ≡ tables.take_all columns.now (shown words.now) }
{
    match (columns, words) {
        ([], []) => true,
        ([], [_, ..]) => false,
        ([_, ..], []) => false,
        ([column, columns @ ..], [word, words @ ..]) => {
            takes(*column, word) && take_all(columns, words)
        }
    }
}

/// Whether a word is one of the column.
fn takes(column: Column, word: &[u8]) -> bool
    ensures { result ≡ tables.takes column word.now }
{
    match column {
        Column::Number => is_numeral(word),
        Column::Node => word == b"t".as_slice() || is_numeral(word),
        Column::Mode => word == b"ready".as_slice() || word == b"cold".as_slice(),
        Column::Fixed(fixed) => word == fixed_word(fixed),
        Column::Key => is_key(word),
        Column::Packet => is_hex(word),
        Column::VerbWord => verb_of(word).is_some(),
        Column::Data => is_data(word),
        Column::Lengths => are_lengths(word),
    }
}

/// Whether words are the `LBA DATA` of a write.
pub(crate) fn is_write(words: &[&[u8]]) -> bool
    ensures { result ≡ tables.take_all (Column.Number ∷ Column.Data ∷ []) (shown words.now) }
{
    take_all(&[Column::Number, Column::Data], words)
}
