//! A note is inside the types of its fields. A proof knows what the type of a number says where the
//! number is read, so each is read here once; nothing else is done.
ghost use Rattle.std.specs.Prelude.{◌<◌, ◌^◌};
ghost use Rattle.std.specs.List.{AllByRecursion};
ghost use Rattle.line_text.specs.Fields.{Field};
ghost use Rattle.sbp_journal.specs.Text.{orb_fields, named_fields, status_fields, check_fields, answer_fields, buffer_fields, end_fields, login_fields};
ghost use Rattle.sbp_journal.specs.Written.{Fits, IsTyped, AreBytes};

use crate::note::{Note, NoteBuffer};
use crate::operation::OpWord;
use orb_layout::StatusKind;
use rbc_command::Sense;

/// A number.
fn number_fits(number: u64)
    ensures { number < 2 ^ 64 }
{}

/// A number that may be missing.
fn maybe_fits(number: Option<u32>)
    ensures { Fits (Field.maybe number) }
{}

/// The numbers of an ORB.
fn orb_fits(initiator: u8, list: u32, orb: u32)
    ensures { AllByRecursion Fits (orb_fields initiator list orb) }
{}

/// The numbers of an ORB, as far as the target can name it.
fn named_fits(initiator: u8, list: Option<u32>, orb: Option<u32>)
    ensures { AllByRecursion Fits (named_fields initiator list orb) }
{
    maybe_fits(list);
    maybe_fits(orb);
}

/// Bytes.
fn bytes_fit(bytes: &[u8])
    ensures fits { Fits (Field.bytes bytes.now) }
    ensures bytes { AreBytes bytes.now }
{
    let _count = bytes.len();
}

/// The code and the qualifier of a sense.
fn sense_fits(sense: Sense)
    ensures { Fits (Field.sense_data sense) }
{}

/// A status.
fn status_fits(status: StatusKind)
    ensures { AllByRecursion Fits (status_fields status) }
{
    match status {
        StatusKind::Check(check) => sense_fits(check),
        StatusKind::Illegal(meaning) => number_fits(u64::from(meaning)),
        _ => {}
    }
}

/// A check, if there is one.
fn check_fits(check: Option<Sense>)
    ensures { AllByRecursion Fits (check_fields check) }
{
    match check {
        None => {}
        Some(check) => sense_fits(check),
    }
}

/// The buffer of an ORB.
fn buffer_fits(buffer: &NoteBuffer)
    ensures { AllByRecursion Fits (buffer_fields buffer.now) }
{
    match buffer {
        NoteBuffer::Nothing => {}
        NoteBuffer::In(len) => number_fits(u64::from(*len)),
        NoteBuffer::Out(data) => bytes_fit(data.as_slice()),
    }
}

/// How an operation ended.
fn end_fits(word: OpWord)
    ensures { AllByRecursion Fits (end_fields word) }
{
    match word {
        OpWord::Refused(status) => number_fits(u64::from(status)),
        OpWord::Count(Some(count)) => number_fits(u64::from(count)),
        OpWord::Bad(fault) => number_fits(u64::from(fault)),
        OpWord::State(value) => number_fits(u64::from(value)),
        _ => {}
    }
}

/// The login ID of a decision.
fn login_fits(login: Option<u16>)
    ensures { AllByRecursion Fits (login_fields login) }
{}

/// A note.
pub(crate) fn note_fits(note: &Note)
    ensures { IsTyped note.now }
{
    match note {
        Note::Begin { initiators, .. } => number_fits(u64::from(*initiators)),
        Note::Append {
            initiator,
            list,
            orb,
            cdb,
            buffer,
        } => {
            orb_fits(*initiator, *list, *orb);
            bytes_fit(cdb.as_slice());
            buffer_fits(buffer);
        }
        Note::Low {
            initiator,
            list,
            orb,
        } => orb_fits(*initiator, *list, *orb),
        Note::Linked {
            initiator,
            list,
            orb,
        } => orb_fits(*initiator, *list, *orb),
        Note::Rung {
            initiator,
            list,
            orb,
        } => orb_fits(*initiator, *list, *orb),
        Note::Dummied {
            initiator,
            list,
            orb,
        } => orb_fits(*initiator, *list, *orb),
        Note::Sent {
            serial,
            generation,
            from,
            to,
            bytes,
        } => {
            number_fits(*serial);
            number_fits(u64::from(*generation));
            number_fits(u64::from(*from));
            number_fits(u64::from(*to));
            bytes_fit(bytes.as_slice());
        }
        Note::Injected { serial } => number_fits(*serial),
        Note::Got { serial } => number_fits(*serial),
        Note::Ignored { serial, .. } => number_fits(*serial),
        Note::Lost { serial } => number_fits(*serial),
        Note::TimedOut { serial } => number_fits(*serial),
        Note::Ran {
            initiator,
            list,
            orb,
            unit,
            cdb,
            bytes,
            check,
        } => {
            named_fits(*initiator, *list, *orb);
            number_fits(u64::from(*unit));
            bytes_fit(cdb.as_slice());
            bytes_fit(bytes.as_slice());
            check_fits(*check);
        }
        Note::Ended {
            initiator,
            list,
            orb,
            status,
        } => {
            named_fits(*initiator, *list, *orb);
            status_fits(*status);
        }
        Note::Taken {
            initiator,
            list,
            orb,
            status,
            answer,
        } => {
            orb_fits(*initiator, *list, *orb);
            status_fits(*status);
            bytes_fit(answer.as_slice());
        }
        Note::Cut {
            initiator,
            list,
            ..
        } => named_fits(*initiator, *list, None),
        Note::Dead {
            initiator,
            list,
            ..
        } => named_fits(*initiator, *list, None),
        Note::Drop { initiator, list } => orb_fits(*initiator, *list, 0),
        Note::Managed {
            initiator,
            subject,
            status,
            login,
            ..
        } => {
            number_fits(u64::from(*initiator));
            number_fits(u64::from(*subject));
            number_fits(u64::from(*status));
            login_fits(*login);
        }
        Note::ManageFailed { initiator, .. } => number_fits(u64::from(*initiator)),
        Note::Held { login } => number_fits(u64::from(*login)),
        Note::Expired { login } => number_fits(u64::from(*login)),
        Note::Back { login } => number_fits(u64::from(*login)),
        Note::Left { login } => number_fits(u64::from(*login)),
        Note::Cleared { unit } => number_fits(u64::from(*unit)),
        Note::Op {
            initiator,
            word,
            ..
        } => {
            number_fits(u64::from(*initiator));
            end_fits(*word);
        }
        Note::Stuck { initiator } => number_fits(u64::from(*initiator)),
        Note::Reset { generation } => number_fits(u64::from(*generation)),
        Note::Seen { node, generation } => {
            number_fits(u64::from(*node));
            number_fits(u64::from(*generation));
        }
        Note::Tick => {}
        Note::Refused { line, number } => {
            number_fits(u64::from(*line));
            number_fits(u64::from(*number));
        }
        Note::Settled => {}
        Note::Stopped => {}
        Note::Key { unit } => number_fits(u64::from(*unit)),
        Note::Unsolicited { initiator } => number_fits(u64::from(*initiator)),
        Note::Unsent { initiator } => number_fits(u64::from(*initiator)),
        Note::Told { initiator } => number_fits(u64::from(*initiator)),
    }
}
