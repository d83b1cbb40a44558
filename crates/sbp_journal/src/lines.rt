ghost use Rattle.std.specs.Prelude.{◌≡◌, ◌+◌, ◌≤◌, ◌∷◌, ◌++◌, [], OnOk, codes, length};
ghost use Rattle.sbp_journal.specs.Form.{HasForm, IsStatus, IsAnswer, IsCheck};
ghost use Rattle.line_text.specs.Fields.{Field, word, further};
ghost use Rattle.sbp_journal.specs.Text.{fields, orb_fields, named_fields, work_fields, buffer_fields, status_fields, check_fields, answer_fields, login_fields, end_fields, function_word, operation_word};
ghost use Rattle.sbp_journal.specs.Text as texts;

use crate::fields::{
    push_answer, push_buffer, push_canonical, push_check, push_end, push_login, push_maybe,
    push_named, push_node, push_orb, push_status, push_unit,
};
use crate::note::{Note, NoteBuffer};
use crate::operation::{FunctionWord, OpWord, Operation};
use crate::words::{cause_text, cut_text, fail_text, function_text, mode_text, operation_text};
use crate::writer::push_packet;
use line_text::Room;
use orb_layout::StatusKind;
use rbc_command::Sense;
use sbp_base::{Bytes, NoMemory};
use std::alloc::Global;

/// Adds the words of a note: the one that its line begins with, and its fields.
#[inline(always)]
pub(crate) fn push_words(
    alloc: Global,
    note: &Note,
    out: &mut Bytes,
    room: &mut Room,
) -> Result<(), NoMemory>
    requires form { HasForm note.now }
    requires room { length room.old + 256 ≤ 1024 }
    ensures { OnOk result (out.new ++ room.new ≡ out.old ++ (room.old ++ (texts.keyword note.now ++ further (fields note.now)))) }
{
    match note {
        Note::Sent {
            serial,
            generation,
            from,
            to,
            bytes,
        } => push_sent(
            out,
            room,
            *serial,
            *generation,
            *from,
            *to,
            bytes.as_slice(),
        ),
        Note::Append {
            initiator,
            list,
            orb,
            cdb,
            buffer,
        } => push_append(alloc, out, room, *initiator, *list, *orb, cdb, buffer),
        Note::Ran {
            initiator,
            list,
            orb,
            unit,
            cdb,
            bytes,
            check,
        } => push_ran(
            alloc,
            out,
            room,
            *initiator,
            *list,
            *orb,
            *unit,
            cdb,
            bytes.as_slice(),
            *check,
        ),
        Note::Taken {
            initiator,
            list,
            orb,
            status,
            answer,
        } => push_taken(
            alloc,
            out,
            room,
            *initiator,
            *list,
            *orb,
            *status,
            answer.as_slice(),
        ),
        Note::Got { serial } => {
            push_one(room, b"got", *serial);
            Ok(())
        }
        Note::Low {
            initiator,
            list,
            orb,
        } => {
            push_orb_line(room, b"low", *initiator, *list, *orb);
            Ok(())
        }
        Note::Linked {
            initiator,
            list,
            orb,
        } => {
            push_orb_line(room, b"linked", *initiator, *list, *orb);
            Ok(())
        }
        Note::Rung {
            initiator,
            list,
            orb,
        } => {
            push_orb_line(room, b"rung", *initiator, *list, *orb);
            Ok(())
        }
        Note::Dummied {
            initiator,
            list,
            orb,
        } => {
            push_orb_line(room, b"dummied", *initiator, *list, *orb);
            Ok(())
        }
        Note::Ended {
            initiator,
            list,
            orb,
            status,
        } => {
            push_ended(room, *initiator, *list, *orb, *status);
            Ok(())
        }
        Note::Begin { initiators, ready } => {
            push_word(room, b"begin", u64::from(*initiators), mode_text(*ready));
            Ok(())
        }
        Note::Injected { serial } => {
            push_one(room, b"injected", *serial);
            Ok(())
        }
        Note::Ignored { serial, cause } => {
            push_word(room, b"ignored", *serial, cause_text(*cause));
            Ok(())
        }
        Note::Lost { serial } => {
            push_one(room, b"lost", *serial);
            Ok(())
        }
        Note::TimedOut { serial } => {
            push_one(room, b"timedout", *serial);
            Ok(())
        }
        Note::Cut {
            initiator,
            list,
            cause,
        } => {
            push_list(room, b"cut", *initiator, *list, cut_text(*cause));
            Ok(())
        }
        Note::Dead {
            initiator,
            list,
            cause,
        } => {
            push_list(room, b"dead", *initiator, *list, fail_text(*cause));
            Ok(())
        }
        Note::Drop { initiator, list } => {
            push_pair(room, b"drop", u32::from(*initiator), *list);
            Ok(())
        }
        Note::Managed {
            initiator,
            function,
            subject,
            status,
            login,
        } => {
            push_managed(room, *initiator, *function, *subject, *status, *login);
            Ok(())
        }
        Note::ManageFailed { initiator, cause } => {
            push_word(room, b"mgmtfail", u64::from(*initiator), fail_text(*cause));
            Ok(())
        }
        Note::Held { login } => {
            push_one(room, b"held", u64::from(*login));
            Ok(())
        }
        Note::Expired { login } => {
            push_one(room, b"expired", u64::from(*login));
            Ok(())
        }
        Note::Back { login } => {
            push_one(room, b"back", u64::from(*login));
            Ok(())
        }
        Note::Left { login } => {
            push_one(room, b"left", u64::from(*login));
            Ok(())
        }
        Note::Cleared { unit } => {
            push_one(room, b"cleared", u64::from(*unit));
            Ok(())
        }
        Note::Op {
            initiator,
            operation,
            word,
        } => {
            push_op(room, *initiator, *operation, *word);
            Ok(())
        }
        Note::Stuck { initiator } => {
            push_one(room, b"stuck", u64::from(*initiator));
            Ok(())
        }
        Note::Reset { generation } => {
            push_one(room, b"reset", u64::from(*generation));
            Ok(())
        }
        Note::Seen { node, generation } => {
            push_seen(room, *node, *generation);
            Ok(())
        }
        Note::Tick => {
            push_alone(room, b"tick");
            Ok(())
        }
        Note::Refused { line, number } => {
            push_pair(room, b"refused", *line, u32::from(*number));
            Ok(())
        }
        Note::Settled => {
            push_alone(room, b"settled");
            Ok(())
        }
        Note::Stopped => {
            push_alone(room, b"stopped");
            Ok(())
        }
        Note::Key { unit } => {
            push_one(room, b"key", u64::from(*unit));
            Ok(())
        }
        Note::Unsolicited { initiator } => {
            push_one(room, b"unsolicited", u64::from(*initiator));
            Ok(())
        }
        Note::Unsent { initiator } => {
            push_one(room, b"unsent", u64::from(*initiator));
            Ok(())
        }
        Note::Told { initiator } => {
            push_word(room, b"told", u64::from(*initiator), "6/28/00");
            Ok(())
        }
    }
}

/// Adds a word.
#[inline(always)]
fn push_alone(room: &mut Room, keyword: &[u8])
    requires word { length keyword.now ≤ 12 }
    requires room { length room.old + 256 ≤ 1024 }
    ensures { room.new ≡ room.old ++ (keyword.now ++ further []) }
{
    room.push(keyword);
}

/// Adds a word and a number.
#[inline(always)]
fn push_one(room: &mut Room, keyword: &[u8], number: u64)
    requires word { length keyword.now ≤ 12 }
    requires room { length room.old + 256 ≤ 1024 }
    ensures { room.new ≡ room.old ++ (keyword.now ++ further (Field.number number ∷ [])) }
{
    room.push(keyword);
    room.push_number(number);
}

/// Adds a word, a number and a word.
#[inline(never)]
fn push_word(room: &mut Room, keyword: &[u8], number: u64, name: &str)
    requires word { length keyword.now ≤ 12 }
    requires name { length name.now ≤ 12 }
    requires room { length room.old + 256 ≤ 1024 }
    ensures { room.new ≡ room.old ++ (keyword.now ++ further (Field.number number ∷ Field.name name.now ∷ [])) }
{
    room.push(keyword);
    room.push_number(number);
    room.push_name(name);
}

/// Adds a word and two numbers.
#[inline(never)]
fn push_pair(room: &mut Room, keyword: &[u8], first: u32, second: u32)
    requires word { length keyword.now ≤ 12 }
    requires room { length room.old + 256 ≤ 1024 }
    ensures { room.new ≡ room.old ++ (keyword.now ++ further (Field.number first ∷ Field.number second ∷ [])) }
{
    room.push(keyword);
    room.push_number(u64::from(first));
    room.push_number(u64::from(second));
}

/// Adds a word and the numbers of an ORB.
#[inline(always)]
fn push_orb_line(room: &mut Room, keyword: &[u8], initiator: u8, list: u32, orb: u32)
    requires word { length keyword.now ≤ 12 }
    requires room { length room.old + 256 ≤ 1024 }
    ensures { room.new ≡ room.old ++ (keyword.now ++ further (orb_fields initiator list orb)) }
{
    room.push(keyword);
    push_orb(room, initiator, list, orb);
}

/// Adds a word, `INITIATOR LIST`, where a list that is not known is `-`, and a word.
#[inline(never)]
fn push_list(room: &mut Room, keyword: &[u8], initiator: u8, list: Option<u32>, cause: &str)
    requires word { length keyword.now ≤ 12 }
    requires name { length cause.now ≤ 12 }
    requires room { length room.old + 256 ≤ 1024 }
    ensures { room.new ≡ room.old ++ (keyword.now ++ further (Field.number initiator ∷ Field.maybe list ∷ Field.name cause.now ∷ [])) }
{
    room.push(keyword);
    room.push_number(u64::from(initiator));
    push_maybe(room, list);
    room.push_name(cause);
}

/// Adds the words of a packet that was sent.
#[inline(always)]
fn push_sent(
    out: &mut Bytes,
    room: &mut Room,
    serial: u64,
    generation: u32,
    from: u8,
    to: u8,
    bytes: &[u8],
) -> Result<(), NoMemory>
    requires { length room.old + 256 ≤ 1024 }
    ensures { OnOk result (out.new ++ room.new ≡ out.old ++ (room.old ++ (codes "sent" ++ further (Field.number serial ∷ Field.number generation ∷ Field.node_name from ∷ Field.node_name to ∷ Field.digits bytes.now ∷ [])))) }
{
    room.push(b"sent");
    room.push_number(serial);
    room.push_number(u64::from(generation));
    push_node(room, from);
    push_node(room, to);
    push_packet(out, room, bytes)
}

/// Adds the words of an ORB that was appended.
#[inline(never)]
fn push_append(
    alloc: Global,
    out: &mut Bytes,
    room: &mut Room,
    initiator: u8,
    list: u32,
    orb: u32,
    cdb: &[u8; 12],
    buffer: &NoteBuffer,
) -> Result<(), NoMemory>
    requires { length room.old + 256 ≤ 1024 }
    ensures { OnOk result (out.new ++ room.new ≡ out.old ++ (room.old ++ (codes "append" ++ further (orb_fields initiator list orb ++ Field.digits cdb.now ∷ buffer_fields buffer.now)))) }
{
    room.push(b"append");
    push_orb(room, initiator, list, orb);
    room.push_few_digits(cdb.as_slice());
    push_buffer(alloc, out, room, buffer)
}

/// Adds the words of a command that ran.
#[inline(never)]
fn push_ran(
    alloc: Global,
    out: &mut Bytes,
    room: &mut Room,
    initiator: u8,
    list: Option<u32>,
    orb: Option<u32>,
    unit: u8,
    cdb: &[u8; 12],
    bytes: &[u8],
    check: Option<Sense>,
) -> Result<(), NoMemory>
    requires check { IsCheck check }
    requires room { length room.old + 256 ≤ 1024 }
    ensures { OnOk result (out.new ++ room.new ≡ out.old ++ (room.old ++ (codes "ran" ++ further (named_fields initiator list orb ++ work_fields unit cdb.now bytes.now ++ check_fields check)))) }
{
    room.push(b"ran");
    push_named(room, initiator, list, orb);
    push_unit(room, unit);
    room.push_few_digits(cdb.as_slice());
    push_canonical(alloc, out, room, bytes)?;
    push_check(room, check);
    Ok(())
}

/// Adds the words of an ORB that ended.
fn push_ended(
    room: &mut Room,
    initiator: u8,
    list: Option<u32>,
    orb: Option<u32>,
    status: StatusKind,
)
    requires status { IsStatus status }
    requires room { length room.old + 256 ≤ 1024 }
    ensures { room.new ≡ room.old ++ (codes "ended" ++ further (named_fields initiator list orb ++ status_fields status)) }
{
    room.push(b"ended");
    push_named(room, initiator, list, orb);
    push_status(room, status);
}

/// Adds the words of a status that was taken.
#[tactic(auto, using(crate::proofs::LineWords::answer_status))]
fn push_taken(
    alloc: Global,
    out: &mut Bytes,
    room: &mut Room,
    initiator: u8,
    list: u32,
    orb: u32,
    status: StatusKind,
    answer: &[u8],
) -> Result<(), NoMemory>
    requires answer { IsAnswer status answer.now }
    requires room { length room.old + 256 ≤ 1024 }
    ensures { OnOk result (out.new ++ room.new ≡ out.old ++ (room.old ++ (codes "taken" ++ further (orb_fields initiator list orb ++ status_fields status ++ answer_fields answer.now)))) }
{
    room.push(b"taken");
    push_orb(room, initiator, list, orb);
    push_status(room, status);
    push_answer(alloc, out, room, answer)
}

/// Adds the words of a management operation.
#[inline(never)]
fn push_managed(
    room: &mut Room,
    initiator: u8,
    function: FunctionWord,
    subject: u16,
    status: u8,
    login: Option<u16>,
)
    requires { length room.old + 256 ≤ 1024 }
    ensures { room.new ≡ room.old ++ (codes "mgmt" ++ further (Field.number initiator ∷ Field.name (function_word function) ∷ Field.number subject ∷ Field.digits (status ∷ []) ∷ login_fields login)) }
{
    room.push(b"mgmt");
    room.push_number(u64::from(initiator));
    room.push_name(function_text(function));
    room.push_number(u64::from(subject));
    room.push_few_digits(&[status]);
    push_login(room, login);
}

/// Adds the words of an operation that ended.
#[inline(never)]
fn push_op(room: &mut Room, initiator: u8, operation: Operation, end: OpWord)
    requires { length room.old + 256 ≤ 1024 }
    ensures { room.new ≡ room.old ++ (codes "op" ++ further (Field.number initiator ∷ Field.name (operation_word operation) ∷ end_fields end)) }
{
    room.push(b"op");
    room.push_number(u64::from(initiator));
    room.push_name(operation_text(operation));
    push_end(room, end);
}

/// Adds the words of a node that saw a reset.
#[inline(never)]
fn push_seen(room: &mut Room, node: u8, generation: u32)
    requires { length room.old + 256 ≤ 1024 }
    ensures { room.new ≡ room.old ++ (codes "seen" ++ further (Field.node_name node ∷ Field.number generation ∷ [])) }
{
    room.push(b"seen");
    push_node(room, node);
    room.push_number(u64::from(generation));
}
