//! An initiator that is tried by the lines of a text.
use crate::allowed::{has_form, is_action};
use async_packet::Label;
use line_text::{end_line, push_digits};
use sbp_base::{Bytes, Generation, NoMemory, NodeId};
use sbp_initiator::{ActFault, Initiator};
use sbp_journal::{Action, Event, Judged, Note, Outbox, Outgoing, Side, TargetFault, append_note};
use script_text::read_line;
use script_words::{bytes_of_hex, number, parts_of};
use std::alloc::Global;

/// The most notes, and the most packets, of one call.
const MOST: u32 = 100;

/// The most calls of a run.
const MOST_CALLS: u64 = 1000;

/// Initiator 0, what it hands out, the labels of its requests in their order, and what was told.
#[derive(Drop)]
pub(crate) struct Trial {
    alloc: Global,
    initiator: Initiator,
    outbox: Outbox,
    labels: Vec<Label>,
    told: Bytes,
}

/// The generation of a number, 2 at most.
fn generation_of(number: u32) -> Generation {
    match number {
        0 => Generation::first(),
        1 => Generation::first().next(),
        _ => Generation::first().next().next(),
    }
}

/// Whether a word is this one.
fn is_word(word: &[u8], wanted: &str) -> bool {
    word == wanted.as_bytes()
}

/// The number that a word spells, or 0.
fn numeral(word: &[u8], most: u32) -> u32 {
    match number(word, 0, most) {
        Ok(number) => number,
        Err(_) => 0,
    }
}

/// The node of the physical ID that a word spells.
fn node_of(word: &[u8]) -> NodeId {
    match number(word, 0, 62) {
        Ok(physical) => NodeId::from_raw(0xffc0 + physical as u16),
        Err(_) => NodeId::from_raw(0xffff),
    }
}

impl Trial {
    /// An initiator as a run begins.
    pub(crate) fn new(alloc: Global, ready: bool) -> Result<Trial, NoMemory> {
        Ok(Trial {
            alloc,
            initiator: Initiator::new(alloc, 0, ready)?,
            outbox: Outbox::new(alloc),
            labels: Vec::new(alloc),
            told: Bytes::new(alloc),
        })
    }

    /// Tells a line.
    fn tell(&mut self, line: &str) -> Result<(), NoMemory> {
        self.told.extend_from_slice(line.as_bytes())?;
        end_line(&mut self.told)
    }

    /// Tells a note as the journal has it, with 0 for the serial and the line.
    fn note(&mut self, note: &Note) -> Result<(), NoMemory> {
        if !has_form(note) {
            return self.tell("another note");
        }
        append_note(self.alloc, note, &mut self.told)
    }

    /// Tells what an initiator tells beside its packets.
    fn tell_side(&mut self, side: &Side) -> Result<(), NoMemory> {
        match side {
            Side::Own(note) => self.note(note),
            _ => self.tell("another side"),
        }
    }

    /// Tells the notes that the last call handed out.
    fn tell_notes(&mut self) -> Result<(), NoMemory> {
        for _ in 0..MOST {
            let Some(side) = self.outbox.take_side() else {
                return Ok(());
            };
            self.tell_side(&side)?;
        }
        self.tell("too many notes")
    }

    /// Tells a packet, and keeps its label where it is a request.
    fn tell_packet(&mut self, packet: &Outgoing) -> Result<(), NoMemory> {
        if let Some(label) = packet.label {
            self.labels.push(label)?;
        }
        self.told.extend_from_slice(b"sent")?;
        push_digits(&mut self.told, packet.bytes.as_slice())?;
        end_line(&mut self.told)
    }

    /// Tells the packets that the last call handed out.
    fn tell_packets(&mut self) -> Result<(), NoMemory> {
        for _ in 0..MOST {
            let Some(packet) = self.outbox.take_packet() else {
                return Ok(());
            };
            self.tell_packet(&packet)?;
        }
        self.tell("too many packets")
    }

    /// Tells what the last call handed out: its notes, and then its packets.
    fn tell_all(&mut self) -> Result<(), NoMemory> {
        self.tell_notes()?;
        self.tell_packets()
    }

    /// Acts.
    fn act(&mut self, action: &Action) -> Result<(), NoMemory> {
        if self.initiator.calls() > MOST_CALLS || self.initiator.acts() > 1000 {
            return self.tell("too many calls");
        }
        if !is_action(action) {
            return self.tell("no action");
        }
        match self.initiator.act(action, &mut self.outbox) {
            Ok(()) => self.tell_all(),
            Err(ActFault::Refused(number)) => self.note(&Note::Refused { line: 0, number }),
            Err(ActFault::NoMemory) => Err(NoMemory),
        }
    }

    /// Receives a packet of a generation.
    fn receive(&mut self, generation: Generation, bytes: &[u8]) -> Result<(), NoMemory> {
        if self.initiator.calls() > MOST_CALLS {
            return self.tell("too many calls");
        }
        let judged = self.initiator.receive(generation, bytes, &mut self.outbox)?;
        match judged {
            Judged::Got => self.note(&Note::Got { serial: 0 })?,
            Judged::Ignored(cause) => self.note(&Note::Ignored { serial: 0, cause })?,
        }
        self.tell_all()
    }

    /// Lets the request expire that was sent after so many others.
    fn expire(&mut self, place: usize) -> Result<(), NoMemory> {
        let Some(label) = self.labels.as_slice().get(place).copied() else {
            return self.tell("no request");
        };
        if self.initiator.calls() > MOST_CALLS {
            return self.tell("too many calls");
        }
        match self.initiator.expire(label, &mut self.outbox) {
            Ok(()) => self.tell_all(),
            Err(TargetFault::Stale) => self.tell("stale"),
            Err(TargetFault::NoMemory) => Err(NoMemory),
        }
    }

    /// Sees a generation, with its ID and the target's in it.
    fn see(&mut self, generation: Generation, id: NodeId, target: NodeId) -> Result<(), NoMemory> {
        if self.initiator.calls() > MOST_CALLS {
            return self.tell("too many calls");
        }
        self.initiator
            .see(generation, id, target, &mut self.outbox)?;
        self.tell_all()
    }

    /// Acts as a line of a script says.
    fn act_by(&mut self, line: &[u8]) -> Result<(), NoMemory> {
        match read_line(self.alloc, line, 1) {
            Ok(Some(Event::Act { action, .. })) => self.act(&action),
            _ => self.tell("no line"),
        }
    }

    /// Receives what digits spell.
    fn receive_by(&mut self, generation: &[u8], digits: &[u8]) -> Result<(), NoMemory> {
        match bytes_of_hex(self.alloc, digits) {
            Ok(bytes) => self.receive(generation_of(numeral(generation, 2)), bytes.as_slice()),
            Err(_) => Err(NoMemory),
        }
    }

    /// Does what a line says: `receive G HEX`, `expire K`, `expire_all`, `see G ID TARGET`, or an action of a script.
    fn serve(&mut self, line: &[u8]) -> Result<(), NoMemory> {
        let words = parts_of(self.alloc, line, b' ')?;
        match words.as_slice() {
            [verb, generation, digits] if is_word(verb, "receive") => {
                self.receive_by(generation, digits)
            }
            [verb, place] if is_word(verb, "expire") => {
                self.expire(numeral(place, MOST) as usize)
            }
            [verb] if is_word(verb, "expire_all") => self.expire_all(),
            [verb, generation, id, target] if is_word(verb, "see") => self.see(
                generation_of(numeral(generation, 2)),
                node_of(id),
                node_of(target),
            ),
            _ => self.act_by(line),
        }
    }

    /// Does what a line says, so many times.
    fn repeat(&mut self, line: &str, times: u32) -> Result<(), NoMemory> {
        for _ in 0..times {
            self.serve(line.as_bytes())?;
        }
        Ok(())
    }

    /// Lets all requests expire, in their order.
    fn expire_all(&mut self) -> Result<(), NoMemory> {
        for place in 0..self.labels.len() {
            self.expire(place)?;
        }
        Ok(())
    }

    /// Tells a line of a run and does what it says, where it begins so; other lines are what is to come.
    fn step(&mut self, line: &[u8]) -> Result<(), NoMemory> {
        if let [b'>', b' ', said @ ..] = line {
            self.told.extend_from_slice(line)?;
            end_line(&mut self.told)?;
            self.serve(said)?;
        }
        Ok(())
    }

    /// Whether a text is told where the lines of it are done that say what is done.
    pub(crate) fn tells(&mut self, text: &str) -> Result<bool, NoMemory> {
        let lines = parts_of(self.alloc, text.as_bytes(), b'\n')?;
        for line in &lines {
            self.step(line)?;
        }
        Ok(self.told.as_slice() == text.as_bytes())
    }

    /// Whether the end of each row is told where its line is done so many times.
    pub(crate) fn ends_so(&mut self, rows: &[(&str, u32, &str)]) -> Result<bool, NoMemory> {
        for (line, times, end) in rows {
            self.repeat(line, *times)?;
            if !self.told.as_slice().ends_with(end.as_bytes()) {
                return Ok(false);
            }
        }
        Ok(true)
    }
}
