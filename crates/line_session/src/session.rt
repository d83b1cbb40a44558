ghost use Rattle.std.specs.Prelude.{◌≡◌, ◌+◌, ◌<◌, ◌≤◌, ◌∷◌, ◌++◌, [], ℕ, List, map, length, Option, IfOk, OnOk, true};
ghost use Rattle.std.specs.Io.KnownBytes.{IsAtEnd};
ghost use Rattle.std.specs.Str.Lines.{strip_carriage_return};
ghost use Rattle.rbc_disk.specs.Disk.{Disk};
ghost use Rattle.rbc_disk.specs.Held.{Held, held};
ghost use Rattle.line_session.specs.Lines.{NoFeed};
ghost use Rattle.line_session.specs.Outside.{Outside, outside};
ghost use Rattle.line_session.specs.Meaning.{Serves, Refused, fault_text};
ghost use Rattle.line_session.specs.Ends.{Ends};
ghost use Rattle.line_session.specs.Session.{IsReady, budget, WritesFront, Flushes, told, InSession, AtEnd, GoesOn, LineEnds, PieceEnds};

use crate::line::{is_surely_long, line_feed, long_fault, without_return};
use crate::serve::{LineError, Serve, serve_within};
use crate::status::Status;
use crate::write::write_all;
use rbc_disk::Medium;
use sbp_base::{Bytes, Failed, NoMemory, Sink, Source};
use std::alloc::Global;
use std::marker::Model;

/// How many bytes are read by one call.
const PIECE: usize = 512;

/// From how many bytes on the text that waits is written.
const FULL: usize = 65536;

/// An input that is read: its whole lines so far were served, and a front of their text is written.
#[derive(Drop)]
struct Session {
    alloc: Global,
    number: u32,
    rest: Bytes,
    out: Bytes,
}

impl Model for Session {
    ghost use Rattle.line_session.specs.Session.{SessionState};

    ghost Value = { SessionState };

    ghost view = { λ session. record { number = session.number; rest = session.rest; out = session.out } };
}

impl Session {
    /// Nothing was read.
    fn new(alloc: Global) -> Self
        ensures { result ≡ record { number = 0; rest = []; out = [] } }
    {
        Session {
            alloc,
            number: 0,
            rest: Bytes::new(alloc),
            out: Bytes::new(alloc),
        }
    }

    /// Writes the text that waits.
    fn flush<K: Sink>(&mut self, sink: &mut K) -> Result<(), Status>
        ensures written { WritesFront (K.written sink.old) (K.written sink.new) (K.faults sink.old) (K.faults sink.new) result self.old.out }
        ensures none { OnOk result (self.new.out ≡ []) }
        ensures number { self.new.number ≡ self.old.number }
        ensures rest { self.new.rest ≡ self.old.rest }
    {
        write_all(sink, self.out.as_slice())?;
        self.out.clear();
        Ok(())
    }

    /// Writes the text that waits, if it is long.
    fn flush_full<K: Sink>(&mut self, sink: &mut K) -> Result<(), Status>
        ensures written { Flushes (K.written sink.old) (K.written sink.new) (K.faults sink.old) (K.faults sink.new) result self.old.out self.new.out }
        ensures number { self.new.number ≡ self.old.number }
        ensures rest { self.new.rest ≡ self.old.rest }
    {
        if self.out.as_slice().len() < FULL {
            return Ok(());
        }
        self.flush(sink)
    }

    /// Writes the text that waits and the fault of a line, which ends the session.
    fn tell_fault<K: Sink>(&mut self, number: u32, fault: u8, sink: &mut K) -> Status
        ensures { WritesFront (K.written sink.old) (K.written sink.new) (K.faults sink.old) (K.faults sink.new) (told result) (self.old.out ++ fault_text number fault) }
    {
        let Ok(line) = format!(in self.alloc; "script {number} {fault}\n") else {
            return Status::NoMemory;
        };
        if let Err(NoMemory) = self.out.extend_from_slice(line.as_bytes()) {
            return Status::NoMemory;
        }
        match self.flush(sink) {
            Ok(()) => Status::Script,
            Err(status) => status,
        }
    }

    /// Serves the line that `part` ends.
    fn serve_part<V: Serve>(
        &mut self,
        part: &[u8],
        server: &mut V,
        media: &mut Vec<Box<dyn Medium>>,
    ) -> Result<(), LineError>
        requires ready { IsReady self.old }
        requires can { V.meaning.ready (self.old.number + 1) server.old (held (map disk media.old.items) (map media_faults media.old.items)) }
        ensures number { OnOk result (self.new.number ≡ self.old.number + 1) }
        ensures rest { OnOk result (self.new.rest ≡ []) }
        ensures ready { OnOk result (IsReady self.new) }
        ensures budget { OnOk result (length part.now + 1 + budget self.new ≤ budget self.old) }
        ensures can { OnOk result (V.meaning.ready (self.new.number + 1) server.new (held (map disk media.new.items) (map media_faults media.new.items))) }
        ensures served { (start : Held) (before : List (List ℕ)) (front : List ℕ) → self.old.number + 1 ≡ 1 + length before → V.meaning.ran start before (front ++ self.old.out) server.old (held (map disk media.old.items) (map media_faults media.old.items)) → Serves V.meaning (Refused V.meaning before (strip_carriage_return (self.old.rest ++ part.now))) result start before (strip_carriage_return (self.old.rest ++ part.now)) (front ++ self.new.out) server.new (held (map disk media.old.items) (map media_faults media.old.items)) (held (map disk media.new.items) (map media_faults media.new.items)) }
    {
        let number = self.number + 1;
        if self.rest.as_slice().is_empty() {
            let line = without_return(part);
            serve_within(number, line, server, media, &mut self.out)?;
        } else {
            self.rest.extend_from_slice(part)?;
            let line = without_return(self.rest.as_slice());
            serve_within(number, line, server, media, &mut self.out)?;
            self.rest.clear();
        }
        self.number = number;
        Ok(())
    }

    /// Serves the line that `part` and a line feed end, or tells its fault.
    fn end_line<V: Serve, K: Sink>(
        &mut self,
        part: &[u8],
        server: &mut V,
        media: &mut Vec<Box<dyn Medium>>,
        sink: &mut K,
    ) -> Result<(), Status>
        requires ready { IsReady self.old }
        requires can { V.meaning.ready (self.old.number + 1) server.old (held (map disk media.old.items) (map media_faults media.old.items)) }
        requires feedless { NoFeed part.now }
        ensures ready { OnOk result (IsReady self.new) }
        ensures budget { OnOk result (length part.now + 1 + budget self.new ≤ budget self.old) }
        ensures can { OnOk result (V.meaning.ready (self.new.number + 1) server.new (held (map disk media.new.items) (map media_faults media.new.items))) }
        ensures told { (before : Outside) (left : Option (List ℕ)) (reads : ℕ) (pending : List ℕ) → InSession V.meaning before (outside left reads (K.written sink.old) (K.faults sink.old) (map disk media.old.items) (map media_faults media.old.items)) (part.now ++ 10 ∷ pending) self.old server.old → GoesOn V.meaning result before (outside left reads (K.written sink.new) (K.faults sink.new) (map disk media.new.items) (map media_faults media.new.items)) pending self.new server.new }
    {
        let number = self.number + 1;
        match self.serve_part(part, server, media) {
            Ok(()) => self.flush_full(sink),
            Err(LineError::Fault(fault)) => Err(self.tell_fault(number, fault, sink)),
            Err(LineError::NoMemory) => Err(Status::NoMemory),
        }
    }

    /// Keeps the bytes of a line that has not ended.
    fn keep<V: Serve, K: Sink>(
        &mut self,
        part: &[u8],
        server: &V,
        sink: &mut K,
    ) -> Result<(), Status>
        requires ready { IsReady self.old }
        requires feedless { NoFeed part.now }
        ensures ready { OnOk result (IsReady self.new) }
        ensures number { OnOk result (self.new.number ≡ self.old.number) }
        ensures budget { OnOk result (length part.now + budget self.new ≤ budget self.old) }
        ensures told { (before : Outside) (left : Option (List ℕ)) (reads : ℕ) (disks : List Disk) (faults : List ℕ) → InSession V.meaning before (outside left reads (K.written sink.old) (K.faults sink.old) disks faults) part.now self.old server.now → GoesOn V.meaning result before (outside left reads (K.written sink.new) (K.faults sink.new) disks faults) [] self.new server.now }
    {
        if let Err(NoMemory) = self.rest.extend_from_slice(part) {
            return Err(Status::NoMemory);
        }
        if is_surely_long(self.rest.as_slice()) {
            let number = self.number + 1;
            return Err(self.tell_fault(number, long_fault(number), sink));
        }
        Ok(())
    }

    /// Takes a piece of the input.
    fn take_piece<V: Serve, K: Sink>(
        &mut self,
        piece: &[u8],
        server: &mut V,
        media: &mut Vec<Box<dyn Medium>>,
        sink: &mut K,
    ) -> Result<(), Status>
        requires ready { IsReady self.old }
        requires can { V.meaning.ready (self.old.number + 1) server.old (held (map disk media.old.items) (map media_faults media.old.items)) }
        ensures ready { OnOk result (IsReady self.new) }
        ensures budget { OnOk result (length piece.now + budget self.new ≤ budget self.old) }
        ensures can { OnOk result (V.meaning.ready (self.new.number + 1) server.new (held (map disk media.new.items) (map media_faults media.new.items))) }
        ensures told { (before : Outside) (left : Option (List ℕ)) (reads : ℕ) → InSession V.meaning before (outside left reads (K.written sink.old) (K.faults sink.old) (map disk media.old.items) (map media_faults media.old.items)) piece.now self.old server.old → GoesOn V.meaning result before (outside left reads (K.written sink.new) (K.faults sink.new) (map disk media.new.items) (map media_faults media.new.items)) [] self.new server.new }
    {
        let mut behind = piece;
        while let Some(at) = line_feed(behind) {
            if let Err(status) = self.end_line(&behind[..at], server, media, sink) {
                return Err(status);
            }
            behind = &behind[at + 1..];
        }
        self.keep(behind, server, sink)
    }

    /// Serves the last line, if it has no line feed.
    fn serve_last<V: Serve, K: Sink>(
        &mut self,
        server: &mut V,
        media: &mut Vec<Box<dyn Medium>>,
        sink: &mut K,
    ) -> Result<(), Status>
        requires ready { IsReady self.old }
        requires can { V.meaning.ready (self.old.number + 1) server.old (held (map disk media.old.items) (map media_faults media.old.items)) }
        ensures told { (before : Outside) (left : Option (List ℕ)) (reads : ℕ) → IsAtEnd left → InSession V.meaning before (outside left reads (K.written sink.old) (K.faults sink.old) (map disk media.old.items) (map media_faults media.old.items)) [] self.old server.old → LineEnds V.meaning result before (outside left reads (K.written sink.new) (K.faults sink.new) (map disk media.new.items) (map media_faults media.new.items)) self.new.out server.new }
    {
        if self.rest.as_slice().is_empty() {
            return Ok(());
        }
        let number = self.number + 1;
        match serve_within(number, self.rest.as_slice(), server, media, &mut self.out) {
            Ok(()) => Ok(()),
            Err(LineError::Fault(fault)) => Err(self.tell_fault(number, fault, sink)),
            Err(LineError::NoMemory) => Err(Status::NoMemory),
        }
    }

    /// Says what stands behind the last line, and writes all that waits.
    fn tell_end<V: Serve, K: Sink>(&mut self, server: &mut V, sink: &mut K) -> Status
        ensures told { (before : Outside) (left : Option (List ℕ)) (reads : ℕ) (disks : List Disk) (faults : List ℕ) → AtEnd V.meaning before (outside left reads (K.written sink.old) (K.faults sink.old) disks faults) self.old.out server.old → Ends V.meaning result before (outside left reads (K.written sink.new) (K.faults sink.new) disks faults) }
    {
        if let Err(NoMemory) = server.close(&mut self.out) {
            return Status::NoMemory;
        }
        match self.flush(sink) {
            Ok(()) => Status::Done,
            Err(status) => status,
        }
    }

    /// Serves the last line, and ends the session.
    fn finish<V: Serve, K: Sink>(
        &mut self,
        server: &mut V,
        media: &mut Vec<Box<dyn Medium>>,
        sink: &mut K,
    ) -> Status
        requires ready { IsReady self.old }
        requires can { V.meaning.ready (self.old.number + 1) server.old (held (map disk media.old.items) (map media_faults media.old.items)) }
        ensures told { (before : Outside) (left : Option (List ℕ)) (reads : ℕ) → IsAtEnd left → InSession V.meaning before (outside left reads (K.written sink.old) (K.faults sink.old) (map disk media.old.items) (map media_faults media.old.items)) [] self.old server.old → Ends V.meaning result before (outside left reads (K.written sink.new) (K.faults sink.new) (map disk media.new.items) (map media_faults media.new.items)) }
    {
        match self.serve_last(server, media, sink) {
            Ok(()) => self.tell_end(server, sink),
            Err(status) => status,
        }
    }

    /// Writes what waits, reads a piece of the input into `room` and takes it, and answers how many
    /// bytes it has: 0 at the end.
    fn read_piece<V: Serve, S: Source, K: Sink>(
        &mut self,
        room: &mut [u8],
        server: &mut V,
        media: &mut Vec<Box<dyn Medium>>,
        source: &mut S,
        sink: &mut K,
    ) -> Result<usize, Status>
        requires ready { IsReady self.old }
        requires room { 0 < length room.old }
        requires can { V.meaning.ready (self.old.number + 1) server.old (held (map disk media.old.items) (map media_faults media.old.items)) }
        ensures room { length room.new ≡ length room.old }
        ensures ready { OnOk result (IsReady self.new) }
        ensures budget { IfOk result (λ count. count + budget self.new ≤ budget self.old) }
        ensures can { OnOk result (V.meaning.ready (self.new.number + 1) server.new (held (map disk media.new.items) (map media_faults media.new.items))) }
        ensures told { (before : Outside) → InSession V.meaning before (outside (S.left source.old) (S.faults source.old) (K.written sink.old) (K.faults sink.old) (map disk media.old.items) (map media_faults media.old.items)) [] self.old server.old → PieceEnds V.meaning result before (outside (S.left source.new) (S.faults source.new) (K.written sink.new) (K.faults sink.new) (map disk media.new.items) (map media_faults media.new.items)) self.new server.new }
    {
        if let Err(status) = self.flush(sink) {
            return Err(status);
        }
        match source.read(room) {
            Ok(count) => match self.take_piece(&room[..count], server, media, sink) {
                Ok(()) => Ok(count),
                Err(status) => Err(status),
            },
            Err(Failed) => Err(Status::ReadFault),
        }
    }

    /// Reads the whole input, by pieces that `room` holds, and serves its lines.
    fn run<V: Serve, S: Source, K: Sink>(
        &mut self,
        room: &mut [u8],
        server: &mut V,
        media: &mut Vec<Box<dyn Medium>>,
        source: &mut S,
        sink: &mut K,
    ) -> Status
        requires ready { IsReady self.old }
        requires room { 0 < length room.old }
        requires can { V.meaning.ready (self.old.number + 1) server.old (held (map disk media.old.items) (map media_faults media.old.items)) }
        ensures told { (before : Outside) → InSession V.meaning before (outside (S.left source.old) (S.faults source.old) (K.written sink.old) (K.faults sink.old) (map disk media.old.items) (map media_faults media.old.items)) [] self.old server.old → Ends V.meaning result before (outside (S.left source.new) (S.faults source.new) (K.written sink.new) (K.faults sink.new) (map disk media.new.items) (map media_faults media.new.items)) }
    {
        loop {
            match self.read_piece(room, server, media, source, sink) {
                Ok(0) => return self.finish(server, media, sink),
                Ok(_) => {}
                Err(status) => return status,
            }
        }
    }
}

/// Reads the whole input and serves its lines by `server`, over `media`. What a line brings is
/// written before a read that may wait for the next one.
pub fn serve_lines<V: Serve, S: Source, K: Sink>(
    alloc: Global,
    server: &mut V,
    media: &mut Vec<Box<dyn Medium>>,
    source: &mut S,
    sink: &mut K,
) -> Status
    requires ready { V.meaning.ready 1 server.old (held (map disk media.old.items) (map media_faults media.old.items)) }
    requires fresh { V.meaning.ran (held (map disk media.old.items) (map media_faults media.old.items)) [] [] server.old (held (map disk media.old.items) (map media_faults media.old.items)) }
    ensures ends { Ends V.meaning result (outside (S.left source.old) (S.faults source.old) (K.written sink.old) (K.faults sink.old) (map disk media.old.items) (map media_faults media.old.items)) (outside (S.left source.new) (S.faults source.new) (K.written sink.new) (K.faults sink.new) (map disk media.new.items) (map media_faults media.new.items)) }
{
    let mut session = Session::new(alloc);
    let Ok(mut room) = vec![in alloc; 0u8; PIECE] else {
        return Status::NoMemory;
    };
    session.run(room.as_mut_slice(), server, media, source, sink)
}
