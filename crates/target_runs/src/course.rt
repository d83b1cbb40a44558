use crate::bench::Bench;
use crate::side::side_line;
use hex::{decode, encode_upper};
use sbp_base::{Generation, NoMemory, NodeId};
use sbp_journal::{Judged, Outbox, Outgoing, TargetFault};
use std::alloc::Global;
use std::test::Fail;

/// The most packets, and the most sides, of a call.
const MOST: usize = 32;

/// A write of MANAGEMENT_AGENT of initiator 0, but for the low quadlet of the address.
const MANAGEMENT: &str = "FFC00110FFC1FFFFF00100000008000000000000";

/// A target on its way: the generation that it is in, the packets that it sent with the latest first,
/// what it handed out in the last call, and the text so far.
#[derive(Drop)]
struct Course {
    alloc: Global,
    bench: Bench,
    generation: Generation,
    asked: Vec<Outgoing>,
    outbox: Outbox,
    told: String,
}

/// The bytes that hexadecimal digits are.
fn bytes_of(alloc: Global, digits: &str) -> Result<Vec<u8>, Fail> {
    Ok(decode(alloc, digits).ok().ok_or("digits")?)
}

impl Course {
    /// A packet of a generation is delivered.
    fn deliver(&mut self, generation: Generation, digits: &str) -> Result<(), Fail> {
        let bytes = bytes_of(self.alloc, digits)?;
        let judged = self
            .bench
            .receive(generation, bytes.as_slice(), &mut self.outbox)?;
        match judged {
            Judged::Got => self.told.push_str("got\n")?,
            Judged::Ignored(cause) => {
                let line = format!(in self.alloc; "ignored {cause:?}\n")?;
                self.told.push_str(line.as_str())?
            }
        }
        Ok(())
    }

    /// The latest request with these bytes times out.
    fn time_out(&mut self, digits: &str) -> Result<(), Fail> {
        let bytes = bytes_of(self.alloc, digits)?;
        let found = self
            .asked
            .iter()
            .position(|asked| asked.bytes.as_slice() == bytes.as_slice());
        let at = found.ok_or("request")?;
        let peer = self.asked[at].to;
        let label = self.asked[at].label.ok_or("label")?;
        let word = match self.bench.expire(peer, label, &mut self.outbox) {
            Ok(()) => "timed out\n",
            Err(TargetFault::Stale) => "stale\n",
            Err(TargetFault::NoMemory) => "memory\n",
        };
        self.told.push_str(word)?;
        Ok(())
    }

    /// The target sees the next generation, with this ID.
    fn see(&mut self, digits: &str) -> Result<(), Fail> {
        let bytes = bytes_of(self.alloc, digits)?;
        let [high, low] = bytes.as_slice() else {
            return Err("ID".into());
        };
        let id = NodeId::from_raw(u16::from_be_bytes([*high, *low]));
        if self.generation.number() > 1000 {
            return Err("generation".into());
        }
        self.generation = self.generation.next();
        self.bench.see(self.generation, id, &mut self.outbox)?;
        Ok(())
    }

    /// The key of unit 0 is set.
    fn set_key(&mut self, digits: &str) -> Result<(), Fail> {
        let bytes = bytes_of(self.alloc, digits)?;
        let key = <[u8; 8]>::try_from(bytes.as_slice()).ok().ok_or("key")?;
        self.bench.set_key(0, key);
        Ok(())
    }

    /// So many labels to initiator 0, in hexadecimal digits, come to rest: as often a management operation
    /// of it begins, and its first read times out.
    fn lay_to_rest(&mut self, digits: &str) -> Result<(), Fail> {
        let bytes = bytes_of(self.alloc, digits)?;
        let [count] = bytes.as_slice() else {
            return Err("count".into());
        };
        for round in 0..*count {
            let write = format!(in self.alloc; "{MANAGEMENT}{:08X}", round)?;
            let bytes = bytes_of(self.alloc, write.as_str())?;
            self.bench
                .receive(self.generation, bytes.as_slice(), &mut self.outbox)?;
            self.time_out_last()?;
        }
        self.outbox.clear();
        Ok(())
    }

    /// The request that was sent last times out.
    fn time_out_last(&mut self) -> Result<(), Fail> {
        for _ in 0..MOST {
            let Some(packet) = self.outbox.take_packet() else {
                break;
            };
            if let Some(label) = packet.label {
                let _ended = self.bench.expire(packet.to, label, &mut self.outbox);
            }
        }
        Ok(())
    }

    /// Does what a line says.
    fn act(&mut self, line: &str) -> Result<(), Fail> {
        match line.split_once(' ') {
            None if line == "tick" => Ok(self.bench.tick(&mut self.outbox)?),
            None => self.deliver(self.generation, line),
            Some(("first", digits)) => self.deliver(Generation::first(), digits),
            Some(("timeout", digits)) => self.time_out(digits),
            Some(("rest", digits)) => self.lay_to_rest(digits),
            Some(("see", digits)) => self.see(digits),
            Some(("key", digits)) => self.set_key(digits),
            Some(_) => Err("line".into()),
        }
    }

    /// Tells what was handed out: sides, then packets, each to whom; a request is kept.
    fn tell(&mut self) -> Result<(), Fail> {
        for _ in 0..MOST {
            let Some(side) = self.outbox.take_side() else {
                break;
            };
            let line = side_line(self.alloc, &side)?;
            self.told.push_str(line.as_str())?;
        }
        for _ in 0..MOST {
            let Some(packet) = self.outbox.take_packet() else {
                break;
            };
            self.tell_packet(packet)?;
        }
        Ok(())
    }

    fn tell_packet(&mut self, packet: Outgoing) -> Result<(), Fail> {
        let sign = if packet.label.is_some() { '?' } else { '<' };
        let digits = encode_upper(self.alloc, packet.bytes.as_slice())?;
        let line = format!(in self.alloc; "{sign} {:X} {digits}\n", packet.to.raw())?;
        self.told.push_str(line.as_str())?;
        self.asked.insert(0, packet)?;
        Ok(())
    }

    /// Does what each line says that begins with `> `, and tells it.
    fn play(&mut self, text: &str) -> Result<(), Fail> {
        for line in text.lines() {
            if let Some(input) = line.strip_prefix("> ") {
                self.told.push_str(line)?;
                self.told.push_str("\n")?;
                self.act(input)?;
                self.tell()?;
            }
        }
        Ok(())
    }
}

/// Whether a text has what comes of each of its lines that begins with `> ` behind it: the judgement, the
/// sides, and the packets, a response with `<` and a request with `?`.
pub(crate) fn is_told(alloc: Global, bench: Bench, text: &str) -> Result<bool, Fail> {
    let mut course = Course {
        alloc,
        bench,
        generation: Generation::first(),
        asked: Vec::new(alloc),
        outbox: Outbox::new(alloc),
        told: String::new(alloc),
    };
    course.play(text)?;
    Ok(course.told.as_str() == text)
}
