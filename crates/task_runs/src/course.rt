use crate::bench::Bench;
use crate::side::side_line;
use hex::{decode, encode_upper};
use sbp_journal::{Judged, Outbox, Outgoing, TargetFault};
use std::alloc::Global;
use std::test::Fail;

/// The most packets, and the most sides, of a call.
const MOST: usize = 32;

/// A write of ORB_POINTER and one of AGENT_RESET of initiator 0, but for their last quadlet.
const POINTER: &str = "FFC00110FFC1FFFFF0040008000800000000000020";

const RESET: &str = "FFC00100FFC1FFFFF0040004";

/// A target on its way: the packets that it sent with the latest first, what it handed out in the last
/// call, and the text so far.
#[derive(Drop)]
struct Course {
    alloc: Global,
    bench: Bench,
    asked: Vec<Outgoing>,
    outbox: Outbox,
    told: String,
}

/// The bytes that hexadecimal digits are.
fn bytes_of(alloc: Global, digits: &str) -> Result<Vec<u8>, Fail> {
    Ok(decode(alloc, digits).ok().ok_or("digits")?)
}

impl Course {
    /// A packet is delivered.
    fn deliver(&mut self, digits: &str) -> Result<(), Fail> {
        let bytes = bytes_of(self.alloc, digits)?;
        match self.bench.receive(bytes.as_slice(), &mut self.outbox)? {
            Judged::Got => self.told.push_str("got\n")?,
            Judged::Ignored(cause) => {
                let line = format!(in self.alloc; "ignored {cause:?}\n")?;
                self.told.push_str(line.as_str())?
            }
        }
        Ok(())
    }

    /// The latest request with these bytes times out.
    fn time_out(&mut self, digits: &str) -> Result<(), Fail> {
        let bytes = bytes_of(self.alloc, digits)?;
        let found = self
            .asked
            .iter()
            .position(|asked| asked.bytes.as_slice() == bytes.as_slice());
        let at = found.ok_or("request")?;
        let peer = self.asked[at].to;
        let label = self.asked[at].label.ok_or("label")?;
        let word = match self.bench.expire(peer, label, &mut self.outbox) {
            Ok(()) => "timed out\n",
            Err(TargetFault::Stale) => "stale\n",
            Err(TargetFault::NoMemory) => "memory\n",
        };
        self.told.push_str(word)?;
        Ok(())
    }

    /// So many labels to initiator 0, in hexadecimal digits, are under way for nobody: as often a list is
    /// opened, and the agent is reset while its first ORB is read.
    fn keep_busy(&mut self, digits: &str) -> Result<(), Fail> {
        let bytes = bytes_of(self.alloc, digits)?;
        let [count] = bytes.as_slice() else {
            return Err("count".into());
        };
        for round in 0..*count {
            let write = format!(in self.alloc; "{POINTER}{:06X}", u32::from(round) * 64)?;
            self.give(write.as_str())?;
            let write = format!(in self.alloc; "{RESET}{:08X}", round)?;
            self.give(write.as_str())?;
        }
        Ok(())
    }

    /// A packet is delivered, and what comes of it is not told.
    fn give(&mut self, digits: &str) -> Result<(), Fail> {
        let bytes = bytes_of(self.alloc, digits)?;
        self.bench.receive(bytes.as_slice(), &mut self.outbox)?;
        self.outbox.clear();
        Ok(())
    }

    /// Does what a line says.
    fn act(&mut self, line: &str) -> Result<(), Fail> {
        match line.split_once(' ') {
            None => self.deliver(line),
            Some(("timeout", digits)) => self.time_out(digits),
            Some(("busy", digits)) => self.keep_busy(digits),
            Some(_) => Err("line".into()),
        }
    }

    /// Tells what was handed out: sides, then packets, each to whom; a request is kept.
    fn tell(&mut self) -> Result<(), Fail> {
        for _ in 0..MOST {
            let Some(side) = self.outbox.take_side() else {
                break;
            };
            let line = side_line(self.alloc, &side)?;
            self.told.push_str(line.as_str())?;
        }
        for _ in 0..MOST {
            let Some(packet) = self.outbox.take_packet() else {
                break;
            };
            self.tell_packet(packet)?;
        }
        Ok(())
    }

    fn tell_packet(&mut self, packet: Outgoing) -> Result<(), Fail> {
        let sign = if packet.label.is_some() { '?' } else { '<' };
        let digits = encode_upper(self.alloc, packet.bytes.as_slice())?;
        let line = format!(in self.alloc; "{sign} {:X} {digits}\n", packet.to.raw())?;
        self.told.push_str(line.as_str())?;
        self.asked.insert(0, packet)?;
        Ok(())
    }

    /// Does what each line says that begins with `> `, and tells it.
    fn play(&mut self, text: &str) -> Result<(), Fail> {
        for line in text.lines() {
            if let Some(input) = line.strip_prefix("> ") {
                self.told.push_str(line)?;
                self.told.push_str("\n")?;
                self.act(input)?;
                self.tell()?;
            }
        }
        Ok(())
    }
}

/// What comes of each line of a text that begins with `> `, behind it: the judgement, the sides, and the
/// packets, a response with `<` and a request with `?`.
pub(crate) fn told_of(alloc: Global, bench: Bench, text: &str) -> Result<String, Fail> {
    let mut course = Course {
        alloc,
        bench,
        asked: Vec::new(alloc),
        outbox: Outbox::new(alloc),
        told: String::new(alloc),
    };
    course.play(text)?;
    Ok(course.told)
}
