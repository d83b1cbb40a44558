ghost use Rattle.std.specs.Prelude.{◌≡◌, ◌≤◌, ◌++◌, [], length, IfOk, OnOk};
ghost use Rattle.packet_listing.specs.Listing.{listed};
ghost use Rattle.packet_listing.specs.Meaning.{ListsLine};

use crate::packet::{push_packet, push_refusal};
use async_packet::decode;
use line_session::{LineError, Serve};
use line_text::{Digits, DigitsError, NO_DIGITS};
use rbc_disk::Medium;
use sbp_base::{Bytes, NoMemory};
use std::alloc::Global;

/// What lists the packets of lines.
#[derive(Drop)]
pub struct PacketLister {
    digits: Digits,
}

impl PacketLister {
    /// No line was read.
    pub fn new(alloc: Global) -> Result<Self, NoMemory>
        ensures { IfOk result (λ lister. lister.digits ≡ []) }
    {
        Ok(PacketLister {
            digits: Digits::new(alloc)?,
        })
    }

    /// Adds what a line brings.
    fn list_line(&mut self, line: &[u8], out: &mut Bytes) -> Result<(), LineError>
        requires { length line.now ≤ 8192 }
        ensures { ListsLine result line.now out.old out.new }
    {
        match self.digits.read(line) {
            Ok(()) => Ok(push_listed(self.digits.as_slice(), out)?),
            Err(DigitsError::NoDigits) => Err(LineError::Fault(NO_DIGITS)),
            Err(DigitsError::NoMemory) => Err(LineError::NoMemory),
        }
    }
}

impl Serve for PacketLister {
    ghost use Rattle.packet_listing.specs.Meaning.{list_meaning};

    ghost meaning = { list_meaning };

    fn serve_line(
        &mut self,
        _number: u32,
        line: &[u8],
        _media: &mut Vec<Box<dyn Medium>>,
        out: &mut Bytes,
    ) -> Result<(), LineError> {
        self.list_line(line, out)
    }

    fn close(&mut self, _out: &mut Bytes) -> Result<(), NoMemory> {
        Ok(())
    }
}

/// Adds the line of text that bytes bring: the packet that they spell, or their fault. No bytes bring
/// none.
fn push_listed(bytes: &[u8], out: &mut Bytes) -> Result<(), NoMemory>
    ensures { OnOk result (out.new ≡ out.old ++ listed bytes.now) }
{
    if bytes.is_empty() {
        return Ok(());
    }
    match decode(bytes) {
        Ok(packet) => push_packet(out, &packet),
        Err(fault) => push_refusal(out, fault),
    }
}
