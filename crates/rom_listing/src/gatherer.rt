ghost use Rattle.std.specs.Prelude.{◌≡◌, ◌≤◌, [], length, IfOk, OnErr};
ghost use Rattle.line_text.specs.Digits.{spelled};
ghost use Rattle.rom_listing.specs.RomListing.{with_spelled};
ghost use Rattle.rom_listing.specs.Meaning.{Gathers};

use crate::listing::push_listing;
use crate::quadlets::take_bytes;
use line_session::{LineError, Serve};
use line_text::{Digits, DigitsError, NO_DIGITS};
use rbc_disk::Medium;
use sbp_base::{Bytes, NoMemory};
use std::alloc::Global;
use std::marker::Model;

/// What gathers the quadlets of lines, 256 at most, and lists them at the end as one configuration
/// ROM.
#[derive(Drop)]
pub struct RomLister {
    alloc: Global,
    digits: Digits,
    quads: Vec<u32>,
}

impl Model for RomLister {
    ghost use Rattle.std.specs.Prelude.{ℕ, List, ◌≤◌, length};

    ghost Value = { List ℕ };

    ghost view = { λ lister. lister.quads.items };

    ghost invariant = { λ lister. length lister.quads.items ≤ 256 };
}

impl RomLister {
    /// No line was read.
    pub fn new(alloc: Global) -> Result<Self, NoMemory>
        ensures { IfOk result (λ lister. lister ≡ []) }
    {
        Ok(RomLister {
            alloc,
            digits: Digits::new(alloc)?,
            quads: Vec::new(alloc),
        })
    }

    /// Takes the quadlets of a line.
    fn take_line(&mut self, line: &[u8]) -> Result<(), LineError>
        requires { length line.now ≤ 8192 }
        ensures taken { Gathers result (with_spelled self.old (spelled line.now)) self.new }
        ensures kept { OnErr result (self.new ≡ self.old) }
    {
        match self.digits.read(line) {
            Ok(()) => take_bytes(self.alloc, self.digits.as_slice(), &mut self.quads),
            Err(DigitsError::NoDigits) => Err(LineError::Fault(NO_DIGITS)),
            Err(DigitsError::NoMemory) => Err(LineError::NoMemory),
        }
    }
}

impl Serve for RomLister {
    ghost use Rattle.rom_listing.specs.Meaning.{rom_meaning};

    ghost meaning = { rom_meaning };

    fn serve_line(
        &mut self,
        _number: u32,
        line: &[u8],
        _media: &mut Vec<Box<dyn Medium>>,
        _out: &mut Bytes,
    ) -> Result<(), LineError> {
        self.take_line(line)
    }

    fn close(&mut self, out: &mut Bytes) -> Result<(), NoMemory> {
        push_listing(self.alloc, &self.quads, out)
    }
}
