//! Calls of the program over objects in memory.
use media_bay::Bay;
use rbc_disk::{EmptyMedium, FaultyMedium, Medium, ProtectedMedium, RamMedium};
use sbp_base::{MemorySink, MemorySource};
use sbp_command::{Status, sbp2};
use std::alloc::Global;
use std::test::Fail;

/// How a call ended, and what it wrote.
#[derive(Drop)]
pub(crate) struct Ended {
    pub(crate) status: Status,
    pub(crate) written: String,
}

/// The media of the program: a bay with two discs, one that can't be written, and one whose second call
/// fails.
pub(crate) fn program_media(alloc: Global) -> Result<Vec<Box<dyn Medium>>, Fail> {
    let mut shelf = Vec::new(alloc);
    shelf.push(RamMedium::new(alloc, 64, 0x00)?)?;
    shelf.push(RamMedium::new(alloc, 64, 0x77)?)?;
    let bay: Box<dyn Medium> = Box::new(alloc, Bay::new(64, shelf))?;
    let locked: Box<dyn Medium> = Box::new(alloc, ProtectedMedium::new(alloc, 64, 0x5a)?)?;
    let calls = vec![in alloc; 2u32; 1]?;
    let faulty: Box<dyn Medium> = Box::new(alloc, FaultyMedium::new(alloc, 64, 0x00, calls)?)?;
    let mut media = Vec::new(alloc);
    media.push(bay)?;
    media.push(locked)?;
    media.push(faulty)?;
    Ok(media)
}

/// The only medium of a program, of 64 blocks.
#[derive(Clone, Copy)]
pub(crate) enum Alone {
    /// Each byte is 00h.
    Blank,
    /// Each byte is this one, and this call fails.
    Failing(u8, u32),
    /// It has no disc.
    Absent,
}

/// A medium that stands alone.
pub(crate) fn media_of(alloc: Global, medium: Alone) -> Result<Vec<Box<dyn Medium>>, Fail> {
    let mut media: Vec<Box<dyn Medium>> = Vec::new(alloc);
    match medium {
        Alone::Blank => media.push(Box::new(alloc, RamMedium::new(alloc, 64, 0)?)?)?,
        Alone::Failing(fill, call) => {
            let calls = vec![in alloc; call; 1]?;
            media.push(Box::new(alloc, FaultyMedium::new(alloc, 64, fill, calls)?)?)?
        }
        Alone::Absent => media.push(Box::new(alloc, EmptyMedium::new(64))?)?,
    }
    Ok(media)
}

/// Serves words, which have one blank between them. `reads` and `writes` name the calls of the source and of
/// the sink that fail.
pub(crate) fn call(
    alloc: Global,
    words: &str,
    media: &mut Vec<Box<dyn Medium>>,
    input: &str,
    reads: &[u32],
    writes: &[u32],
) -> Result<Ended, Fail> {
    if media.is_empty() || media.len() > 4 {
        return Err("media".into());
    }
    let mut given = Vec::new(alloc);
    if !words.is_empty() {
        for word in words.split(" ") {
            given.push(String::from_str(alloc, word)?)?;
        }
    }
    let mut source = MemorySource::new(input.as_bytes().to_vec(alloc)?, reads.to_vec(alloc)?);
    let mut sink = MemorySink::new(alloc, writes.to_vec(alloc)?);
    let status = sbp2(alloc, given.as_slice(), media, &mut source, &mut sink);
    let written = String::from_utf8(sink.bytes().to_vec(alloc)?)?;
    Ok(Ended { status, written })
}

/// Runs a script over the media of the program.
pub(crate) fn run(alloc: Global, script: &str) -> Result<Ended, Fail> {
    let mut media = program_media(alloc)?;
    call(alloc, "run", &mut media, script, &[], &[])
}
