//! Inputs of the two listings, over objects in memory.
use line_session::{Status, serve_lines};
use packet_listing::PacketLister;
use rom_listing::RomLister;
use sbp_base::{MemorySink, MemorySource, NoMemory};
use std::alloc::Global;

/// What is listed.
#[derive(Clone, Copy)]
pub(crate) enum Kind {
    Packets,
    Rom,
}

/// An input, and what is written.
pub(crate) type Case = (&'static str, &'static str);

/// Lists packets.
fn list_packets(
    alloc: Global,
    source: &mut MemorySource,
    sink: &mut MemorySink,
) -> Result<Status, NoMemory> {
    let mut lister = PacketLister::new(alloc)?;
    let mut media = Vec::new(alloc);
    Ok(serve_lines(alloc, &mut lister, &mut media, source, sink))
}

/// Lists a ROM.
fn list_rom(
    alloc: Global,
    source: &mut MemorySource,
    sink: &mut MemorySink,
) -> Result<Status, NoMemory> {
    let mut lister = RomLister::new(alloc)?;
    let mut media = Vec::new(alloc);
    Ok(serve_lines(alloc, &mut lister, &mut media, source, sink))
}

/// Whether an input ends so, and so is written.
pub(crate) fn ends_so(
    alloc: Global,
    kind: Kind,
    input: &[u8],
    failing: [u32; 2],
    status: Status,
    written: &[u8],
) -> Result<bool, NoMemory> {
    let [read, write] = failing;
    let mut source = MemorySource::new(input.to_vec(alloc)?, [read].to_vec(alloc)?);
    let mut sink = MemorySink::new(alloc, [write].to_vec(alloc)?);
    let ended = match kind {
        Kind::Packets => list_packets(alloc, &mut source, &mut sink)?,
        Kind::Rom => list_rom(alloc, &mut source, &mut sink)?,
    };
    Ok(ended == status && sink.bytes() == written)
}

/// The first input that does not end so, where no call fails.
pub(crate) fn other_end(
    alloc: Global,
    kind: Kind,
    status: Status,
    cases: &[Case],
) -> Result<Option<&'static str>, NoMemory> {
    for (input, written) in cases {
        if !ends_so(
            alloc,
            kind,
            input.as_bytes(),
            [0, 0],
            status,
            written.as_bytes(),
        )? {
            return Ok(Some(*input));
        }
    }
    Ok(None)
}
