use crate::{
    Bytes, Failed, Generation, Lengths, MemorySink, MemorySource, NodeId, Offset, Sink, SinkFault,
    Source, Speed, put_quad, quad_at,
};
use std::test::Fail;

/// The second call fails and takes nothing; the bytes come in pieces, and then the end.
#[test]
fn source_fails_once(rt: HostRuntime) -> Result<(), Fail> {
    let bytes = b"abcde".to_vec(rt.alloc())?;
    let failing = [2u32].to_vec(rt.alloc())?;
    let mut source = MemorySource::new(bytes, failing);
    let mut piece = [0u8; 3];
    assert_eq!(rt; source.read(&mut piece), Ok(3));
    assert_eq!(rt; piece, *b"abc");
    assert_eq!(rt; source.read(&mut piece), Err(Failed));
    assert_eq!(rt; source.read(&mut piece), Ok(2));
    assert_eq!(rt; piece, *b"dec");
    assert_eq!(rt; source.read(&mut piece), Ok(0));
    Ok(())
}

/// The first call fails and adds nothing; the next one adds all.
#[test]
fn sink_fails_once(rt: HostRuntime) -> Result<(), Fail> {
    let failing = [1u32].to_vec(rt.alloc())?;
    let mut sink = MemorySink::new(rt.alloc(), failing);
    assert_eq!(rt; sink.write(b"no"), Err(SinkFault::Failed));
    assert_eq!(rt; sink.write(b"yes"), Ok(3));
    assert_eq!(rt; sink.bytes(), b"yes".as_slice());
    Ok(())
}

/// Bytes are copied, grow and are cleared.
#[test]
fn bytes_grow(rt: HostRuntime) -> Result<(), Fail> {
    let mut bytes = Bytes::from_slice(rt.alloc(), b"ab").ok().ok_or("memory")?;
    bytes.push(b'c').ok().ok_or("memory")?;
    bytes.extend_from_slice(b"de").ok().ok_or("memory")?;
    assert_eq!(rt; bytes.as_slice(), b"abcde".as_slice());
    bytes.clear();
    assert_eq!(rt; bytes.as_slice(), Bytes::new(rt.alloc()).as_slice());
    Ok(())
}

/// Lengths are copied and grow.
#[test]
fn lengths_grow(rt: HostRuntime) -> Result<(), Fail> {
    let mut lengths = Lengths::from_slice(rt.alloc(), &[8]).ok().ok_or("memory")?;
    lengths.push(2048).ok().ok_or("memory")?;
    assert_eq!(rt; lengths.as_slice(), [8u16, 2048].as_slice());
    assert_eq!(rt; Lengths::new(rt.alloc()).as_slice().len(), 0);
    Ok(())
}

/// Node IDs on the local bus and of any bits, offsets at their last value, generations and speeds.
#[test]
fn numbers_of_the_bus(rt: HostRuntime) -> Result<(), Fail> {
    assert_eq!(rt; NodeId::local(62), Some(NodeId::from_raw(0xfffe)));
    assert_eq!(rt; NodeId::local(63), None);
    assert_eq!(rt; NodeId::from_raw(0x1a43).physical(), 3);
    assert_eq!(rt; NodeId::from_raw(0x1a43).raw(), 0x1a43);
    let last = Offset::new(0xffff_ffff_ffff).ok_or("offset")?;
    assert_eq!(rt; last.value(), 0xffff_ffff_ffff);
    assert_eq!(rt; last.plus(1), None);
    assert_eq!(rt; Offset::new(0x1_0000_0000_0000), None);
    assert_eq!(rt; Generation::first().next().number(), 1);
    assert_eq!(rt; Speed::S100.largest(), 512);
    assert_eq!(rt; Speed::S200.largest(), 1024);
    assert_eq!(rt; Speed::S400.largest(), 2048);
    Ok(())
}

/// A quadlet is written most significant byte first, between bytes that stay.
#[test]
fn quadlet_is_written(rt: HostRuntime) -> Result<(), Fail> {
    let mut bytes = [9u8; 6];
    put_quad(&mut bytes, 1, 0x0102_0304);
    assert_eq!(rt; bytes, [9, 1, 2, 3, 4, 9]);
    assert_eq!(rt; quad_at(&bytes, 1), 0x0102_0304);
    Ok(())
}
