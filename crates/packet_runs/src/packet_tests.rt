use async_packet::{
    Header, Label, PacketFault, PacketRef, decode, encode_into, encoded_len, is_valid,
};
use sbp_base::{Generation, NodeId, Offset};

/// From node FFC2h to FFC1h, label 5, retry code 1, priority 2.
fn header() -> Header {
    Header {
        destination: NodeId::from_raw(0xffc1),
        label: 5,
        retry: 1,
        priority: 2,
        source: NodeId::from_raw(0xffc2),
    }
}

/// Whether the fields of writes stand at their places; pad bytes and the extended_tcode of a block are free.
fn writes_are_read() -> Option<bool> {
    let offset = Offset::new(0xffff_f001_0008)?;
    let quadlet = PacketRef::WriteQuadlet {
        header: header(),
        offset,
        value: 0x0102_0304,
    };
    let block = PacketRef::WriteBlock {
        header: header(),
        offset,
        payload: b"abc",
    };
    let is_so = decode(b"\xff\xc1\x15\x02\xff\xc2\xff\xff\xf0\x01\x00\x08\x01\x02\x03\x04")
        == Ok(quadlet)
        && decode(b"\xff\xc1\x15\x12\xff\xc2\xff\xff\xf0\x01\x00\x08\x00\x03\x12\x34abc\x99")
            == Ok(block);
    Some(is_so)
}

/// Whether those of responses do; their reserved bits are free.
fn responses_are_read() -> bool {
    let quadlet = PacketRef::ReadQuadletResponse {
        header: header(),
        rcode: 7,
        value: 0x0102_0304,
    };
    let lock = PacketRef::LockResponse {
        header: header(),
        rcode: 4,
        extended: 2,
        payload: b"",
    };
    decode(b"\xff\xc1\x15\x62\xff\xc2\x7f\xff\x88\x88\x88\x88\x01\x02\x03\x04") == Ok(quadlet)
        && decode(b"\xff\xc1\x15\xb2\xff\xc2\x4a\xbc\x88\x88\x88\x88\x00\x00\x00\x02") == Ok(lock)
}

/// The canonical spelling of each kind, in the order of the tcodes.
const SPELLINGS: [&[u8]; 9] = [
    b"\xff\xc1\x15\x02\xff\xc2\xff\xff\xf0\x01\x00\x08\x01\x02\x03\x04",
    b"\xff\xc1\x15\x12\xff\xc2\xff\xff\xf0\x01\x00\x08\x00\x05\x00\x00abcde\x00\x00\x00",
    b"\xff\xc1\x15\x22\xff\xc2\x40\x00\x00\x00\x00\x00",
    b"\xff\xc1\x15\x42\xff\xc2\xff\xff\xf0\x01\x00\x08",
    b"\xff\xc1\x15\x52\xff\xc2\xff\xff\xf0\x01\x00\x08\x08\x00\x00\x00",
    b"\xff\xc1\x15\x62\xff\xc2\x00\x00\x00\x00\x00\x00\x01\x02\x03\x04",
    b"\xff\xc1\x15\x72\xff\xc2\x00\x00\x00\x00\x00\x00\x00\x04\x00\x00abcd",
    b"\xff\xc1\x15\x92\xff\xc2\xff\xff\xf0\x01\x00\x08\x00\x08\x00\x02abcdefgh",
    b"\xff\xc1\x15\xb2\xff\xc2\x00\x00\x00\x00\x00\x00\x00\x04\x00\x03abcd",
];

/// Whether what is read of bytes is written as it was, and no byte behind it.
fn is_written_back(bytes: &[u8]) -> bool {
    let fill = [0x77u8; 32];
    let mut out = fill;
    match decode(bytes) {
        Ok(packet) if is_valid(&packet) && encoded_len(&packet) <= out.len() => {
            let count = encode_into(&packet, &mut out);
            out[..count] == bytes[..] && out[count..] == fill[count..]
        }
        _ => false,
    }
}

/// Whether each kind is.
fn each_is_written_back() -> bool {
    for bytes in &SPELLINGS {
        if !is_written_back(bytes) {
            return false;
        }
    }
    true
}

/// Bytes that are no packet, each with the first fault that holds.
const FAULTS: [(&[u8], PacketFault); 11] = [
    (b"\xff\xc1\x15", PacketFault::Short { need: 4 }),
    (b"\xff\xc1\x15\x32", PacketFault::Code { tcode: 3 }),
    (
        b"\xff\xc1\x15\x42\xff\xc2\xff\xff\xf0\x01\x00",
        PacketFault::Short { need: 12 },
    ),
    (
        b"\xff\xc1\x15\x12\xff\xc2\xff\xff\xf0\x01\x00\x08\x08\x01\x00",
        PacketFault::Short { need: 16 },
    ),
    (
        b"\xff\xc1\x15\x12\xff\xc2\xff\xff\xf0\x01\x00\x08\x08\x01\x00\x00",
        PacketFault::TooBig { length: 2049 },
    ),
    (
        b"\xff\xc1\x15\x12\xff\xc2\xff\xff\xf0\x01\x00\x08\x08\x00\x00\x00",
        PacketFault::Short { need: 2064 },
    ),
    (
        b"\xff\xc1\x15\x52\xff\xc2\xff\xff\xf0\x01\x00\x08\x08\x01\x00\x00",
        PacketFault::TooBig { length: 2049 },
    ),
    (
        b"\xff\xc1\x15\x92\xff\xc2\xff\xff\xf0\x01\x00\x08\x00\x05\x00\x07",
        PacketFault::Extended { code: 7 },
    ),
    (
        b"\xff\xc1\x15\x92\xff\xc2\xff\xff\xf0\x01\x00\x08\x00\x04\x00\x02",
        PacketFault::LockLength { length: 4 },
    ),
    (
        b"\xff\xc1\x15\x92\xff\xc2\xff\xff\xf0\x01\x00\x08\x00\x08\x00\x02abcdefg",
        PacketFault::Short { need: 24 },
    ),
    (
        b"\xff\xc1\x15\x22\xff\xc2\x40\x00\x00\x00\x00\x00\x00",
        PacketFault::Long { extra: 1 },
    ),
];

/// Whether each is answered.
fn first_faults() -> bool {
    for (bytes, fault) in &FAULTS {
        if decode(bytes) != Err(*fault) {
            return false;
        }
    }
    true
}

/// Whether a label tells what it was made of.
fn label_is_told() -> bool {
    let label = Label::new(63, Generation::first(), 9);
    label.number() == 63 && label.generation() == Generation::first() && label.serial() == 9
}

/// Packets that are read and written, and bytes that are none.
#[test]
fn packets(rt: HostRuntime) {
    assert!(rt; writes_are_read() == Some(true));
    assert!(rt; responses_are_read());
    assert!(rt; each_is_written_back());
    assert!(rt; first_faults());
    assert!(rt; label_is_told());
}
