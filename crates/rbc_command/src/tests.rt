use crate::{Cdb, Command, Sense};
use std::test::Fail;

/// A READ(12) of block 31 and one of 33 blocks; a VERIFY with its bytes; an eject; no command.
#[test]
fn command_blocks(rt: HostRuntime) -> Result<(), Fail> {
    assert_eq!(rt;
        Cdb::read(&[0xa8, 0, 0, 0, 0, 0x1f, 0, 0, 0, 1, 0, 0]),
        Ok(Command::Read { lba: 31, count: 1 })
    );
    assert_eq!(rt;
        Cdb::read(&[0xa8, 0, 0, 0, 0, 0, 0, 0, 0, 0x21, 0, 0]),
        Err(Sense::BAD_FIELD)
    );
    assert_eq!(rt;
        Cdb::read(&[0xaa, 0, 0, 0, 0, 0, 0, 1, 0, 0, 0, 0]),
        Err(Sense::BAD_FIELD)
    );
    assert_eq!(rt;
        Cdb::read(&[0x2f, 2, 0, 0, 0, 0, 0, 0, 1, 0, 0, 0]),
        Err(Sense::BAD_FIELD)
    );
    assert_eq!(rt;
        Cdb::read(&[0x1b, 0, 0, 0, 2, 0, 0, 0, 0, 0, 0, 0]),
        Err(Sense::BAD_FIELD)
    );
    assert_eq!(rt;
        Cdb::read(&[0x04, 0, 0, 0, 0, 0, 0, 0, 0, 0, 0, 0]),
        Err(Sense::NO_COMMAND)
    );
    Ok(())
}
