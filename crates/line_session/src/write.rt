ghost use Rattle.line_session.specs.Session.{WritesFront};

use crate::status::Status;
use sbp_base::{Sink, SinkFault};

/// Writes all of `bytes`; at an error a front of them was written.
pub fn write_all<K: Sink>(sink: &mut K, bytes: &[u8]) -> Result<(), Status>
    ensures { WritesFront (K.written sink.old) (K.written sink.new) (K.faults sink.old) (K.faults sink.new) result bytes.now }
{
    let mut at = 0;
    while at < bytes.len() {
        match sink.write(&bytes[at..]) {
            Ok(taken) => at += taken,
            Err(SinkFault::Failed) => return Err(Status::WriteFault),
            Err(SinkFault::NoMemory) => return Err(Status::NoMemory),
        }
    }
    Ok(())
}
