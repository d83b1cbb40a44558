use crate::cases::holds;
use crate::queue_texts::{FAULTY_QUEUES, QUEUES};
use sbp_command::Status;
use std::test::Fail;

/// Queues without a faulty line.
#[test]
fn queues_run(rt: HostRuntime) -> Result<(), Fail> {
    for case in QUEUES.split("=\n") {
        assert!(rt; holds(rt.alloc(), "queue", Status::Done, case)?, "{case}");
    }
    Ok(())
}

/// Queues with a faulty line.
#[test]
fn faulty_lines_of_queues_are_told(rt: HostRuntime) -> Result<(), Fail> {
    for case in FAULTY_QUEUES.split("=\n") {
        assert!(rt; holds(rt.alloc(), "queue", Status::Script, case)?, "{case}");
    }
    Ok(())
}
