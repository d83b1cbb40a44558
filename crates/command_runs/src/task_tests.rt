use crate::cases::holds;
use crate::task_texts::{FAULTY_TASKS, TASKS};
use sbp_command::Status;
use std::test::Fail;

/// Scripts of `tasks` without a faulty line.
#[test]
fn tasks_run(rt: HostRuntime) -> Result<(), Fail> {
    for case in TASKS.split("=\n") {
        assert!(rt; holds(rt.alloc(), "tasks", Status::Done, case)?, "{case}");
    }
    Ok(())
}

/// Scripts of `tasks` with a faulty line.
#[test]
fn faulty_lines_of_tasks_are_told(rt: HostRuntime) -> Result<(), Fail> {
    for case in FAULTY_TASKS.split("=\n") {
        assert!(rt; holds(rt.alloc(), "tasks", Status::Script, case)?, "{case}");
    }
    Ok(())
}
