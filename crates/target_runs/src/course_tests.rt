use crate::bench::Bench;
use crate::course::is_told;
use crate::texts::{
    ABORTED, DISC_CHANGE, EXCLUSIVE, FIFTEEN_LEFT, KEYED, LAST_LABEL, LATE_STATUS, NO_LABELS,
    READ_AHEAD, ROWS, SIXTEEN_LEFT, SIXTH_SOURCE, UNIT_RESET, WHOLE_PACKETS,
};
use media_bay::Bay;
use rbc_disk::{EmptyMedium, Medium, RamMedium};
use std::alloc::Global;
use std::test::Fail;

/// A target whose unit 0 is a bay with two discs; where it is ready, two initiators have a login.
fn bench(alloc: Global, is_ready: bool) -> Result<Bench, Fail> {
    let mut shelf = Vec::new(alloc);
    shelf.push(RamMedium::new(alloc, 64, 0x00)?)?;
    shelf.push(RamMedium::new(alloc, 64, 0x77)?)?;
    let bay: Box<dyn Medium> = Box::new(alloc, Bay::new(64, shelf))?;
    let second: Box<dyn Medium> = Box::new(alloc, EmptyMedium::new(64))?;
    let third: Box<dyn Medium> = Box::new(alloc, EmptyMedium::new(64))?;
    let ready = if is_ready { 2 } else { 0 };
    Ok(Bench::new(alloc, ready, bay, second, third)?)
}

/// Each course, with the logins of two initiators or with none.
const COURSES: [(bool, &str); 14] = [
    (true, WHOLE_PACKETS),
    (true, LATE_STATUS),
    (true, ABORTED),
    (true, UNIT_RESET),
    (false, EXCLUSIVE),
    (false, KEYED),
    (true, DISC_CHANGE),
    (true, READ_AHEAD),
    (true, NO_LABELS),
    (true, LAST_LABEL),
    (true, SIXTEEN_LEFT),
    (true, FIFTEEN_LEFT),
    (false, SIXTH_SOURCE),
    (true, ROWS),
];

/// The first course that a target goes otherwise.
fn other_course(alloc: Global) -> Result<Option<&'static str>, Fail> {
    for (is_ready, text) in &COURSES {
        if !is_told(alloc, bench(alloc, *is_ready)?, text)? {
            return Ok(Some(*text));
        }
    }
    Ok(None)
}

#[test]
fn courses(rt: HostRuntime) -> Result<(), Fail> {
    assert_eq!(rt; other_course(rt.alloc())?, None);
    Ok(())
}
