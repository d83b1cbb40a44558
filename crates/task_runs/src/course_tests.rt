use crate::bench::Bench;
use crate::course::told_of;
use crate::texts::{
    CUT_OFF, EIGHT, NO_FETCH, NO_LABEL, NO_STATUS, OVERLAP, REFUSED_STATUS, ROWS, TIMED_OUT,
};
use rbc_disk::{Medium, RamMedium};
use std::alloc::Global;
use std::test::Fail;

/// A target over a disk of 64 blocks of zeros.
fn bench(alloc: Global) -> Result<Bench, Fail> {
    let medium: Box<dyn Medium> = Box::new(alloc, RamMedium::new(alloc, 64, 0x00)?)?;
    Ok(Bench::new(alloc, medium)?)
}

const COURSES: [&str; 9] = [
    OVERLAP,
    EIGHT,
    CUT_OFF,
    TIMED_OUT,
    REFUSED_STATUS,
    ROWS,
    NO_FETCH,
    NO_STATUS,
    NO_LABEL,
];

#[test]
fn courses(rt: HostRuntime) -> Result<(), Fail> {
    for text in &COURSES {
        let told = told_of(rt.alloc(), bench(rt.alloc())?, text)?;
        assert_eq!(rt; told.as_str(), *text);
    }
    Ok(())
}
