use crate::texts::{
    DEAD_LIST, FOREIGN_SOURCE, HALF_A_LINK, NO_ROM, OPERATION_WHILE_POINTING, OTHER_MEDIA,
    PINNED_SLOT, QUERY_TWO, REPEATS_AND_REFUSALS, SEEN_RESET, STUCK_SESSION, USUAL_SESSION,
    WHOLE_PACKETS,
};
use crate::trial::Trial;
use sbp_base::NoMemory;
use std::alloc::Global;
use std::test::Fail;

/// The first text of these that an initiator does not tell.
fn other_run(
    alloc: Global,
    ready: bool,
    texts: &[&'static str],
) -> Result<Option<&'static str>, NoMemory> {
    for text in texts {
        if !Trial::new(alloc, ready)?.tells(text)? {
            return Ok(Some(*text));
        }
    }
    Ok(None)
}

/// The runs of an initiator that is logged in as they begin.
const READY: [&str; 10] = [
    WHOLE_PACKETS,
    HALF_A_LINK,
    QUERY_TWO,
    PINNED_SLOT,
    OPERATION_WHILE_POINTING,
    FOREIGN_SOURCE,
    SEEN_RESET,
    REPEATS_AND_REFUSALS,
    STUCK_SESSION,
    DEAD_LIST,
];

/// Those of one that has not read the target's ROM.
const COLD: [&str; 3] = [USUAL_SESSION, OTHER_MEDIA, NO_ROM];

/// Each run is told.
#[test]
fn runs(rt: HostRuntime) -> Result<(), Fail> {
    assert_eq!(rt; other_run(rt.alloc(), true, &READY)?, None);
    assert_eq!(rt; other_run(rt.alloc(), false, &COLD)?, None);
    Ok(())
}

/// A line, how many times it is done, and the end of what is told then.
type Row = (&'static str, u32, &'static str);

/// The 33rd ORB finds no slot; that is told before the want of a label, and a ring wants only that; and behind
/// that the list is marked dead, which is told before.
const SLOTS: [Row; 9] = [
    (
        "append 0 tur",
        32,
        "sent FFC07D00FFC1FFFFF00400100000001F\n",
    ),
    ("append 0 tur", 1, "refused 0 9\n"),
    ("state 0", 32, "sent FFC0FD40FFC1FFFFF0040000\n"),
    ("put 0 tur", 1, "refused 0 9\n"),
    ("append 0 tur", 1, "refused 0 9\n"),
    ("ring 0", 1, "refused 0 10\n"),
    (
        "receive 0 FFC10110FFC0000013000000000800006901000010000000",
        1,
        "sent FFC00120FFC1000000000000\n",
    ),
    ("put 0 tur", 1, "refused 0 7\n"),
    ("append 0 tur", 1, "refused 0 7\n"),
];

/// 64 requests take all labels; those that timed out rest until a reset is seen.
const LABELS: [Row; 6] = [
    ("state 0", 64, "sent FFC0FD40FFC1FFFFF0040000\n"),
    ("expire_all", 1, "op 0 state error\n"),
    ("state 0", 1, "refused 0 10\n"),
    ("ring 0", 1, "refused 0 8\n"),
    ("see 1 1 0", 1, "refused 0 8\n"),
    (
        "reconnect 0",
        1,
        "sent FFC00110FFC1FFFFF0010000000800000000000012000000\n",
    ),
];

/// Whether an initiator that is logged in tells so.
fn ends_so(alloc: Global, rows: &[Row]) -> Result<bool, NoMemory> {
    Trial::new(alloc, true)?.ends_so(rows)
}

/// Slots and labels run out.
#[test]
fn all_are_used(rt: HostRuntime) -> Result<(), Fail> {
    assert!(rt; ends_so(rt.alloc(), &SLOTS)?);
    assert!(rt; ends_so(rt.alloc(), &LABELS)?);
    Ok(())
}
