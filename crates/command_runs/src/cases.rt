//! Cases of the commands that read a script, as texts.rt has them.
use crate::calls::{call, program_media};
use crate::scripts::{has_form, lines_of, script_of};
use sbp_command::Status;
use std::alloc::Global;
use std::test::Fail;

/// Whether a case holds: its script, which is served under this word, ends so, and writes what stands
/// there.
pub(crate) fn holds(alloc: Global, word: &str, status: Status, case: &str) -> Result<bool, Fail> {
    let (tried, rest) = case.split_once("\n").ok_or("case")?;
    let (kind, _) = tried.split_once(": ").ok_or("case")?;
    let (lines, form) = rest.split_once("\n").ok_or("case")?;
    let script = script_of(alloc, lines)?;
    let mut media = program_media(alloc)?;
    let ended = call(alloc, word, &mut media, script.as_str(), &[], &[])?;
    let told = lines_of(alloc, kind, ended.written.as_str())?;
    Ok(ended.status == status && has_form(alloc, told.as_str(), form)?)
}
