ghost use Rattle.std.specs.Prelude.{◌≡◌, ◌++◌, Some, OnOk};
ghost use Rattle.std.specs.Option.{option_map};
ghost use Rattle.line_text.specs.Fields.{rest_of_line};
ghost use Rattle.packet_listing.specs.Listing as listing;

use line_text::{end_line, push_decimal};
use sbp_base::{Bytes, NoMemory, Offset};

/// The start of the target's configuration ROM (IEEE 1212).
const ROM: u64 = 0xfffff0000400;

/// The address of the target's management agent (NCITS 325-1998).
const MANAGEMENT: u64 = 0xfffff0010000;

/// The base of the registers of the first login's place; each place has 32 bytes.
const REGISTERS: u64 = 0xfffff0040000;

/// Adds the end of a request's line: the word of its offset, if that is one of the target's starts,
/// and the line feed.
#[tactic(auto, unfolding(crate::specs::Listing::start_word))]
pub(crate) fn push_start(out: &mut Bytes, offset: Offset) -> Result<(), NoMemory>
    ensures { OnOk result (out.new ≡ out.old ++ rest_of_line (listing.start_word offset)) }
{
    let at = offset.value();
    if at == ROM {
        return out.extend_from_slice(b" @rom\n");
    }
    if at == MANAGEMENT {
        return out.extend_from_slice(b" @management\n");
    }
    if REGISTERS <= at && at < REGISTERS + 256 {
        return push_register(out, (at - REGISTERS) / 32, (at - REGISTERS) % 32);
    }
    end_line(out)
}

/// Adds the end of the line of a request to a login's place, by the distance from the place's base.
fn push_register(out: &mut Bytes, place: u64, distance: u64) -> Result<(), NoMemory>
    ensures { OnOk result (out.new ≡ out.old ++ rest_of_line (listing.agent_word place (listing.register_name distance))) }
{
    match register_name(distance) {
        Some(name) => push_agent(out, place, name),
        None => end_line(out),
    }
}

/// Adds `@agentPLACE.REGISTER`, and the line feed.
fn push_agent(out: &mut Bytes, place: u64, register: &str) -> Result<(), NoMemory>
    ensures { OnOk result (out.new ≡ out.old ++ rest_of_line (listing.agent_word place (Some register.now))) }
{
    out.extend_from_slice(b" @agent")?;
    push_decimal(out, place)?;
    out.push(b'.')?;
    out.extend_from_slice(register.as_bytes())?;
    end_line(out)
}

/// The name of the register at a distance from the base of its place (NCITS 325-1998, command block
/// agent registers).
fn register_name(distance: u64) -> Option<&'static str>
    ensures { option_map (λ name. name.now) result ≡ listing.register_name distance }
{
    match distance {
        0 => Some("state"),
        4 => Some("reset"),
        8 => Some("pointer"),
        16 => Some("doorbell"),
        20 => Some("unsolicited"),
        _ => None,
    }
}
