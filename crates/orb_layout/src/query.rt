ghost use Rattle.std.specs.Prelude.{◌≡◌, ◌≤◌, ◌+◌, ◌*◌, ◌++◌, length, drop};
ghost use Rattle.orb_layout.specs.QueryResponses.{query_bytes, query_count, entries_bytes, entry_quads};
ghost use Rattle.orb_layout.specs.Pointers.{quad_bytes};

use crate::fields::{half, high_quad, low_quad, put_quads};
use sbp_base::{NodeId, put_quad, quad_at};

/// A login in the answer to a query.
#[derive(Clone, Copy, Debug, PartialEq, Eq)]
pub struct QueryEntry {
    /// The node that is logged in.
    pub node: NodeId,
    /// The login ID.
    pub login: u16,
    /// The EUI-64 of the node.
    pub eui: u64,
}

/// The answer to a query of logins, 4 bytes and 12 for each login (NCITS 325-1998, query logins
/// response).
#[derive(Clone, Copy, Debug, PartialEq, Eq)]
pub struct QueryResponse;

impl QueryResponse {
    /// Writes the answer over the first bytes, whose number it answers: 4, and 12 for each login.
    /// The other bytes stay.
    pub fn write_into(logins: &[QueryEntry], out: &mut [u8]) -> usize
        requires logins { length logins.now ≤ 8 }
        requires room { 100 ≤ length out.old }
        ensures written { out.new ≡ query_bytes logins.now ++ drop (4 + 12 * length logins.now) out.old }
        ensures count { result ≡ 4 + 12 * length logins.now }
    {
        let len = 4 + 12 * logins.len();
        put_quad(out, 0, ((len as u32) << 16) + 8);
        put_entries(logins, &mut out[4..]);
        len
    }

    /// The number of logins by the length field alone, also where the answer was cut short. There
    /// is none exactly where there are fewer than 4 bytes or the length is not 4 and 12 for each of
    /// 0 to 8 logins.
    pub fn count(bytes: &[u8]) -> Option<u8>
        ensures { result ≡ query_count bytes.now }
    {
        if bytes.len() < 4 {
            return None;
        }
        let declared = quad_at(bytes, 0) >> 16;
        if declared < 4 || declared > 100 || (declared - 4) % 12 != 0 {
            return None;
        }
        Some(((declared - 4) / 12) as u8)
    }
}

/// Writes a login over the first 12 bytes. The other bytes stay.
fn put_entry(entry: QueryEntry, out: &mut [u8])
    requires { 12 ≤ length out.old }
    ensures { out.new ≡ quad_bytes (entry_quads entry) ++ drop 12 out.old }
{
    let node = half(entry.node.raw());
    let quads = [
        (node << 16) + half(entry.login),
        high_quad(entry.eui),
        low_quad(entry.eui),
    ];
    put_quads(out, &quads);
}

/// Writes logins, one behind the other, over the first bytes. The other bytes stay.
fn put_entries(logins: &[QueryEntry], out: &mut [u8])
    requires { 12 * length logins.now ≤ length out.old }
    ensures { out.new ≡ entries_bytes logins.now ++ drop (12 * length logins.now) out.old }
{
    if let [first, rest @ ..] = logins {
        put_entry(*first, out);
        put_entries(rest, &mut out[12..]);
    }
}
