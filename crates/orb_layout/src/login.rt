ghost use Rattle.std.specs.Prelude.{◌≡◌, ◌≤◌, ◌++◌, length, drop};
ghost use Rattle.orb_layout.specs.LoginResponses.{read_login, login_bytes};

use crate::fault::OrbFault;
use crate::fields::{half, put_quads};
use crate::pointer::{high_half, low_half, offset};
use sbp_base::{Offset, quad_at};

/// The answer to a login, 16 bytes (NCITS 325-1998, login response).
#[derive(Clone, Copy, Debug, PartialEq, Eq)]
pub struct LoginResponse {
    /// The login ID.
    pub login: u16,
    /// Where the command agent of the login stands.
    pub agent: Offset,
    /// How long a login is held after a reset, in seconds less one.
    pub hold: u16,
}

impl LoginResponse {
    /// Reads a login response. The error is `Length`, exactly where there are fewer than 16 bytes;
    /// bytes behind it and its own length field are not looked at.
    pub fn read(bytes: &[u8]) -> Result<LoginResponse, OrbFault>
        ensures { result ≡ read_login bytes.now }
    {
        if bytes.len() < 16 {
            return Err(OrbFault::Length { need: 16 });
        }
        Ok(LoginResponse {
            login: (quad_at(bytes, 0) & 0xffff) as u16,
            agent: offset(bytes, 4),
            hold: (quad_at(bytes, 12) & 0xffff) as u16,
        })
    }

    /// Writes the response over the first 16 bytes, whose number it answers, with a zero node ID.
    /// The other bytes stay.
    pub fn write(&self, out: &mut [u8]) -> usize
        requires { 16 ≤ length out.old }
        ensures written { out.new ≡ login_bytes self.now ++ drop 16 out.old }
        ensures count { result ≡ 16 }
    {
        let quads = [
            (16 << 16) + half(self.login),
            high_half(self.agent),
            low_half(self.agent),
            half(self.hold),
        ];
        put_quads(out, &quads);
        16
    }
}
