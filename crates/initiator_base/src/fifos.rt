ghost use Rattle.std.specs.Prelude.{◌≡◌, ◌<◌};
ghost use Rattle.initiator_base.specs.Fifos.{fifo_at, is_dead_kind};

use crate::places::login_fifo;
use orb_layout::StatusKind;
use sbp_base::Offset;

/// A FIFO of an initiator.
#[derive(Clone, Copy)]
pub enum Fifo {
    /// That of a place of management, which is always open.
    Place,
    /// The open one of a login.
    Login,
    /// A closed one of a login.
    Closed,
}

/// The FIFO at an address, where so many login numbers were used and the session is Out or not.
#[tactic(auto, unfolding(crate::specs::Fifos::fifo_at))]
pub fn fifo_at(logins: u32, is_out: bool, offset: Offset) -> Option<Fifo>
    ensures { result ≡ fifo_at logins is_out offset }
{
    let value = offset.value();
    if value == 0x1200_2000 || value == 0x1200_2020 {
        return Some(Fifo::Place);
    }
    if logins > 0 && value == login_fifo(logins - 1).value() && !is_out {
        return Some(Fifo::Login);
    }
    if 0x1300_0000 <= value && value < 0x20_1300_0000 && value % 0x20 == 0 {
        return Some(Fifo::Closed);
    }
    None
}

/// Whether a status has the dead bit.
pub fn is_dead_kind(kind: StatusKind) -> bool
    ensures { result ≡ is_dead_kind kind }
{
    matches!(kind, StatusKind::Illegal(_) | StatusKind::Failed)
}
