//! The moves of a session in place (NCITS 325-1998, login, reconnect and logout).
ghost use Rattle.std.specs.Prelude.{◌≡◌, ◌==◌, if◌then◌else◌};
ghost use Rattle.sbp_session.specs.Moves.{bad, conflict, entered, failed, goes, good, pointed, pointing, reset, sent};

use crate::out::Out;
use crate::seat::Seat;
use orb_layout::LoginResponse;
use std::mem::replace;

/// A write of the initiator's own failed.
pub fn stick(seat: &mut Seat)
    ensures { seat.new ≡ goes failed seat.old }
{
    let old = replace(seat, Seat::Out(Out::new()));
    *seat = Seat::Stuck(old.stick());
}

/// The login, reconnect or logout was sent.
pub fn send(seat: &mut Seat)
    ensures { seat.new ≡ goes sent seat.old }
{
    let old = replace(seat, Seat::Out(Out::new()));
    *seat = old.sent();
}

/// The login ended with status 00 and this response.
pub fn enter(seat: &mut Seat, response: LoginResponse)
    ensures { seat.new ≡ goes (entered response) seat.old }
{
    let old = replace(seat, Seat::Out(Out::new()));
    *seat = old.entered(response);
}

/// The reconnect or the logout ended with this status, or the login with another one than 00.
pub fn end(seat: &mut Seat, status: u8)
    ensures { seat.new ≡ goes (if status == 0 then good else bad) seat.old }
{
    let old = replace(seat, Seat::Out(Out::new()));
    *seat = old.ended(status);
}

/// The login, reconnect or logout was answered conflict_error.
pub fn conflict(seat: &mut Seat)
    ensures { seat.new ≡ goes conflict seat.old }
{
    let old = replace(seat, Seat::Out(Out::new()));
    *seat = old.conflict();
}

/// A reset was seen.
pub fn reset(seat: &mut Seat)
    ensures { seat.new ≡ goes reset seat.old }
{
    let old = replace(seat, Seat::Out(Out::new()));
    *seat = old.reset();
}

/// An ORB_POINTER write was sent.
#[tactic(auto, unfolding(crate::specs::Moves::goes))]
pub fn point(seat: &mut Seat)
    ensures { seat.new ≡ goes pointing seat.old }
{
    match seat {
        Seat::Live(live) => live.pointing(),
        Seat::Out(_)
        | Seat::Entering(_)
        | Seat::Held(_)
        | Seat::Returning(_)
        | Seat::Leaving(_)
        | Seat::Stuck(_) => {}
    }
}

/// The ORB_POINTER write was answered complete.
#[tactic(auto, unfolding(crate::specs::Moves::goes))]
pub fn answer(seat: &mut Seat)
    ensures { seat.new ≡ goes pointed seat.old }
{
    match seat {
        Seat::Live(live) => live.pointed(),
        Seat::Out(_)
        | Seat::Entering(_)
        | Seat::Held(_)
        | Seat::Returning(_)
        | Seat::Leaving(_)
        | Seat::Stuck(_) => {}
    }
}
