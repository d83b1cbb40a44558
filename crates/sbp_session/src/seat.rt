#![tactic(auto, unfolding(crate::specs::Moves::goes))]

ghost use Rattle.std.specs.Prelude.{◌≡◌, ◌==◌, if◌then◌else◌};
ghost use Rattle.sbp_session.specs.Seats.{is_out_seat, is_stuck_seat, points, response_in, stick, unstick};
ghost use Rattle.sbp_session.specs.Moves.{bad, conflict, entered, failed, good, goes, reset, sent};

use crate::held::{Held, Leaving, Returning};
use crate::live::Live;
use crate::out::{Entering, Out};
use orb_layout::LoginResponse;
use sbp_base::Offset;
use std::marker::Model;

/// The session of an initiator, in one of its states.
#[derive(Drop)]
pub enum Seat {
    Out(Out),
    Entering(Entering),
    Live(Live),
    Held(Held),
    Returning(Returning),
    Leaving(Leaving),
    Stuck(Stuck),
}

/// The state in which a session became stuck.
#[derive(Drop)]
pub enum Origin {
    Out(Out),
    Entering(Entering),
    Live(Live),
    Held(Held),
    Returning(Returning),
    Leaving(Leaving),
}

/// A write of the initiator's own failed. The session stays so until a reset is seen.
#[derive(Drop)]
pub struct Stuck {
    from: Origin,
}

impl Model for Stuck {
    ghost use Rattle.sbp_session.specs.declared.seat.Origin.{Origin};

    ghost Value = { Origin };

    ghost view = { λ a. a.from };
}

impl Seat {
    /// The response of the login that a session has; zeros where it has none.
    pub fn response(&self) -> LoginResponse
        ensures { result ≡ response_in self.now }
    {
        match self {
            Seat::Live(live) => live.response(),
            Seat::Held(held) => held.response(),
            Seat::Returning(returning) => returning.response(),
            Seat::Leaving(leaving) => leaving.response(),
            Seat::Out(_) | Seat::Entering(_) | Seat::Stuck(_) => LoginResponse {
                login: 0,
                agent: Offset::zero(),
                hold: 0,
            },
        }
    }

    /// Whether an ORB_POINTER write is under way.
    pub fn is_pointing(&self) -> bool
        ensures { result ≡ points self.now }
    {
        match self {
            Seat::Live(live) => live.is_pointing(),
            _ => false,
        }
    }

    /// Whether a session is out.
    pub fn is_out(&self) -> bool
        ensures { result ≡ is_out_seat self.now }
    {
        matches!(self, Seat::Out(_))
    }

    /// Whether a session is stuck.
    pub fn is_stuck(&self) -> bool
        ensures { result ≡ is_stuck_seat self.now }
    {
        matches!(self, Seat::Stuck(_))
    }

    /// The login, reconnect or logout was sent that the state allows; a session that allows none stays.
    pub fn sent(self) -> Seat
        ensures { result ≡ goes sent self }
    {
        match self {
            Seat::Out(out) => Seat::Entering(out.entering()),
            Seat::Live(live) => match live.leaving() {
                Ok(leaving) => Seat::Leaving(leaving),
                Err(live) => Seat::Live(live),
            },
            Seat::Held(held) => Seat::Returning(held.returning()),
            other => other,
        }
    }

    /// The login ended with status 00 and this response.
    pub fn entered(self, response: LoginResponse) -> Seat
        ensures { result ≡ goes (entered response) self }
    {
        match self {
            Seat::Entering(entering) => Seat::Live(entering.live(response)),
            other => other,
        }
    }

    /// The reconnect or the logout ended with this status, or the login with another one than 00.
    pub fn ended(self, status: u8) -> Seat
        ensures { result ≡ goes (if status == 0 then good else bad) self }
    {
        match self {
            Seat::Entering(entering) if status != 0 => Seat::Out(entering.out()),
            Seat::Returning(returning) if status == 0 => Seat::Live(returning.live()),
            Seat::Returning(returning) => Seat::Out(returning.out()),
            Seat::Leaving(leaving) => Seat::Out(leaving.out()),
            other => other,
        }
    }

    /// The login, reconnect or logout was answered conflict_error.
    pub fn conflict(self) -> Seat
        ensures { result ≡ goes conflict self }
    {
        match self {
            Seat::Entering(entering) => Seat::Out(entering.out()),
            Seat::Returning(returning) => Seat::Held(returning.held()),
            Seat::Leaving(leaving) => Seat::Live(leaving.live()),
            other => other,
        }
    }

    /// A reset was seen: a session that was logged in is held, and any other is out.
    pub fn reset(self) -> Seat
        ensures { result ≡ goes reset self }
    {
        match self {
            Seat::Entering(entering) => Seat::Out(entering.out()),
            Seat::Live(live) => Seat::Held(live.held()),
            Seat::Returning(returning) => Seat::Held(returning.held()),
            Seat::Leaving(leaving) => Seat::Held(leaving.held()),
            Seat::Stuck(stuck) => stuck.unstick(),
            other => other,
        }
    }

    /// A write of the initiator's own failed. A stuck session stays as it is.
    pub fn stick(self) -> Stuck
        ensures state { result ≡ stick self }
        ensures row { goes failed self ≡ Seat.Stuck result }
    {
        let from = match self {
            Seat::Out(out) => Origin::Out(out),
            Seat::Entering(entering) => Origin::Entering(entering),
            Seat::Live(live) => Origin::Live(live),
            Seat::Held(held) => Origin::Held(held),
            Seat::Returning(returning) => Origin::Returning(returning),
            Seat::Leaving(leaving) => Origin::Leaving(leaving),
            Seat::Stuck(stuck) => stuck.from,
        };
        Stuck { from }
    }
}

impl Stuck {
    /// A reset was seen: the session is held where it was logged in as it became stuck, that is
    /// Live, Held, Returning or Leaving; else it is out.
    pub fn unstick(self) -> Seat
        ensures state { result ≡ unstick self }
        ensures row { goes reset (Seat.Stuck self) ≡ result }
    {
        match self.from {
            Origin::Out(out) => Seat::Out(out),
            Origin::Entering(entering) => Seat::Out(entering.out()),
            Origin::Live(live) => Seat::Held(live.held()),
            Origin::Held(held) => Seat::Held(held),
            Origin::Returning(returning) => Seat::Held(returning.held()),
            Origin::Leaving(leaving) => Seat::Held(leaving.held()),
        }
    }
}
