#![tactic(auto, unfolding(crate::specs::Moves::goes))]

ghost use Rattle.std.specs.Prelude.{◌≡◌, true, false, Ok, Err, if◌then◌else◌};
ghost use Rattle.sbp_session.specs.Sessions.{live_with};
ghost use Rattle.sbp_session.specs.Moves.{pointing, pointed, reset, sent, goes, left_or_live};
ghost use Rattle.sbp_session.specs.declared.seat.Seat.TheVariants as seats;

use crate::held::{Held, Leaving};
use orb_layout::LoginResponse;
use std::marker::Model;

/// Logged in.
#[derive(Drop)]
pub struct Live {
    response: LoginResponse,
    pointing: bool,
}

impl Model for Live {
    ghost use Rattle.sbp_session.specs.Sessions.{LiveSession};

    ghost Value = { LiveSession };

    ghost view = { λ a. record { response = a.response; pointing = a.pointing } };
}

impl Live {
    /// A session that is logged in from the start. No ORB_POINTER write is under way.
    pub fn ready(response: LoginResponse) -> Live
        ensures { result ≡ live_with response }
    {
        Live {
            response,
            pointing: false,
        }
    }

    /// The response of the login.
    pub fn response(&self) -> LoginResponse
        ensures { result ≡ self.now.response }
    {
        self.response
    }

    /// Whether an ORB_POINTER write is under way.
    pub fn is_pointing(&self) -> bool
        ensures { result ≡ self.now.pointing }
    {
        self.pointing
    }

    /// An ORB_POINTER write was sent.
    pub fn pointing(&mut self)
        ensures state { self.new ≡ record self.old { pointing = true } }
        ensures row { goes pointing (seats.Live self.old) ≡ seats.Live self.new }
    {
        self.pointing = true;
    }

    /// The ORB_POINTER write was answered.
    pub fn pointed(&mut self)
        ensures state { self.new ≡ record self.old { pointing = false } }
        ensures row { goes pointed (seats.Live self.old) ≡ seats.Live self.new }
    {
        self.pointing = false;
    }

    /// A reset was seen.
    pub fn held(self) -> Held
        ensures state { result ≡ self.response }
        ensures row { goes reset (seats.Live self) ≡ seats.Held result }
    {
        Held::with(self.response)
    }

    /// The logout was sent. The state comes back exactly while an ORB_POINTER write is under way.
    pub fn leaving(self) -> Result<Leaving, Live>
        ensures state { result ≡ (if self.pointing then Err self else Ok self.response) }
        ensures row { goes sent (seats.Live self) ≡ left_or_live result }
    {
        if self.pointing {
            return Err(self);
        }
        Ok(Leaving::with(self.response))
    }
}
