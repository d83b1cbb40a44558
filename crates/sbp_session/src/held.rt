#![tactic(auto, unfolding(crate::specs::Moves::goes))]

ghost use Rattle.std.specs.Prelude.{◌≡◌};
ghost use Rattle.sbp_session.specs.Sessions.{live_with};
ghost use Rattle.sbp_session.specs.Moves.{sent, good, bad, conflict, reset, goes};
ghost use Rattle.sbp_session.specs.declared.seat.Seat.TheVariants as seats;

use crate::live::Live;
use crate::out::Out;
use orb_layout::LoginResponse;
use std::marker::Model;

/// Logged in before a reset that was seen.
#[derive(Drop)]
pub struct Held {
    response: LoginResponse,
}

impl Model for Held {
    ghost use Rattle.orb_layout.specs.declared.login.LoginResponse.{LoginResponse};

    ghost Value = { LoginResponse };

    ghost view = { λ a. a.response };
}

/// A reconnect is under way.
#[derive(Drop)]
pub struct Returning {
    response: LoginResponse,
}

impl Model for Returning {
    ghost use Rattle.orb_layout.specs.declared.login.LoginResponse.{LoginResponse};

    ghost Value = { LoginResponse };

    ghost view = { λ a. a.response };
}

/// A logout is under way.
#[derive(Drop)]
pub struct Leaving {
    response: LoginResponse,
}

impl Model for Leaving {
    ghost use Rattle.orb_layout.specs.declared.login.LoginResponse.{LoginResponse};

    ghost Value = { LoginResponse };

    ghost view = { λ a. a.response };
}

impl Held {
    pub(crate) fn with(response: LoginResponse) -> Held
        ensures { result ≡ response }
    {
        Held { response }
    }

    /// The response of the login.
    pub fn response(&self) -> LoginResponse
        ensures { result ≡ self.now }
    {
        self.response
    }

    /// The reconnect was sent.
    pub fn returning(self) -> Returning
        ensures state { result ≡ self }
        ensures row { goes sent (seats.Held self) ≡ seats.Returning result }
    {
        Returning {
            response: self.response,
        }
    }
}

impl Returning {
    /// The response of the login.
    pub fn response(&self) -> LoginResponse
        ensures { result ≡ self.now }
    {
        self.response
    }

    /// The reconnect ended with status 00. No ORB_POINTER write is under way.
    pub fn live(self) -> Live
        ensures state { result ≡ live_with self }
        ensures row { goes good (seats.Returning self) ≡ seats.Live result }
    {
        Live::ready(self.response)
    }

    /// The reconnect ended with another status.
    pub fn out(self) -> Out
        ensures { goes bad (seats.Returning self) ≡ seats.Out result }
    {
        Out::new()
    }

    /// The reconnect was answered conflict_error, or a reset was seen.
    pub fn held(self) -> Held
        ensures state { result ≡ self }
        ensures conflict { goes conflict (seats.Returning self) ≡ seats.Held result }
        ensures reset { goes reset (seats.Returning self) ≡ seats.Held result }
    {
        Held::with(self.response)
    }
}

impl Leaving {
    pub(crate) fn with(response: LoginResponse) -> Leaving
        ensures { result ≡ response }
    {
        Leaving { response }
    }

    /// The response of the login.
    pub fn response(&self) -> LoginResponse
        ensures { result ≡ self.now }
    {
        self.response
    }

    /// The logout ended with a status.
    pub fn out(self) -> Out
        ensures good { goes good (seats.Leaving self) ≡ seats.Out result }
        ensures bad { goes bad (seats.Leaving self) ≡ seats.Out result }
    {
        Out::new()
    }

    /// The logout was answered conflict_error. No ORB_POINTER write is under way.
    pub fn live(self) -> Live
        ensures state { result ≡ live_with self }
        ensures row { goes conflict (seats.Leaving self) ≡ seats.Live result }
    {
        Live::ready(self.response)
    }

    /// A reset was seen.
    pub fn held(self) -> Held
        ensures state { result ≡ self }
        ensures row { goes reset (seats.Leaving self) ≡ seats.Held result }
    {
        Held::with(self.response)
    }
}
