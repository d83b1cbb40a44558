#![tactic(auto, unfolding(crate::specs::Moves::goes))]

ghost use Rattle.std.specs.Prelude.{◌≡◌};
ghost use Rattle.sbp_session.specs.Sessions.{live_with};
ghost use Rattle.sbp_session.specs.Moves.{entered, sent, bad, conflict, reset, goes};
ghost use Rattle.sbp_session.specs.declared.seat.Seat.TheVariants as seats;

use crate::live::Live;
use orb_layout::LoginResponse;
use std::marker::Model;

/// Not logged in. There is one such state, so a contract says nothing of it.
#[derive(Drop)]
pub struct Out {
    _private: (),
}

impl Model for Out {
    ghost use Rattle.std.specs.Prelude.{ℕ};

    ghost Value = { Unit {0} };

    ghost view = { λ a. tt };
}

/// A login is under way. There is one such state, so a contract says nothing of it.
#[derive(Drop)]
pub struct Entering {
    _private: (),
}

impl Model for Entering {
    ghost use Rattle.std.specs.Prelude.{ℕ};

    ghost Value = { Unit {0} };

    ghost view = { λ a. tt };
}

impl Out {
    /// The state at the start: no login.
    pub fn new() -> Out
        ensures { result ≡ tt }
    {
        Out { _private: () }
    }

    /// The login was sent.
    pub fn entering(self) -> Entering
        ensures { goes sent (seats.Out self) ≡ seats.Entering result }
    {
        Entering { _private: () }
    }
}

impl Entering {
    /// The login ended with status 00 and this response. No ORB_POINTER write is under way.
    pub fn live(self, response: LoginResponse) -> Live
        ensures state { result ≡ live_with response }
        ensures row { goes (entered response) (seats.Entering self) ≡ seats.Live result }
    {
        Live::ready(response)
    }

    /// The login ended otherwise, or a reset was seen.
    pub fn out(self) -> Out
        ensures bad { goes bad (seats.Entering self) ≡ seats.Out result }
        ensures conflict { goes conflict (seats.Entering self) ≡ seats.Out result }
        ensures reset { goes reset (seats.Entering self) ≡ seats.Out result }
    {
        Out::new()
    }
}
