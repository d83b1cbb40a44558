use orb_layout::LoginResponse;
use sbp_base::Offset;
use sbp_session::{Live, Out, Seat};

/// The response of a login to place 0 with hold 3.
fn response() -> Option<LoginResponse> {
    Some(LoginResponse {
        login: 1,
        agent: Offset::new(0xffff_f004_0000)?,
        hold: 3,
    })
}

/// A login, a reset, a reconnect and a logout; whether the response is that of the login throughout.
fn usual_moves(response: LoginResponse) -> Option<bool> {
    let live = Out::new().entering().live(response);
    let live = live.held().returning().live();
    let is_kept = live.response() == response;
    let leaving = live.leaving().ok()?;
    let is_left = leaving.response() == response;
    Some(is_kept && is_left && matches!(Seat::Out(leaving.out()).stick().unstick(), Seat::Out(_)))
}

/// Whether there is no logout while an ORB_POINTER write is under way, and a stuck session is held after a
/// reset.
fn no_logout_while_pointing(response: LoginResponse) -> Option<bool> {
    let mut live = Live::ready(response);
    live.pointing();
    let mut live = live.leaving().err()?;
    live.pointed();
    let leaving = live.leaving().ok()?;
    match Seat::Stuck(Seat::Leaving(leaving).stick())
        .stick()
        .unstick()
    {
        Seat::Held(held) => Some(held.response() == response),
        _ => None,
    }
}

/// A login that is refused, a reconnect that is refused and one that a reset cuts off, and a logout that
/// is answered conflict_error and one that a reset cuts off: whether the session is held with its response,
/// and then out.
fn operations_that_fail(response: LoginResponse) -> Option<bool> {
    let held = Out::new().entering().out().entering().live(response).held();
    let live = held.returning().held().returning().live();
    let leaving = live.leaving().ok()?.live().leaving().ok()?;
    let held = leaving.held();
    let is_kept = held.response() == response;
    let out = held.returning().out();
    Some(is_kept && matches!(Seat::Out(out).reset(), Seat::Out(_)))
}

/// The same by the moves of a seat.
fn moves_of_a_seat(response: LoginResponse) -> bool {
    let seat = Seat::Out(Out::new()).sent().ended(0x04).sent();
    let seat = seat
        .entered(response)
        .reset()
        .sent()
        .conflict()
        .sent()
        .ended(0x00);
    let is_live = match &seat {
        Seat::Live(live) => !live.is_pointing(),
        _ => false,
    };
    is_live && matches!(seat.sent().conflict().sent().ended(0x00), Seat::Out(_))
}

/// Sessions from their login on.
#[test]
fn sessions(rt: HostRuntime) {
    assert!(rt; response().and_then(usual_moves) == Some(true));
    assert!(rt; response().and_then(no_logout_while_pointing) == Some(true));
    assert!(rt; response().and_then(operations_that_fail) == Some(true));
    assert!(rt; response().map(moves_of_a_seat) == Some(true));
}
