ghost use Rattle.std.specs.Prelude.{◌≡◌, ◌-◌, length, Some, None};
ghost use Rattle.login_table.specs.Table.{fresh_id, has, is_used, next_id};

use crate::login::Login;

/// The ID behind another in counting order, which goes on at 1 after 65535.
fn next_id(login: u16) -> u16
    ensures { result ≡ next_id login }
{
    if login == u16::MAX { 1 } else { login + 1 }
}

/// Whether a login of the table has the ID.
fn is_used(places: &[Option<Login>], login: u16) -> bool
    ensures { result ≡ is_used login places.now }
{
    places.iter().any(|place| matches!(place, Some(entered) if entered.has_id(login)))
}

/// The first ID in counting order behind the last one that is not in use, found within eight tries.
#[tactic(auto, using(crate::proofs::Counting::trying))]
pub(crate) fn fresh_id(places: &[Option<Login>], last: u16) -> u16
    ensures { result ≡ fresh_id 8 (next_id last) places.now }
{
    let mut login = next_id(last);
    for tries in 0..8_usize {
        if !is_used(places, login) {
            return login;
        }
        login = next_id(login);
    }
    login
}
