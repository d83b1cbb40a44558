ghost use Rattle.std.specs.Prelude.{◌≡◌, ◌<◌, ◌≤◌, ◌^◌};
ghost use Rattle.target_base.specs.Places.{is_place, mask_bit, mask_of};

use crate::place::LoginPlace;
use login_table::Logins;

/// Whether this is a place, where there is one.
fn is_place(other: Option<LoginPlace>, place: u8) -> bool
    ensures { result ≡ is_place other place }
{
    match other {
        Some(other) => other.number() == place,
        None => false,
    }
}

/// The bit of a place, where its login is one of the unit and it is not the place excepted.
fn mask_bit(logins: &Logins, unit: u8, except: Option<LoginPlace>, place: u8) -> u8
    requires { place < 8 }
    ensures value { result ≡ mask_bit unit except logins.now.places place }
    ensures most { result ≤ 2 ^ place }
{
    match logins.at(place) {
        Some(login) if login.unit == unit && !is_place(except, place) => 1 << place,
        _ => 0,
    }
}

/// The places of the logins of a unit, live and held, but for one.
#[tactic(auto, unfolding(crate::specs::Places::mask_of))]
pub fn mask_of(logins: &Logins, unit: u8, except: Option<LoginPlace>) -> u8
    ensures { result ≡ mask_of unit except logins.now.places }
{
    let bit = |place: u8| mask_bit(logins, unit, except, place);
    bit(0) + bit(1) + bit(2) + bit(3) + bit(4) + bit(5) + bit(6) + bit(7)
}
