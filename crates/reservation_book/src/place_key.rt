//! The place of a reservation among those of its token and location.

ghost use Rattle.std.specs.Prelude.{◌≡◌, Some, refl};
ghost use Rattle.std.specs.Ordering.{eq_by_cmp};
ghost use Rattle.std.specs.Cmp.{eq_by_cmp_equiv, partial_equiv_from_equiv, partial_order_from_total};
ghost use Rattle.reservation_book.specs.Orders.{place_total, place_exact};
ghost use Rattle.reservation_book.specs.Places.{place_cmp, place_of};

use crate::listings::ReservationKey;
use ocpi_text::{CiKey, PartyKey};
use std::cmp::Ordering;
use std::marker::Model;
use tables::TableKey;

/// A provider, a location and a token's uid, then the token's type, as a number, the EVSE and the id of a reservation:
/// in the order of these parts. It is a type of its own, since a table of so many parts asks too much of the prover.
#[derive(Clone, Copy)]
pub(crate) struct PlaceKey {
    pub(crate) token: (PartyKey, CiKey<36>, CiKey<36>),
    pub(crate) spot: (u64, CiKey<36>, CiKey<36>),
}

impl Model for PlaceKey {
    ghost use Rattle.reservation_book.specs.Places.{Place};

    ghost Value = { Place };

    ghost view = { λ p. (p.token, p.spot) };

    ghost inverse = { λ q. record { token = q.0; spot = q.1 } };
}

impl PlaceKey {
    /// The provider, the location and the token's uid.
    pub(crate) fn token(self) -> (PartyKey, CiKey<36>, CiKey<36>)
        ensures { result ≡ self.0 }
    {
        self.token
    }

    /// The token's type, the EVSE and the id of the reservation.
    pub(crate) fn spot(self) -> (u64, CiKey<36>, CiKey<36>)
        ensures { result ≡ self.1 }
    {
        self.spot
    }

    /// The provider and the id of the reservation.
    pub(crate) fn reservation(self) -> ReservationKey
        ensures { result ≡ place_of self }
    {
        (self.token.0, self.spot.2)
    }
}

impl PartialEq for PlaceKey {
    ghost eq = { eq_by_cmp place_cmp };

    ghost laws = { partial_equiv_from_equiv (eq_by_cmp_equiv place_total) };

    fn eq(&self, other: &Self) -> bool {
        self.cmp(other).is_eq()
    }
}

impl Eq for PlaceKey {
    ghost laws = { eq_by_cmp_equiv place_total };
}

impl PartialOrd for PlaceKey {
    ghost partial_cmp = { λ x y. Some (place_cmp x y) };

    ghost laws = { partial_order_from_total place_total };

    fn partial_cmp(&self, other: &Self) -> Option<Ordering> {
        Some(self.cmp(other))
    }
}

impl Ord for PlaceKey {
    ghost cmp = { place_cmp };

    ghost total = { place_total };

    ghost matches_partial_cmp = { λ x y. refl };

    ghost matches_eq = { λ x y. refl };

    fn cmp(&self, other: &Self) -> Ordering {
        self.token
            .cmp(&other.token)
            .then(self.spot.cmp(&other.spot))
    }
}

impl TableKey for PlaceKey {
    ghost exact = { place_exact };
}
