//! What a kilowatt-hour costs.

ghost use Rattle.std.specs.Prelude.{◌≡◌, SomeIff};
ghost use Rattle.ocpi_types.specs.Limits.{IsPrice};

use ocpi_text::E4;
use std::marker::Model;

/// A price per kWh without tax, from 0.0000 to 10,000.0000.
#[derive(Clone, Copy)]
pub struct PricePerKwh {
    price: E4,
}

impl Model for PricePerKwh {
    ghost use Rattle.std.specs.Prelude.{ℤ};
    ghost use Rattle.ocpi_types.specs.Limits.{IsPrice};

    ghost Value = { ℤ };

    ghost view = { λ p. p.price };

    ghost invariant = { λ p. IsPrice p.price };

    ghost inverse = { λ z. record { price = z } };
}

impl PricePerKwh {
    /// The price, where it is in the range.
    pub fn new(price: E4) -> Option<PricePerKwh>
        ensures { SomeIff result (IsPrice price) price }
    {
        let units = price.units();
        if 0 <= units && units <= 100_000_000 {
            Some(PricePerKwh { price })
        } else {
            None
        }
    }

    /// The price itself.
    pub fn value(self) -> E4
        ensures value { result ≡ self }
        ensures bound { IsPrice self }
    {
        self.price
    }
}
