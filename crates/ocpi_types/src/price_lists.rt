//! The prices of a site that changes them at moments (profile of OCPI 2.2.1, Sessions: Session object, total_cost).

ghost use Rattle.std.specs.Prelude.{◌≡◌, ◌↔◌, [], AllPairs, IfOk, IsTrue, SomeIff};
ghost use Rattle.ocpi_types.specs.PriceLists.{ArePrices, IsEarlier, last_begun};

use crate::copies::{ListItem, copy_all};
use crate::price::PricePerKwh;
use ocpi_text::Moment;
use std::alloc::{AllocError, Global};
use std::marker::Model;

/// A price per kWh without tax, from a moment on.
#[derive(Clone, Copy)]
pub struct PriceFrom {
    pub start_date_time: Moment,
    pub price: PricePerKwh,
}

impl ListItem for PriceFrom {
    fn item_copy(&self) -> Result<PriceFrom, AllocError> {
        Ok(*self)
    }
}

/// Up to a thousand prices in the order of their moments, no two of one moment.
#[derive(Drop)]
pub struct Prices {
    prices: Vec<PriceFrom>,
}

impl Model for Prices {
    ghost use Rattle.std.specs.Prelude.{List};
    ghost use Rattle.ocpi_types.specs.declared.price_lists.PriceFrom.{PriceFrom};
    ghost use Rattle.ocpi_types.specs.PriceLists.{ArePrices};

    ghost Value = { List PriceFrom };

    ghost view = { λ p. p.prices.items };

    ghost invariant = { λ p. ArePrices p.prices.items };
}

/// Whether each begins earlier than all behind it.
fn are_rising(prices: &[PriceFrom]) -> bool
    ensures { IsTrue result ↔ AllPairs IsEarlier prices.now }
{
    prices.is_sorted_by(|p, q| p.start_date_time < q.start_date_time)
}

impl Prices {
    /// No prices: the site's own holds at all moments. It takes no memory.
    pub fn empty(alloc: Global) -> Prices
        ensures { result ≡ [] }
    {
        Prices {
            prices: Vec::new(alloc),
        }
    }

    /// The prices of a list. None, where they are more than a thousand, or a moment is not later than the one before.
    pub fn new(prices: Vec<PriceFrom>) -> Option<Prices>
        ensures { SomeIff result (ArePrices prices.items) prices.items }
    {
        if prices.len() <= 1000 && are_rising(prices.as_slice()) {
            Some(Prices { prices })
        } else {
            None
        }
    }

    /// The prices, in order.
    pub fn as_slice(&self) -> &[PriceFrom]
        ensures value { result.now ≡ self.now }
        ensures are { ArePrices self.now }
    {
        self.prices.as_slice()
    }

    /// Equal prices.
    pub fn copy(&self) -> Result<Prices, AllocError>
        ensures { IfOk result (λ t. t ≡ self.now) }
    {
        let prices = copy_all(*self.prices.allocator(), self.prices.as_slice())?;
        Ok(Prices { prices })
    }

    /// The last that begins by a moment, found by halving. None, where each begins later.
    pub fn last_begun(&self, at: Moment) -> Option<PriceFrom>
        ensures { result ≡ last_begun at self.now }
    {
        let prices = self.prices.as_slice();
        match prices.partition_point(|p| p.start_date_time <= at) {
            0 => None,
            begun => Some(prices[begun - 1]),
        }
    }
}
