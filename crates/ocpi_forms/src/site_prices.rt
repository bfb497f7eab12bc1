//! The prices of a site: its own, and those that take its place from moments on. Each reader gives the first fault in
//! the order of the members.

ghost use Rattle.std.specs.Prelude.{◌≡◌, None};
ghost use Rattle.std.specs.List.{last_or};
ghost use Rattle.json_text.specs.Trees.{view};
ghost use Rattle.json_text.specs.Fault.{Gives};
ghost use Rattle.ocpi_forms.specs.SitePrices.{
  is_later,
  listed_prices_in,
  price_element,
  price_from_at,
  price_in,
  prices_in,
  start_in,
};

use json_text::fields::{as_record, e4_in, is_absent, moment_in};
use json_text::lists::{ElementReader, counted_in, elements};
use json_text::{JsonFault, Tree};
use ocpi_text::Moment;
use ocpi_types::{Field, PriceFrom, PricePerKwh, Prices};
use std::alloc::Global;

/// A price, from 0.0000 to 10,000.0000.
#[tactic(auto, unfolding(crate::specs::SitePrices::price_in))]
pub(crate) fn price_of(object: &Tree<'_>) -> Result<PricePerKwh, JsonFault>
    ensures { result ≡ price_in (view object.now) }
{
    match PricePerKwh::new(e4_in(object, Field::Price)?) {
        Some(price) => Ok(price),
        None => Err(JsonFault::WrongForm(Field::Price)),
    }
}

/// Whether the moment is later than that of the last entry, where there is one.
fn is_later(before: &[PriceFrom], at: Moment) -> bool
    ensures { result ≡ is_later (last_or None before.now) at }
{
    match before.last() {
        Some(entry) => entry.start_date_time < at,
        None => true,
    }
}

/// The moment from which an entry holds. One that is not later than that of the entry before is `WrongForm`.
#[tactic(auto, unfolding(crate::specs::SitePrices::start_in))]
fn start_of(before: &[PriceFrom], object: &Tree<'_>) -> Result<Moment, JsonFault>
    ensures { result ≡ start_in before.now (view object.now) }
{
    let at = moment_in(object, Field::StartDateTime)?;
    if is_later(before, at) {
        Ok(at)
    } else {
        Err(JsonFault::WrongForm(Field::StartDateTime))
    }
}

#[tactic(auto, unfolding(crate::specs::SitePrices::price_from_at))]
fn price_from_of(before: &[PriceFrom], object: &Tree<'_>) -> Result<PriceFrom, JsonFault>
    ensures { result ≡ price_from_at before.now (view object.now) }
{
    let start_date_time = start_of(before, object)?;
    let price = price_of(object)?;
    Ok(PriceFrom {
        start_date_time,
        price,
    })
}

/// How the prices of a site are read.
#[derive(Drop)]
struct PriceReader;

impl ElementReader<PriceFrom> for PriceReader {
    ghost at = { λ _. price_element };

    fn element(
        &self,
        _alloc: Global,
        before: &[PriceFrom],
        value: &Tree<'_>,
    ) -> Result<PriceFrom, JsonFault> {
        price_from_of(before, as_record(value, Field::Prices)?)
    }
}

/// Up to a thousand prices, each from a later moment on than the one before.
#[tactic(auto, using(crate::proofs::PriceForms::prices_are), unfolding(crate::specs::SitePrices::listed_prices_in))]
fn listed_prices_of(alloc: Global, object: &Tree<'_>, field: Field) -> Result<Prices, JsonFault>
    ensures { Gives result (listed_prices_in field (view object.now)) }
{
    let values = counted_in(object, field, 0, 1000)?;
    let prices = elements(alloc, &PriceReader, values)?;
    match Prices::new(prices) {
        Some(prices) => Ok(prices),
        None => unreachable!(),
    }
}

/// The prices that take the place of the site's own from moments on: none, where the list is absent or null.
#[tactic(auto, unfolding(crate::specs::SitePrices::prices_in, json_text::specs::Fields::optional))]
pub(crate) fn prices_of(alloc: Global, object: &Tree<'_>) -> Result<Prices, JsonFault>
    ensures { Gives result (prices_in (view object.now)) }
{
    if is_absent(object, Field::Prices) {
        return Ok(Prices::empty(alloc));
    }
    let prices = listed_prices_of(alloc, object, Field::Prices)?;
    Ok(prices)
}
