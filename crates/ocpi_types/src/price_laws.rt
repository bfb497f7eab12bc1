//! Laws of the price of a site at a moment, for all values: each clause is one, and the body does nothing.

ghost use Rattle.std.specs.Prelude.{◌≡◌, ◌<◌, ℕ, [], ◌∷◌, ◌++◌, All};
ghost use Rattle.ocpi_types.specs.Limits.{IsPrice};
ghost use Rattle.ocpi_types.specs.PriceLists.{ArePrices, IsLastBegun};
ghost use Rattle.ocpi_types.specs.Prices.{price_at};
ghost use Rattle.ocpi_types.specs.declared.price_lists.PriceFrom.{PriceFrom};
ghost use Rattle.ocpi_types.specs.declared.site.Site.{Site};

/// Without entries the price is the site's own at all moments, as it is before the first entry begins. From the moment
/// of an entry until that of the next it is the entry's. An entry behind the others changes nothing before its moment.
/// A price is always in the range of prices.
pub fn prices_hold_from_their_moments()
    ensures own { (s : Site) (at : ℕ) → s.prices ≡ [] → price_at s at ≡ s.price }
    ensures before { (s : Site) (at : ℕ) → All (λ (p : PriceFrom). at < p.start_date_time) s.prices → price_at s at ≡ s.price }
    ensures entry { (s : Site) (at i : ℕ) (p : PriceFrom) → ArePrices s.prices → IsLastBegun at s.prices i p → price_at s at ≡ p.price }
    ensures added { (s t : Site) (at : ℕ) (p : PriceFrom) → s.price ≡ t.price → t.prices ≡ s.prices ++ p ∷ [] → at < p.start_date_time → price_at s at ≡ price_at t at }
    ensures bound { (s : Site) (at : ℕ) → IsPrice s.price → All (λ (p : PriceFrom). IsPrice p.price) s.prices → IsPrice (price_at s at) }
{}
