//! A change of what is awaited.

use crate::awaited::Awaited;
use ocpi_text::Whole;

/// A change of what is awaited.
#[derive(Clone, Copy)]
pub enum Waiting {
    /// The authorization that the request of that number asks for is awaited.
    Begins { number: Whole, awaited: Awaited },
    /// The authorization that the request of that number asked for is awaited no longer, whether it was or not.
    Ends { number: Whole },
}
