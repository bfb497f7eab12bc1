//! What is found of a site.

ghost use Rattle.std.specs.Prelude.{◌≡◌};

use ocpi_types::Location;

/// A location that a site book found: one of its site, with where it stands in the site's list. Only a book makes it,
/// and the book cannot change while it is kept.
#[derive(Clone, Copy)]
pub struct FoundLocation<'a> {
    /// Where the location stands in the site's list.
    pub(crate) position: usize,
    pub(crate) location: &'a Location,
}

impl<'a> FoundLocation<'a> {
    ghost use Rattle.site_book.specs.Sites.{location_of};

    /// The location itself.
    pub fn location(&self) -> &'a Location
        ensures { result.now ≡ location_of self.now }
    {
        self.location
    }
}
