//! Whether the values of a short list differ by their ids: each pair is compared.

ghost use Rattle.std.specs.Prelude.{◌≡◌, ◌↔◌, ℕ, List, map, Contains, IsTrue};
ghost use Rattle.std.specs.Str.{bytes_eq};
ghost use Rattle.ocpi_types.specs.Apart.{DifferFrom};

/// What is told from others by an id.
pub(crate) trait Identified {
    /// Its id, in key form.
    ghost id_key: { Self → List ℕ };

    /// Whether the two have the same id.
    fn is_same(&self, other: &Self) -> bool
        ensures { result ≡ bytes_eq (Self.id_key self.now) (Self.id_key other.now) };
}

/// Whether one of the values has the id of a further one.
fn is_among<T: Identified>(values: &[T], value: &T) -> bool
    ensures { IsTrue result ↔ Contains (map T.id_key values.now) (T.id_key value.now) }
{
    values.iter().any(|other| value.is_same(other))
}

/// Whether the ids of the values differ, from one another and from those of earlier values.
pub(crate) fn differ_from<T: Identified>(earlier: &[T], values: &[T]) -> bool
    ensures { IsTrue result ↔ DifferFrom (map T.id_key earlier.now) (map T.id_key values.now) }
{
    for i in 0..values.len() {
        let value = &values[i];
        if is_among(earlier, value) || is_among(&values[..i], value) {
            return false;
        }
    }
    true
}
