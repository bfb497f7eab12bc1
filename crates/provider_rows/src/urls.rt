//! How the command is found whose result is posted to a url (OCPI 2.2.1, Commands: response_url).

ghost use Rattle.std.specs.Prelude.{◌≡◌, ◌↔◌, ℕ, IfSome, IfNone, IsTrue};
ghost use Rattle.provider_rows.specs.Urls.{Fits, url_place};

use crate::books::Books;
use ocpi_text::{FreeText, Party, Whole};
use outbox::Outbox;

/// The number by which commands are found by their urls.
pub(crate) fn place_of(url: &FreeText<255>) -> Whole
    ensures { result ≡ url_place url.now }
{
    let bytes = url.as_str().as_bytes();
    let mut place = 0;
    for i in 0..bytes.len() {
        place = (u64::from(bytes[bytes.len() - 1 - i]) + 31 * place) % 1_000_000_007;
    }
    match Whole::new(place) {
        Some(place) => place,
        None => unreachable!(),
    }
}

/// Whether the result of the command of that number is posted to that url, by that party.
fn fits(outbox: &Outbox, number: Whole, url: &FreeText<255>, from: &Party) -> bool
    ensures { IsTrue result ↔ Fits outbox.now.rows.commands url.now from.now number }
{
    match outbox.command(number) {
        Some(sent) => {
            sent.command.response_url().as_str() == url.as_str() && sent.to.is_same(from)
        }
        None => false,
    }
}

impl Books {
    /// The least number of a command whose result is posted to that url, by that party. Urls are compared as spelled.
    /// It costs the logarithm of what is stored, and a step for each command whose url has the same place among urls.
    pub fn find_command(&self, url: &FreeText<255>, from: &Party) -> Option<Whole>
        ensures found { IfSome result (λ n. Fits self.now.state.rows.outbox.commands url.now from.now n) }
        ensures none { IfNone result ((n : ℕ) → ¬ Fits self.now.state.rows.outbox.commands url.now from.now n) }
    {
        let place = place_of(url);
        for (key, _) in self.urls.range_from((place, Whole::new(0).unwrap())) {
            if key.0 != place {
                return None;
            }
            if fits(&self.outbox, key.1, url, from) {
                return Some(key.1);
            }
        }
        None
    }
}
