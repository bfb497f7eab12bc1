//! The past of a session.

ghost use Rattle.std.specs.Iterator.{YieldsFirstRef, item_count};
ghost use Rattle.world.specs.Seen.{versions_left};

use ocpi_text::CiKey;
use ocpi_types::{Boxed, Session};

/// The versions that a session had, oldest first: those that are left.
#[derive(Drop)]
pub struct Past<'w> {
    pub(crate) session: CiKey<36>,
    pub(crate) versions: &'w [Boxed<Session>],
}

impl<'w> Iterator for Past<'w> {
    type Item = &'w Session;

    ghost next_gives = { YieldsFirstRef versions_left };

    ghost remaining = { item_count versions_left };

    fn next(&mut self) -> Option<&'w Session> {
        while let Some((version, rest)) = self.versions.split_first() {
            self.versions = rest;
            if version.id.key() == self.session {
                return Some(version);
            }
        }
        None
    }
}
