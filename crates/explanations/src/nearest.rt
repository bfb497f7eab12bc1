//! What a misspelled name may mean.

use json::Value;
use std::alloc::{AllocError, Global};
use strsim::levenshtein;

/// The most characters of a name that is compared.
const MOST_COMPARED: usize = 48;

/// The candidate so far that is spelled most like a text, and by how many characters it differs.
#[derive(Clone, Copy)]
pub struct Nearest<'t> {
    pub text: Option<&'t str>,
    distance: usize,
}

impl<'t> Nearest<'t> {
    /// None yet. What differs by more than a third of the characters, or three, is no candidate.
    pub fn new(text: &str) -> Nearest<'t> {
        Nearest {
            text: None,
            distance: (text.len() / 3).min(3) + 1,
        }
    }

    /// Takes a candidate where it is nearer to the text than the one before.
    pub fn offer(
        &mut self,
        alloc: Global,
        text: &str,
        candidate: &'t str,
    ) -> Result<(), AllocError> {
        if text == candidate || text.len().max(candidate.len()) > MOST_COMPARED {
            return Ok(());
        }
        let distance = if text.eq_ignore_ascii_case(candidate) {
            0
        } else {
            levenshtein(alloc, text, candidate)?
        };
        if distance < self.distance {
            self.text = Some(candidate);
            self.distance = distance;
        }
        Ok(())
    }
}

/// The name of a member of that object that is spelled most like a name, if one nearly is.
pub fn nearest_name<'a>(
    alloc: Global,
    name: &str,
    object: &Value<'a>,
) -> Result<Option<&'a str>, AllocError> {
    let Value::Object(members) = object else {
        return Ok(None);
    };
    let mut nearest = Nearest::new(name);
    for member in members {
        nearest.offer(alloc, name, member.0)?;
    }
    Ok(nearest.text)
}
