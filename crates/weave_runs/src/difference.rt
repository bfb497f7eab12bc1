//! Which member of two records differs, by the texts that spell them.

use std::alloc::{AllocError, Global};

/// An object or an array that is open.
#[derive(Clone, Copy)]
struct Level {
    /// How long the path of it is.
    start: usize,
    /// Of an array, how many elements stand before the one that is read.
    elements: Option<usize>,
}

/// The reading of a text of JSON without spaces, byte by byte.
#[derive(Drop)]
struct Walk {
    alloc: Global,
    /// What leads to the value that is read: the names of members, and the places of elements.
    path: Vec<u8>,
    levels: Vec<Level>,
    /// The text that is read, or was read last.
    word: Vec<u8>,
    in_text: bool,
    is_escaped: bool,
    /// Whether a member is to be named.
    is_unnamed: bool,
}

impl Walk {
    /// Before the first byte.
    fn new(alloc: Global) -> Walk {
        Walk {
            alloc,
            path: Vec::new(alloc),
            levels: Vec::new(alloc),
            word: Vec::new(alloc),
            in_text: false,
            is_escaped: false,
            is_unnamed: false,
        }
    }

    /// Takes a byte. An error is want of memory.
    fn take(&mut self, byte: u8) -> Result<(), AllocError> {
        if self.in_text {
            return self.take_in_text(byte);
        }
        match byte {
            b'"' => {
                self.in_text = true;
                self.word.clear();
                Ok(())
            }
            b'{' => {
                self.is_unnamed = true;
                self.open(None)
            }
            b'[' => self.open(Some(0)),
            b':' => self.name_member(),
            b',' => self.next(),
            b'}' | b']' => {
                self.close();
                Ok(())
            }
            _ => Ok(()),
        }
    }

    /// Takes a byte of a text.
    fn take_in_text(&mut self, byte: u8) -> Result<(), AllocError> {
        if self.is_escaped {
            self.is_escaped = false;
        } else if byte == b'\\' {
            self.is_escaped = true;
        } else if byte == b'"' {
            self.in_text = false;
            return Ok(());
        }
        match self.word.push(byte) {
            Ok(()) => Ok(()),
            Err(_) => Err(AllocError),
        }
    }

    /// An object or an array begins.
    fn open(&mut self, elements: Option<usize>) -> Result<(), AllocError> {
        let start = self.path.len();
        match self.levels.push(Level { start, elements }) {
            Ok(()) => self.place_element(start, elements),
            Err(_) => Err(AllocError),
        }
    }

    /// Of an array, says which element is read.
    fn place_element(&mut self, start: usize, elements: Option<usize>) -> Result<(), AllocError> {
        let Some(place) = elements else {
            return Ok(());
        };
        let text = format!(in self.alloc; "[{place}]")?;
        self.path.truncate(start);
        self.path.extend_from_slice(text.as_bytes())
    }

    /// A member has its name.
    fn name_member(&mut self) -> Result<(), AllocError> {
        self.is_unnamed = false;
        let Some(level) = self.levels.last() else {
            return Ok(());
        };
        let start = level.start;
        self.path.truncate(start);
        if start > 0 {
            self.path.extend_from_slice(b".")?;
        }
        self.path.extend_from_slice(self.word.as_slice())
    }

    /// One more member or element is to come.
    fn next(&mut self) -> Result<(), AllocError> {
        let Some(level) = self.levels.pop() else {
            return Ok(());
        };
        let elements = match level.elements {
            Some(place) => Some(place.saturating_add(1)),
            None => None,
        };
        self.is_unnamed = elements.is_none();
        self.path.truncate(level.start);
        self.open(elements)
    }

    /// An object or an array ends.
    fn close(&mut self) {
        self.is_unnamed = false;
        if let Some(level) = self.levels.pop() {
            self.path.truncate(level.start);
        }
    }

    /// What leads to the value that was read last.
    fn into_path(self) -> Option<String> {
        let Walk {
            alloc: _,
            path,
            levels,
            word,
            in_text: _,
            is_escaped: _,
            is_unnamed: _,
        } = self;
        drop(levels);
        drop(word);
        match String::from_utf8(path) {
            Ok(text) => Some(text),
            Err(_) => None,
        }
    }
}

/// Whether a member or an element, or all of them, ends with this byte.
fn is_end(byte: u8) -> bool {
    matches!(byte, b',' | b'}' | b']')
}

/// How many bytes two texts have in common, from the first on.
fn common(one: &[u8], other: &[u8]) -> usize {
    let mut count: usize = 0;
    for (a, b) in one.iter().zip(other) {
        if *a != *b {
            return count;
        }
        count = count.saturating_add(1);
    }
    count
}

/// The first member by which two records differ, as `body.total_cost.excl_vat`: the records are those that the texts
/// spell, of JSON without spaces, with the members of each object in the byte order of their names. An error is want of
/// memory.
pub(crate) fn first_difference(
    alloc: Global,
    one: &[u8],
    other: &[u8],
) -> Result<Option<String>, AllocError> {
    let same = common(one, other);
    let mut walk = Walk::new(alloc);
    for byte in one.iter().take(same) {
        walk.take(*byte)?;
    }
    let (Some(a), Some(b)) = (one.get(same), other.get(same)) else {
        return Ok(walk.into_path());
    };
    // The one of which the next byte is less has a member or an element that the other has not.
    let longer = if *a < *b { one } else { other };
    let has_more = !walk.in_text && is_end(*a) && is_end(*b);
    let mut is_first = has_more;
    for byte in longer.iter().skip(same) {
        if !is_first && !walk.is_unnamed {
            break;
        }
        is_first = false;
        walk.take(*byte)?;
    }
    Ok(walk.into_path())
}
