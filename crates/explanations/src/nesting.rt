//! Where a text ceases to be JSON.

use json::{Reader, Scratch, Token};
use std::alloc::{AllocError, Global};

/// How many arrays and objects may stand within one another.
pub const MAX_DEPTH: usize = 127;

/// What is open before a token.
#[derive(Drop)]
struct Nesting {
    /// The arrays and objects that have not ended, each by whether it is an object.
    open: Vec<bool>,
    /// A name came, and its value did not yet.
    is_named: bool,
    /// A whole value came.
    is_done: bool,
}

impl Nesting {
    /// Whether a name must come next, or the end of the object.
    fn wants_name(&self) -> bool {
        self.open.last() == Some(&true) && !self.is_named
    }

    /// Takes a token that is a whole value, or the last one of a value, and answers whether it may stand there.
    fn take_value(&mut self) -> bool {
        if self.is_done || self.wants_name() {
            return false;
        }
        self.is_named = false;
        self.is_done = self.open.is_empty();
        true
    }

    fn begin(&mut self, is_object: bool) -> Result<bool, AllocError> {
        if self.is_done || self.wants_name() || self.open.len() >= MAX_DEPTH {
            return Ok(false);
        }
        self.is_named = false;
        self.open.push(is_object)?;
        Ok(true)
    }

    fn end(&mut self, is_object: bool) -> bool {
        if self.is_named || self.open.last() != Some(&is_object) {
            return false;
        }
        self.open.pop();
        self.is_done = self.open.is_empty();
        true
    }

    fn name(&mut self) -> bool {
        if !self.wants_name() {
            return false;
        }
        self.is_named = true;
        true
    }

    /// Takes a token, and answers whether it may stand there.
    fn take(&mut self, token: &Token<'_>) -> Result<bool, AllocError> {
        match token {
            Token::BeginObject => self.begin(true),
            Token::BeginArray => self.begin(false),
            Token::EndObject => Ok(self.end(true)),
            Token::EndArray => Ok(self.end(false)),
            Token::Key(_) => Ok(self.name()),
            Token::String(_) | Token::Number(_) | Token::Bool(_) | Token::Null => {
                Ok(self.take_value())
            }
            Token::Bad => Ok(false),
        }
    }
}

/// Where a text ceases to be JSON.
#[derive(Clone, Copy)]
pub struct End {
    /// How many bytes stand before what may not stand there. All of them, where something is wanting at the end.
    pub offset: usize,
    /// How many arrays and objects are open there.
    pub depth: usize,
}

/// Where a text ceases to be JSON that is nested no deeper than [`MAX_DEPTH`], if it does.
pub fn end_of_json(alloc: Global, text: &str) -> Result<Option<End>, AllocError> {
    let mut nesting = Nesting {
        open: Vec::new(alloc),
        is_named: false,
        is_done: false,
    };
    let mut scratch = Scratch::new(alloc);
    let mut reader = Reader::new(text, &mut scratch)?;
    for _turn in 0..=text.len() {
        let offset = reader.offset();
        let depth = nesting.open.len();
        let Some(token) = reader.next() else {
            let offset = text.len();
            return Ok(if nesting.is_done {
                None
            } else {
                Some(End { offset, depth })
            });
        };
        if let Token::Bad = token {
            let offset = reader.offset();
            return Ok(Some(End { offset, depth }));
        }
        if !nesting.take(&token)? {
            return Ok(Some(End { offset, depth }));
        }
    }
    Ok(None)
}
