//! What a keeper of a node's rows is.

ghost use Rattle.std.specs.Prelude.{◌≡◌, ◌≢◌, ◌≤◌, ◌⊎◌, All, List, ℕ, [], IfErr, IfOk, OnErr, OnOk, None, Some};
ghost use Rattle.node_store.specs.Contents.{Content, IsReadAgain, changed_all, line_of, marked, rows_of};
ghost use Rattle.node_store.specs.Faults.{IsCommitFault, counted};
ghost use Rattle.node_store.specs.declared.fault.StoreFault.TheVariants.{BadRow, OldLayout};

use crate::fault::StoreFault;
use crate::line_number::LineNumber;
use ocpi_text::Whole;
use ocpi_types::{Change, Row};

/// What is kept of a node.
#[derive(Drop)]
pub struct Kept {
    /// Its rows, ordered by kind and key.
    pub rows: Vec<Row>,
    /// The number of the last line that took hold, or 1 where none did.
    pub line: Whole,
}

/// A keeper of the rows of a node, and of the number of the last line that took hold.
pub trait Keep {
    /// What it keeps: a text under each kind and key, ordered by kind and key.
    ghost content: { Self → Content };

    /// Whether what was written is what is read, and nobody else has written. All that is said of the content is said
    /// of a keeper that is honest after the call.
    ghost is_honest: { Self → Type 0 };

    /// How many calls it has refused.
    ghost refusals: { Self → ℕ };

    /// What is kept where a stop comes now.
    ghost may_leave: { Self → Content → Type 0 };

    /// The rows that are kept, ordered by kind and key, and the number of the last line that took hold. `BadRow` where
    /// a text is no row of its kind and key, or that of the number is no number from 2.
    fn load(&mut self) -> Result<Kept, StoreFault>
        ensures rows { Self.is_honest self.new → IfOk result (λ k. rows_of (Self.content self.old) ≡ Some k.rows.items) }
        ensures first { IfOk result (λ k. 1 ≤ k.line) }
        ensures line { Self.is_honest self.new → IfOk result (λ k. line_of (Self.content self.old) ≡ Some k.line) }
        ensures bad { Self.is_honest self.new → IfErr result (λ e. e ≡ BadRow → (rows_of (Self.content self.old) ≡ None) ⊎ (line_of (Self.content self.old) ≡ None)) }
        ensures layout { IfErr result (λ e. e ≢ OldLayout) }
        ensures counted { Self.refusals self.new ≡ counted result (Self.refusals self.old) }
        ensures kept { Self.is_honest self.new → Self.content self.new ≡ Self.content self.old }
        ensures honest { Self.is_honest self.new → Self.is_honest self.old }
        ensures stops { Self.is_honest self.new → (c : Content) → Self.may_leave self.new c → Self.may_leave self.old c };

    /// Makes the changes in turn, and keeps the number of the line that made them, where there is one: all of it or
    /// nothing.
    fn commit(&mut self, changes: &[Change], line: Option<LineNumber>) -> Result<(), StoreFault>
        ensures all { Self.is_honest self.new → OnOk result (Self.content self.new ≡ marked line (changed_all (Self.content self.old) changes.now)) }
        ensures none { Self.is_honest self.new → OnErr result (Self.content self.new ≡ Self.content self.old) }
        ensures fault { IfErr result IsCommitFault }
        // What was put can be read again, and what was taken away had a key of its own.
        ensures again { OnOk result (All IsReadAgain changes.now) }
        // It is refused only where the count rises.
        ensures counted { Self.refusals self.new ≡ counted result (Self.refusals self.old) }
        ensures honest { Self.is_honest self.new → Self.is_honest self.old }
        // A stop after changes were made leaves the content, and so does one after a number was kept.
        ensures settled { Self.is_honest self.new → OnOk result (changes.now ≢ [] → (c : Content) → Self.may_leave self.new c → c ≡ Self.content self.new) }
        ensures numbered { Self.is_honest self.new → OnOk result (line ≢ None → (c : Content) → Self.may_leave self.new c → c ≡ Self.content self.new) }
        // A stop at any other time leaves what it could leave before, or what the changes and the number make of the
        // content, and then what they put can be read again.
        ensures stops { Self.is_honest self.new → (c : Content) → Self.may_leave self.new c
            → Self.may_leave self.old c ⊎ ((c ≡ marked line (changed_all (Self.content self.old) changes.now)) × All IsReadAgain changes.now) };
}
