//! Laws of the definitions, for all values: the function's contract is the law, and its body does nothing.

ghost use Rattle.token_desk.specs.References.{NeverRepeat};

/// The references that a party gives one after the other all differ.
pub fn references_never_repeat()
    ensures { NeverRepeat }
{}
