//! The laws of a provider's rows.

ghost use Rattle.provider_rows.specs.RowLaws.{RowsChange, StaysConsistent, StepsStaySound};

/// Changes of different rows that may be made lead from the rows before them to those after them: what stands is what
/// was put, and what stood under a key that was neither put nor dropped.
pub fn rows_change()
    ensures { RowsChange }
{}

/// What holds of a provider at all times holds once a step is carried out.
pub fn steps_stay_sound()
    ensures { StepsStaySound }
{}

/// A provider is consistent at first, and a step or a restart leaves it so.
pub fn stays_consistent()
    ensures { StaysConsistent }
{}
