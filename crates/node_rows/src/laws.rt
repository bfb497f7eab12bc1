//! The laws of contents that hold the rows of a node.

ghost use Rattle.node_rows.specs.Laws.{
  AreClasses,
  ChangesAreHeld,
  EmptyIsHeld,
  HeldRowsStartAgain,
  NumbersAreApart,
  PlansAreHeld,
  RestartsAreHeld,
  RowsAreOfOne,
  SerialsAreInOrder,
};

/// The changes of a step make of a content that holds the rows of a node one that holds those of the node after it.
pub fn changes_are_held()
    ensures { ChangesAreHeld }
{}

/// And so do those of a step that is planned, and may be carried out.
pub fn plans_are_held()
    ensures { PlansAreHeld }
{}

/// A content holds the rows of a node whatever number of a line it has, and with none.
pub fn numbers_are_apart()
    ensures { NumbersAreApart }
{}

/// The empty content holds the rows of each node before its first event, and of no node in which a row stands.
pub fn empty_is_held()
    ensures { EmptyIsHeld }
{}

/// What holds the rows of a node holds those of each that stores alike: as it starts again, and after a step that
/// changes no row.
pub fn restarts_are_held()
    ensures { RestartsAreHeld }
{}

/// Nodes that store alike are classes.
pub fn alike_are_classes()
    ensures { AreClasses }
{}

/// Of one opening, rows are those of one node, as it starts again.
pub fn rows_are_of_one()
    ensures { RowsAreOfOne }
{}

/// And of them that node is made again.
pub fn held_rows_start_again()
    ensures { HeldRowsStartAgain }
{}

/// The packets of a step have the serials that follow the last one, in order.
pub fn serials_are_in_order()
    ensures { SerialsAreInOrder }
{}
