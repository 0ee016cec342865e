//! A law over the definitions alone: the contract of a function that does nothing.

ghost use Rattle.data_back.specs.Laws.{PiecesAreRead};

/// What is printed at the front of a text is read, and the bytes behind it are left.
pub fn pieces_are_read()
    ensures { PiecesAreRead }
{}
