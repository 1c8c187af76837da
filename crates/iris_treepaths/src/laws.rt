//! Laws of a row in hand.

ghost use Rattle.iris_treepaths.specs.Laws.{GivenUp, NewRowInHand};

/// A new row with nothing below it is in hand.
pub fn new_row_in_hand()
    ensures { NewRowInHand }
{}

/// A row in hand with nothing below it may be given up.
pub fn given_up()
    ensures { GivenUp }
{}
