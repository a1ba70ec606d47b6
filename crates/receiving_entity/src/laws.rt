//! What holds of a card's answers.

ghost use Rattle.receiving_entity.specs.Laws.{AnsweredAsReserved, TakenUnlessRefused};

/// A command that a card opens is answered as the table of cards says of its reservation: the same rules, in the same order.
pub fn answered_as_reserved()
    ensures status { AnsweredAsReserved }
    ensures taken { TakenUnlessRefused }
{}
