//! What holds of each store.

ghost use Rattle.card_store.specs.CardLaws.{CardsAreSound};
ghost use Rattle.card_store.specs.Laws.{CommandsLeadOn};

/// Where a command of a script is left, the next one leads from the card that has run so many of its commands to the card
/// that has run one more.
pub fn commands_lead_on()
    ensures { CommandsLeadOn }
{}

/// Whatever a store stands for is a card of the pure machine: each line is of the card, above the base of its keyset, with
/// the status of its TAR and script; nothing ran where that isn't 00; only a script that has ended has an answer; and the
/// counters of each keyset rise.
pub fn stores_hold_cards()
    ensures { CardsAreSound }
{}
