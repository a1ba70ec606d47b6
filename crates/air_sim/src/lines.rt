use std::marker::Model;

/// Lines of a log for each number of a card: what a power cut may leave at a moment. It is a word of contracts: no call takes or
/// gives one.
#[derive(Drop)]
pub struct Lines {
    number: u64,
}

impl Model for Lines {
    ghost use Rattle.std.specs.Prelude.{[], ◌∷◌};
    ghost use Rattle.air_sim.specs.Lines.{LinesByCard};

    ghost Value = { LinesByCard };

    ghost view = { λ l. (l.number, []) ∷ [] };
}
