use std::marker::Model;

/// What a site tells of its port at a moment. It is a word of contracts: no call takes or gives one.
#[derive(Drop)]
pub struct Port {
    polls: u64,
}

impl Model for Port {
    ghost use Rattle.std.specs.Prelude.{[]};
    ghost use Rattle.site_model.specs.Port.{PortState};

    ghost Value = { PortState };

    ghost view = { λ p. record { sent = []; given = []; facts = []; made = []; polls = p.polls } };
}
