// Places as a list.
use std::marker::Model;
use xd_link::Place;

/// The places of workers. Contracts see their list.
#[derive(Drop)]
pub struct Places {
    pub items: Vec<Place>,
}

impl Model for Places {
    ghost use Rattle.std.specs.Prelude.{List};
    ghost use Rattle.xd_link.specs.declared.place.Place.{Place};

    ghost Value = { List Place };

    ghost view = { λ p. p.items.items };
}
