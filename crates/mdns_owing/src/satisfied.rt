// Which queries an event leaves with nothing.
ghost use Rattle.std.specs.Prelude.{◌≡◌, ◌+◌, ◌<◌, List, length, slice_set};
ghost use Rattle.mdns_debts.specs.Queries.{Query};
ghost use Rattle.mdns_debts.specs.Following.{has_owed};
ghost use Rattle.mdns_owing.specs.Satisfied.{AreTold};

/// Which queries are owed nothing any more. Mostly it is none, or the one that a tick answers: that one is told by its place.
#[derive(Clone, Copy, Drop)]
pub enum Satisfied {
    Nobody,
    One(usize),
    Many,
}

impl Satisfied {
    /// These, and the query at the next place, which is or isn't owed something still.
    pub fn with(self, place: usize, is_owed: bool) -> Satisfied
        ensures { (queries : List Query) (query : Query) → place < length queries → is_owed ≡ has_owed query → AreTold place self queries → AreTold (place + 1) result (slice_set queries place query) }
    {
        if is_owed {
            return self;
        }
        match self {
            Satisfied::Nobody => Satisfied::One(place),
            _ => Satisfied::Many,
        }
    }
}
