// What a constraint is: the kinds, and the spots that have them.
ghost use Rattle.std.specs.Prelude.{◌<◌};

// What is asked of an occurrence: that its part is closed, or the same as the part of its variable's first occurrence.
#[derive(Clone, Copy)]
pub enum Kind {
    Closed,
    Same,
}

// A constraint: its kind, and the spot of its (later) occurrence.
#[derive(Clone, Copy)]
pub struct Constraint {
    pub kind: Kind,
    pub spot: usize,
    ghost within: { spot < 4096 },
}
