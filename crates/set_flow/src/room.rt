// The room of a step.
ghost use Rattle.std.specs.Prelude.{◌≡◌};
ghost use Rattle.set_flow.specs.Rooms.{is_free, is_open};

/// How much may flow over a step.
#[derive(Clone, Copy, Debug, PartialEq, Eq)]
pub enum Room {
    /// Nothing.
    Closed,
    /// One unit, since a NEN can cut the step.
    One,
    /// Any number.
    Many,
}

impl Room {
    /// Whether anything may flow over the step.
    pub fn is_open(self) -> bool
        ensures { result ≡ is_open self }
    {
        match self {
            Room::Closed => false,
            Room::One | Room::Many => true,
        }
    }

    /// Whether there is room for one more unit when this many flow.
    pub fn is_free(self, carries: u32) -> bool
        ensures { result ≡ is_free self carries }
    {
        match self {
            Room::Closed => false,
            Room::One => carries == 0,
            Room::Many => true,
        }
    }
}
