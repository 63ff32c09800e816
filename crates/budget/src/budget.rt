// What a budget counts, and the number that it allows.

/// How far a walk through elimination orders may go.
#[derive(Clone, Copy, Debug, PartialEq, Eq)]
pub enum Budget {
    /// This many suffixes for each piece of a race, and for each candidate who didn't win.
    Nodes(u32),
    /// This many sets of candidates, for all orders together.
    Sets(u32),
}
