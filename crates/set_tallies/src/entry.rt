// What a bag keeps of the records of a contest, for one candidate.

/// A set of candidates, and the number of ballots on which exactly these come before the candidate.
#[derive(Clone, Copy)]
pub struct Entry {
    /// The number of the set.
    pub before: u32,
    /// The number of ballots on which exactly the candidates of the set come before the candidate.
    pub count: u32,
}
