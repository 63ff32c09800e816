// The task of a tabulation.

use crate::file_name::FileName;
use irv_base::Name;

/// The task to list the rounds of a contest, or its first tie if that leaves open who won.
#[derive(Drop)]
pub struct TabulateTask {
    /// The ballot file.
    pub ballots: FileName,
    /// The contest, which may be omitted if the file has only one.
    pub contest: Option<Name>,
    /// The maximum number of suffixes that a race may expand for one piece, if there is a tie.
    pub nodes: u32,
}
