// The task of an adoption.

use crate::file_name::FileName;
use budget::Budget;
use irv_base::Name;

/// The task to make an assertion file from the assertions of a claims file and their margins over the ballots of a contest.
#[derive(Drop)]
pub struct AdoptTask {
    /// The ballot file.
    pub ballots: FileName,
    /// The claims file.
    pub claims: FileName,
    /// The contest, which may be omitted if the file has only one.
    pub contest: Option<Name>,
    /// How far the check may go to find whether the claims refute each order that elects another candidate.
    pub budget: Budget,
}
