// The task of a check.

use crate::file_name::FileName;
use budget::Budget;
use irv_base::Name;

/// The task to find whether an assertion file holds of the ballots of a contest.
#[derive(Drop)]
pub struct CheckTask {
    /// The ballot file.
    pub ballots: FileName,
    /// The assertion file.
    pub assertions: FileName,
    /// The contest, which may be omitted if the file has only one.
    pub contest: Option<Name>,
    /// How far the check may go.
    pub budget: Budget,
}
