// The task of a trim.

use crate::file_name::FileName;
use budget::Budget;
use irv_base::Name;

/// The task to drop the claims that can be removed from an assertion file that holds of the ballots of a contest.
#[derive(Drop)]
pub struct TrimTask {
    /// The ballot file.
    pub ballots: FileName,
    /// The assertion file.
    pub assertions: FileName,
    /// The contest, which may be omitted if the file has only one.
    pub contest: Option<Name>,
    /// How far the check, and each trial without a claim, may go.
    pub budget: Budget,
}
