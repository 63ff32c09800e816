// The task of a round of an audit.

use crate::file_name::FileName;
use budget::Budget;

/// The task to add a round to a session.
#[derive(Drop)]
pub struct AuditTask {
    /// The session file.
    pub session: FileName,
    /// The ballot file.
    pub ballots: FileName,
    /// The manifest.
    pub manifest: FileName,
    /// The assertion file.
    pub assertions: FileName,
    /// The file of seen cards.
    pub seen: FileName,
    /// The number of draws after the round, counted from the first draw of the audit.
    pub draws: u32,
    /// How far the check of the assertions may go.
    pub budget: Budget,
}
