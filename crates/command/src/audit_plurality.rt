// The task of a round of an audit of a plurality contest.

use crate::file_name::FileName;

/// The task to add a round to the session of an audit of first preferences.
#[derive(Drop)]
pub struct AuditPluralityTask {
    /// The session file.
    pub session: FileName,
    /// The ballot file.
    pub ballots: FileName,
    /// The manifest.
    pub manifest: FileName,
    /// The file of seen cards.
    pub seen: FileName,
    /// The number of draws after the round, counted from the first draw of the audit.
    pub draws: u32,
}
