// The task of a report.

use crate::file_name::FileName;

/// The task to report what a session says.
#[derive(Drop)]
pub struct ReportTask {
    /// The session file.
    pub session: FileName,
}
