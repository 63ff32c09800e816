// The digests of an audit's files.

/// The SHA-256 digests of the files of an audit.
#[derive(Clone, Copy, Debug, PartialEq, Eq)]
pub struct Digests {
    /// The digest of the ballot file.
    pub ballots: [u8; 32],
    /// The digest of the manifest.
    pub manifest: [u8; 32],
    /// The digest of the assertion file.
    pub assertions: [u8; 32],
}
