// The files of an audit of a single card: its manifest, its ballot, and the only assertion to be confirmed.
use session_state::Digests;

/// The manifest of the card.
pub(crate) const MANIFEST: &str = "batch,cards\nb,1\n";

/// The ballot of the card.
pub(crate) const BALLOTS: &str = "1\nContest,7,2,1,2\n7,b_1,1\n";

/// The assertion file, which says that the first candidate is before the second, by one vote.
pub(crate) const ASSERTIONS: &str =
    "{\"assertions\":[{\"kind\":\"NEB\",\"loser\":\"2\",\"margin\":1,\"winner\":\"1\"}],\"candidates\":[\"1\",\"2\"],\"contest\":\"7\",\"margin\":1,\"order\":[\"1\",\"2\"],\"records\":1,\"version\":1,\"winner\":\"1\"}\n";

/// Digests that differ. They aren't those of any file.
pub(crate) fn some_digests() -> Digests {
    Digests {
        ballots: [1; 32],
        manifest: [2; 32],
        assertions: [3; 32],
    }
}
