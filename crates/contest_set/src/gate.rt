// The gate of one contest.

use desk::Gate;

/// The gate of a search by one worker. It is called with the place of the contest instead of the worker's number.
#[derive(Drop)]
pub struct Numbered<'g, G: Gate> {
    pub gate: &'g G,
    pub place: u32,
}

impl<'g, G: Gate> Gate for Numbered<'g, G> {
    fn at(&self, _worker: u32, piece: u32) {
        self.gate.at(self.place, piece)
    }
}
