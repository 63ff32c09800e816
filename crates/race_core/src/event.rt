// A single step of one worker.

/// One step of one worker. Workers and pieces are named by their numbers, from 0.
#[derive(Clone, Copy, Debug, PartialEq, Eq)]
pub enum Event {
    /// The worker takes the next piece, or is done if none is left.
    Take { worker: u32 },
    /// The worker looks at the bound.
    Look { worker: u32 },
    /// The worker lowers the bound to `m`, if the bound is above `m`.
    Post { worker: u32, m: u32 },
    /// The worker closes a piece that it took, with a look at the bound.
    Close { worker: u32, piece: u32 },
}
