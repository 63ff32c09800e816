//! How the suite reaches the outside world: desks, from which files are read; sinks, to which texts are written; and a gate for
//! tests. Each of them is a trait with two implementations: one in memory, which reports everything, and one over the system, whose
//! content no contract can know. Another trait stands for what takes a file's bytes piece by piece.
#![tactic(auto)]

mod calls;
mod desk;
mod file_desk;
mod gate;
mod memory_desk;
mod memory_sink;
mod served;
mod sink;
mod stream_sink;
mod taker;
mod whole;

pub use desk::{Desk, Failed};
pub use file_desk::FileDesk;
pub use gate::{Gate, NoGate};
pub use memory_desk::{MemoryDesk, Named};
pub use memory_sink::MemorySink;
pub use served::Served;
pub use sink::Sink;
pub use stream_sink::StreamSink;
pub use taker::Taker;
pub use whole::{DeskFault, read_into, write_all};
