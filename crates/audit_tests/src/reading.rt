// What the tests of several crates read: files in memory, and linked cards.
ghost use Rattle.std.specs.Prelude.{◌≡◌, ◌≤◌, IfOk, length};

use ballot_reader::read_ballots;
use command::FileName;
use desk::{MemoryDesk, Named};
use irv_base::Name;
use manifest::{Linked, Manifest, link};
use std::alloc::{AllocError, Global};

/// A desk of files, each by its name and its text.
pub(crate) fn desk_of(alloc: Global, files: &[(&str, &str)]) -> Result<MemoryDesk, AllocError> {
    let mut held = Vec::new(alloc);
    for &(name, text) in files {
        if let Some(name) = Name::read(name.as_bytes()) {
            let bytes = text.as_bytes().to_vec(alloc)?;
            held.push(Named { name, bytes })?;
        }
    }
    Ok(MemoryDesk::new(held, Vec::new(alloc)))
}

/// The cards of a manifest, linked to the ballots of a file, if both can be read and each ballot has its card.
pub(crate) fn linked(alloc: Global, manifest: &Manifest, ballots: &str) -> Option<Linked> {
    let Ok(ballots) = read_ballots(alloc, ballots.as_bytes(), None) else {
        return None;
    };
    link(alloc, manifest, &ballots).ok()
}

/// The name of a file, as a task has it.
pub(crate) fn named(alloc: Global, name: &str) -> Result<FileName, AllocError>
    requires { 1 ≤ length name.now }
    ensures { IfOk result (λ file. file ≡ name.now) }
{
    Ok(FileName::of(String::from_str(alloc, name)?))
}
