// What the tests of several crates do with texts.
use std::alloc::{AllocError, Global};

/// The text with each `old` replaced by another text.
pub(crate) fn altered(
    alloc: Global,
    text: &str,
    old: &str,
    new: &str,
) -> Result<String, AllocError> {
    text.replace(alloc, old, new)
}
