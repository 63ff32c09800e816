// The digests of an audit's files.
ghost use Rattle.std.specs.Prelude.{◌≡◌, None, IfOk, IfErr};
ghost use Rattle.sha2.specs.Sha256.{sha256};
ghost use Rattle.cli_base.specs.Due.{due_refusal};
ghost use Rattle.input_files.specs.Judged.{IsTold};
ghost use Rattle.session_rounds.specs.Refusals.{other_digest};

use crate::texts::differs_text;
use cli_base::Refusal;
use command::FileName;
use input_files::refuse_for;
use sha2::{Digest, Sha256};
use std::alloc::Global;

/// The SHA-256 digest (FIPS 180-4) of the bytes of a file.
pub fn digest_of(bytes: &[u8]) -> [u8; 32]
    ensures { result ≡ sha256 bytes.now }
{
    Sha256::digest(bytes)
}

/// Checks that the bytes of the file have the expected digest.
pub fn same_digest(
    alloc: Global,
    file: &FileName,
    expected: &[u8; 32],
    bytes: &[u8],
) -> Result<(), Refusal>
    ensures same { IfOk result (λ _. other_digest file.now expected.now bytes.now ≡ None) }
    ensures refused { IfErr result (λ refusal.
        IsTold (other_digest file.now expected.now bytes.now) (due_refusal refusal)) }
{
    let found = digest_of(bytes);
    if expected.as_slice() == found.as_slice() {
        return Ok(());
    }
    Err(refuse_for(alloc, file, differs_text(alloc, expected, &found)))
}
