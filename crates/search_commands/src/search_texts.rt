// The lines of a search whose margin calls for a full count.
ghost use Rattle.std.specs.Prelude.{◌≡◌, IfOk, string_bytes};
ghost use Rattle.search_commands.specs.Search.{certificate_order_text, full_count_lines, full_count_text};

use assertion_file::AssertionFile;
use irv_base::Memory;
use report::order_text;
use std::alloc::{AllocError, Global};

/// The order of a certificate, by the ids of its candidates.
pub(crate) fn certificate_order_text(alloc: Global, file: &AssertionFile) -> Result<String, Memory>
    ensures { IfOk result (λ text. string_bytes text ≡ certificate_order_text file.now) }
{
    match file.order() {
        Some(order) => order_text(alloc, file.candidates(), order),
        // A certificate has an order.
        None => Ok(String::new(alloc)),
    }
}

/// The lines that give the order of a certificate as the reason for a full count.
pub(crate) fn full_count(alloc: Global, file: &AssertionFile, floor: u32) -> Result<Vec<u8>, Memory>
    ensures { IfOk result (λ text. text.items ≡ full_count_text file.now floor) }
{
    let order = certificate_order_text(alloc, file)?;
    let text = full_count_lines(alloc, order.as_str(), file.margin(), floor)?;
    Ok(text.into_bytes())
}

fn full_count_lines(
    alloc: Global,
    order: &str,
    margin: u32,
    floor: u32,
) -> Result<String, AllocError>
    ensures { IfOk result (λ text. string_bytes text ≡ full_count_lines order.now margin floor) }
{
    format!(in alloc; "full count\norder {order}\nmargin {margin}\nfloor {floor}\n")
}
