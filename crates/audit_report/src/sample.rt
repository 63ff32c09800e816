// What a seed draws from a manifest.
ghost use Rattle.std.specs.Prelude.{◌≡◌, ◌≤◌, ◌++◌, length, IfOk, string_bytes};
ghost use Rattle.manifest.specs.Cards.{card_id, cards_of};
ghost use Rattle.audit_report.specs.Sample.{draw_line, id_of_card, sample_table};

use irv_base::Memory;
use manifest::Manifest;
use sampler::{Seed, draw};
use std::alloc::{AllocError, Global};

fn add_line(
    text: &mut String,
    k: u32,
    number: u32,
    batch: &str,
    place: u32,
) -> Result<(), AllocError>
    ensures { IfOk result (λ _. string_bytes text.new ≡ string_bytes text.old
        ++ draw_line k number (card_id (record { batch = batch.now; k = place }))) }
{
    writeln!(text, "{k},{number},{batch}_{place}")
}

// Adds the line for draw `k`, which draws the card with this number.
fn add_draw(text: &mut String, m: &Manifest, k: u32, number: u32) -> Result<(), AllocError>
    requires first { 1 ≤ number }
    requires last { number ≤ length (cards_of m.now) }
    ensures { IfOk result (λ _. string_bytes text.new ≡
        string_bytes text.old ++ draw_line k number (id_of_card m.now number)) }
{
    let card = m.card(number);
    add_line(text, k, number, card.batch.text(), card.k)
}

/// One line for each of this many draws with the seed. The line has the number of the draw, counted from 1, the number of the card that is
/// drawn, and that card's id, separated by commas.
pub fn sample_table(alloc: Global, m: &Manifest, seed: &Seed, draws: u32) -> Result<Vec<u8>, Memory>
    ensures { IfOk result (λ text. text.items ≡ sample_table m.now seed.now draws) }
{
    let cards = m.cards();
    let mut text = String::new(alloc);
    for done in 0..draws {
        let k = done + 1;
        add_draw(&mut text, m, k, draw(seed, u64::from(k), cards))?;
    }
    Ok(text.into_bytes())
}
