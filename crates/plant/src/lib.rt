// A repairable fault tree is read into a table, as its model.
#![tactic(auto)]

ghost use Rattle.plant.specs.ReadTreeCall.{ReadTreeCall};

use answer::{Place, Refusal};

// 2, 4 and 6 line by line, then 5, 47, 48, then 24 with the bytes needed; else the image at the front of the table. No word is written before all is checked.
pub fn read_tree(text: &[u8], table: &mut [u64]) -> Result<(), Refusal>
    ensures { ReadTreeCall text.now table.old table.new result }
{
    treetests::check_well_formed(text)?;
    if !treesize::fits(text, table) {
        return Err(Refusal {
            number: 48,
            place: Place::Whole,
        });
    }
    if table.len() < layout::WORDS {
        return Err(Refusal {
            number: 24,
            place: Place::Bytes(layout::WORDS * 8),
        });
    }
    planting::put_image(text, table);
    Ok(())
}
