// The model text: it is read into a table, and a table's model is written as the one text that it has.
#![tactic(auto)]

ghost use Rattle.reading.specs.Read.{ReadCall};
ghost use Rattle.text.specs.Write.{WriteCall};

use answer::{Place, Refusal};

// The refusal of the text, then 24 with the bytes needed; else the image at the front of the table. No word is written before the last line is checked.
pub fn read(text: &[u8], table: &mut [u64]) -> Result<(), Refusal>
    ensures { ReadCall text.now table.old table.new result }
{
    survey::check_text(text)?;
    if table.len() < layout::WORDS {
        return Err(Refusal {
            number: 24,
            place: Place::Bytes(layout::WORDS * 8),
        });
    }
    intake::build(text, table);
    Ok(())
}

// 20, then 24 with the bytes needed; else the text at the front of the buffer, and its length.
pub fn write(table: &[u64], text: &mut [u8]) -> Result<usize, Refusal>
    ensures { WriteCall table.now text.old text.new result }
{
    if !table::recognise(table) {
        return Err(Refusal {
            number: 20,
            place: Place::Whole,
        });
    }
    let needed = measure::text_length(table);
    if text.len() < needed {
        return Err(Refusal {
            number: 24,
            place: Place::Bytes(needed),
        });
    }
    Ok(writing::write_text(table, text))
}
