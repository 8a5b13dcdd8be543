// Missing self-loops put in.
#![tactic(auto)]

ghost use Rattle.std.specs.Prelude.{◌≡◌, ◌||◌, not, length, ltb, Err};
ghost use Rattle.answer.specs.Limits.{max_rows, max_bytes};
ghost use Rattle.model.specs.Model.{row_count};
ghost use Rattle.layout.specs.Image.{Image, model_of};
ghost use Rattle.repair.specs.Repairing.{Repairing};

use answer::{Model, Place, Refusal};
use lacking::Tally;

fn refused(number: u8, place: Place) -> Result<usize, Refusal>
    ensures { result ≡ Err (record { number = number; place = place }) }
{
    Err(Refusal { number, place })
}

// The rows of the table's model.
fn row_count(t: &[u64]) -> usize
    requires { Image t.now }
    ensures { result ≡ row_count (model_of t.now) }
{
    let last = layout::count_of(t) as usize - 1;
    let states = layout::block_word(t, last, layout::STATES) as usize;
    layout::first_of(t, last, states)
}

// Whether a model of so many rows and bytes is over a limit.
fn too_large(rows: usize, bytes: usize) -> bool
    ensures { result ≡ (ltb max_rows rows || ltb max_bytes bytes) }
{
    Model::ROWS < rows || Model::BYTES < bytes
}

// 24, 26, and else the table and the list, of an image: everything is counted before anything is written.
fn repaired(t: &mut [u64], list: &mut [u8]) -> Result<usize, Refusal>
    requires { Image t.old }
    ensures { Repairing t.old list.old result t.new list.new }
{
    let bytes = measure::text_length(t);
    let n = lacking::walk(t, list, false, Tally { rows: 0, bytes });
    let needed = 3 * n.rows;
    if list.len() < needed {
        return refused(24, Place::Bytes(needed));
    }
    let rows = row_count(t) + n.rows;
    if too_large(rows, n.bytes) {
        return refused(26, Place::Whole);
    }
    let k = n.rows;
    lacking::walk(t, list, true, Tally { rows: 0, bytes });
    mending::mend(t, k);
    Ok(k)
}

// A self-loop for each state that lacks a row of an input: 20, 24 of the list, 26; else in the lent table, each added row in the lent list, and their number.
pub fn repair(table: &mut [u64], list: &mut [u8]) -> Result<usize, Refusal>
    ensures { Repairing table.old list.old result table.new list.new }
{
    if !table::recognise(table) {
        return refused(20, Place::Whole);
    }
    repaired(table, list)
}
