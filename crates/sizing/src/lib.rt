// Whether the product of two neighbours fits, before anything is written: refusal 26 of the call `merge`.
#![tactic(auto)]

ghost use Rattle.std.specs.Prelude.{◌≡◌, ℕ, suc, ◌+◌, ◌≤◌, ◌<◌, ◌&&◌, length, drop, leb};
ghost use Rattle.answer.specs.Limits.{max_rows, max_bytes};
ghost use Rattle.model.specs.Model.{row_count};
ghost use Rattle.model.specs.Text.{comp_text, row_lines, text_of};
ghost use Rattle.merged.specs.Merge.{product_rows, merged, merged_at};
ghost use Rattle.layout.specs.Layout.{image_words, count_of};
ghost use Rattle.layout.specs.Image.{Image, comp_of, model_of};
ghost use Rattle.sizing.specs.Bare.{bare_of};
ghost use Rattle.sizing.specs.Sized.{Sized};

use answer::Model;
use product::Tally;

// The lines of the product of components i and j beside its rows.
fn head_width(t: &[u64], i: usize, j: usize) -> usize
    requires { Image t.now × (i < count_of t.now) × (j < count_of t.now) }
    ensures { result ≡ length (comp_text (bare_of (merged (comp_of t.now i) (comp_of t.now j)))) }
{
    let h = merging::head_of(t, i, j);
    measure::head_width(h.states, h.start, h.ins, h.outs, h.uins, h.uouts, h.clocks)
}

// The bytes of the merged model beside the product's rows.
fn bytes_beside(t: &[u64], i: usize) -> usize
    requires { Image t.now × (i + 1 < count_of t.now) }
    ensures { result + length (row_lines (product_rows (comp_of t.now i) (comp_of t.now (i + 1)))) ≡ length (text_of (merged_at (model_of t.now) i)) }
{
    let whole = measure::text_length(t);
    let first = measure::comp_width(t, i);
    let second = measure::comp_width(t, i + 1);
    whole + head_width(t, i, i + 1) - first - second
}

// The rows of the components after component j.
fn rows_behind(t: &[u64], j: usize) -> usize
    requires { Image t.now × (j < count_of t.now) }
    ensures { result ≡ row_count (drop (suc j) (model_of t.now)) }
{
    let count = layout::count_of(t) as usize;
    merging::end_of(t, count - 1) - merging::end_of(t, j)
}

fn fits(rows: usize, bytes: usize) -> bool
    ensures { result ≡ (leb rows max_rows && leb bytes max_bytes) }
{
    rows <= Model::ROWS && bytes <= Model::BYTES
}

// Where the rows of the product end, if it fits. `into` is only lent on to the walk that counts: nothing is written. The walk is as long as the product has
// rows, so its states are tested first.
pub fn size_of(t: &[u64], i: usize, into: &mut [u64]) -> Option<usize>
    requires { Image t.now × (i + 1 < count_of t.now) × (image_words ≤ length into.old) }
    ensures { Sized t.now i result × (into.new ≡ into.old) }
{
    let tall = layout::block_word(t, i, layout::STATES);
    let wide = layout::block_word(t, i + 1, layout::STATES);
    if tall * wide > Model::STATES as u64 {
        return None;
    }
    let bytes = bytes_beside(t, i);
    let n = product::emit_product(t, i, i + 1, into, 0, Tally { rows: 0, bytes });
    let new = merging::start_of(t, i) + n.rows;
    let rows = new + rows_behind(t, i + 1);
    if fits(rows, n.bytes) { Some(new) } else { None }
}
