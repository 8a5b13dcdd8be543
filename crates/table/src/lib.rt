// The recogniser (refusal 20): whether the front of a lent buffer of any length and content is an image (docs/TABLE.md). It walks the image a fixed number of times.
#![tactic(auto)]

ghost use Rattle.std.specs.Prelude.{◌≡◌, ℕ, ◌+◌, ◌-◌, ◌≤◌, ◌<◌, length};
ghost use Rattle.laws.specs.Sets.{within};
ghost use Rattle.laws.specs.Fold.{all};
ghost use Rattle.answer.specs.Limits.{max_rows};
ghost use Rattle.model.specs.Model.{acts, guard_set};
ghost use Rattle.layout.specs.Layout.{image_words, count_of, block_word};
ghost use Rattle.layout.specs.Image.{comp_of};
ghost use Rattle.blocks.specs.Blocks.{end_before, Bounded};
ghost use Rattle.table.specs.Rows.{row_right, climbs, state_climbs, comp_rows_right, rows_right, rest_zero};
ghost use Rattle.table.specs.IsImage.{is_image};

use answer::Model;

// A guard is `-`, or a clock of the set.
fn guard_right(g: u64, clocks: u64) -> bool
    ensures { result ≡ within (guard_set g) clocks }
{
    if g == 0 {
        return true;
    }
    if (Model::CLOCKS as u64) < g {
        return false;
    }
    sets::has(clocks, g - 1)
}

fn row_right(t: &[u64], acts: u64, clocks: u64, states: u64, r: usize) -> bool
    requires { (image_words ≤ length t.now) × (r < max_rows) }
    ensures { result ≡ row_right t.now acts clocks states r }
{
    let action = layout::action_at(t, r);
    if action >= Model::ACTIONS as u64 {
        return false;
    }
    if !sets::has(acts, action) {
        return false;
    }
    if !guard_right(layout::guard_at(t, r), clocks) {
        return false;
    }
    if !sets::lies_in(layout::resets_at(t, r), clocks) {
        return false;
    }
    layout::target_at(t, r) < states
}

// The rows lo .. hi of a component with these actions, clocks and states.
fn range_right(t: &[u64], acts: u64, clocks: u64, states: u64, lo: usize, hi: usize) -> bool
    requires { (image_words ≤ length t.now) × (hi ≤ max_rows) }
    ensures { result ≡ all (row_right t.now acts clocks states) lo hi }
{
    for r in lo..hi {
        if !row_right(t, acts, clocks, states, r) {
            return false;
        }
    }
    true
}

// Row r stands before the next, whichever state both leave.
fn row_climbs(t: &[u64], r: usize) -> bool
    requires { (image_words ≤ length t.now) × (r + 1 < max_rows) }
    ensures { (s : ℕ) → result ≡ climbs t.now s r }
{
    let action = layout::action_at(t, r);
    let action_next = layout::action_at(t, r + 1);
    if action != action_next {
        return action < action_next;
    }
    let guard = layout::guard_at(t, r);
    let guard_next = layout::guard_at(t, r + 1);
    if guard != guard_next {
        return guard < guard_next;
    }
    let resets = layout::resets_at(t, r);
    let resets_next = layout::resets_at(t, r + 1);
    if resets != resets_next {
        return resets < resets_next;
    }
    layout::target_at(t, r) < layout::target_at(t, r + 1)
}

// The rows lo .. hi, which leave one state.
fn range_climbs(t: &[u64], lo: usize, hi: usize) -> bool
    requires { (image_words ≤ length t.now) × (lo ≤ max_rows) × (hi ≤ max_rows) }
    ensures { (s : ℕ) → result ≡ all (climbs t.now s) lo (hi - 1) }
{
    for next in lo + 1..hi {
        if !row_climbs(t, next - 1) {
            return false;
        }
    }
    true
}

// The rows of component i, state by state.
fn states_climb(t: &[u64], i: usize) -> bool
    requires { Bounded t.now × (i < count_of t.now) }
    ensures { result ≡ all (state_climbs t.now i) 0 (block_word t.now i 0) }
{
    let states = layout::block_word(t, i, layout::STATES) as usize;
    for s in 0..states {
        let lo = layout::first_of(t, i, s);
        let hi = layout::first_of(t, i, s + 1);
        if !range_climbs(t, lo, hi) {
            return false;
        }
    }
    true
}

fn comp_rows_right(t: &[u64], i: usize) -> bool
    requires { Bounded t.now × (i < count_of t.now) }
    ensures { result ≡ comp_rows_right t.now i }
{
    let states = layout::block_word(t, i, layout::STATES);
    let clocks = layout::block_word(t, i, layout::CLOCKS);
    let acts = layout::acts_of(t, i);
    let lo = layout::first_of(t, i, 0);
    let hi = layout::first_of(t, i, states as usize);
    if range_right(t, acts, clocks, states, lo, hi) {
        states_climb(t, i)
    } else {
        false
    }
}

fn rows_right(t: &[u64]) -> bool
    requires { Bounded t.now }
    ensures { result ≡ rows_right t.now }
{
    let count = layout::count_of(t) as usize;
    for i in 0..count {
        if !comp_rows_right(t, i) {
            return false;
        }
    }
    true
}

// Where the rows of the components below i end.
fn end_before(t: &[u64], i: usize) -> usize
    requires { Bounded t.now × (i ≤ count_of t.now) }
    ensures { result ≡ end_before t.now i }
{
    if i == 0 {
        0
    } else {
        let states = layout::block_word(t, i - 1, layout::STATES) as usize;
        layout::first_of(t, i - 1, states)
    }
}

// The blocks and rows that the model does not use.
fn rest_zero(t: &[u64]) -> bool
    requires { Bounded t.now }
    ensures { result ≡ rest_zero t.now }
{
    let count = layout::count_of(t) as usize;
    if !blocks::zero_words(t, 1 + layout::BLOCK * count, layout::ROWS_AT) {
        return false;
    }
    let end = end_before(t, count);
    blocks::zero_words(t, layout::ROWS_AT + layout::ROW * end, layout::WORDS)
}

// Whether the front of the table is an image: the first step of every call on a table. The longest walk, over the words that should be zero, comes late.
pub fn recognise(table: &[u64]) -> bool
    ensures { result ≡ is_image table.now }
{
    if table.len() < layout::WORDS {
        return false;
    }
    if !blocks::blocks_right(table) {
        return false;
    }
    if !rows_right(table) {
        return false;
    }
    if !rest_zero(table) {
        return false;
    }
    measure::text_length(table) <= Model::BYTES
}
