// How long the text of a table is, without writing it. A row's line is measured by a fixed number of machine steps: the members of a set are counted, not walked.
#![tactic(auto)]

ghost use Rattle.std.specs.Prelude.{◌≡◌, ℕ, ◌+◌, ◌-◌, ◌≤◌, ◌<◌, length};
ghost use Rattle.laws.specs.Fold.{tab};
ghost use Rattle.answer.specs.Limits.{max_components, max_rows};
ghost use Rattle.model.specs.Text.{decimal, guard_field, set_field, row_line, row_lines, comp_text, text_of};
ghost use Rattle.layout.specs.Layout.{image_words};
ghost use Rattle.layout.specs.Image.{row_in, comp_of, model_of, Sane};
ghost use Rattle.measure.specs.Measure.{most_beside, per_member, kinds_width, bare};

// The numbers of one digit, as a set.
const LOW: u64 = 1023;

// What stands beside the number in a `clk` line, and in an `act` line of each kind: words, tabs, LF.
const CLK: usize = 7;

const ACT_IN: usize = 8;

const ACT_OUT: usize = 9;

const ACT_UIN: usize = 9;

const ACT_UOUT: usize = 10;

// What stands beside the fields of a `comp` line and of a `row` line.
const COMP: usize = 7;

const ROW: usize = 9;

pub fn width(n: u64) -> usize
    ensures { result ≡ length (decimal n) }
{
    if n < 10 {
        1
    } else if n < 100 {
        2
    } else if n < 1000 {
        3
    } else if n < 10000 {
        4
    } else {
        5
    }
}

// The members of s, with so many bytes beside each: two digits for a member, less one for each that has one digit.
fn per_member(s: u64, beside: usize) -> usize
    requires { beside ≤ most_beside }
    ensures { result ≡ per_member s beside }
{
    (beside + 2) * sets::count(s) as usize - sets::count(s & LOW) as usize
}

pub fn set_width(s: u64) -> usize
    ensures { result ≡ length (set_field s) }
{
    if s == 0 { 1 } else { per_member(s, 1) - 1 }
}

pub fn guard_width(g: u64) -> usize
    ensures { result ≡ length (guard_field g) }
{
    if g == 0 { 1 } else { width(g - 1) }
}

// A `row` line by its fields.
pub fn line_width(from: u64, guard: u64, action: u64, resets: u64, target: u64) -> usize
    ensures { result ≡ length (row_line (record { from = from; guard = guard; action = action; resets = resets; target = target })) }
{
    ROW + width(from) + guard_width(guard) + width(action) + set_width(resets) + width(target)
}

// The line of row r, which leaves state s.
fn row_width(t: &[u64], s: usize, r: usize) -> usize
    requires { (image_words ≤ length t.now) × (r < max_rows) }
    ensures { result ≡ length (row_line (row_in t.now s r)) }
{
    let guard = layout::guard_at(t, r);
    let action = layout::action_at(t, r);
    let resets = layout::resets_at(t, r);
    let target = layout::target_at(t, r);
    line_width(s as u64, guard, action, resets, target)
}

// The rows lo .. hi, which leave state s.
fn rows_width(t: &[u64], s: usize, lo: usize, hi: usize) -> usize
    requires { (image_words ≤ length t.now) × (hi ≤ max_rows) }
    ensures { result ≡ length (row_lines (tab (row_in t.now s) lo (hi - lo))) }
{
    let mut sum: usize = 0;
    for r in lo..hi {
        sum += row_width(t, s, r);
    }
    sum
}

// The rows of component i, state by state.
fn states_width(t: &[u64], i: usize) -> usize
    requires { Sane t.now × (i < max_components) }
    ensures { result ≡ length (row_lines (comp_of t.now i).rows) }
{
    let states = layout::block_word(t, i, layout::STATES) as usize;
    let mut sum: usize = 0;
    for s in 0..states {
        let lo = layout::first_of(t, i, s);
        let hi = layout::first_of(t, i, s + 1);
        sum += rows_width(t, s, lo, hi);
    }
    sum
}

// The `act` lines by the four sets: an action in two of them, which no image has, would count for the first.
fn kinds_width(ins: u64, outs: u64, uins: u64, uouts: u64) -> usize
    ensures { result ≡ kinds_width ins outs uins uouts }
{
    let two = sets::union(ins, outs);
    let three = sets::union(two, uins);
    per_member(ins, ACT_IN)
        + per_member(sets::minus(outs, ins), ACT_OUT)
        + per_member(sets::minus(uins, two), ACT_UIN)
        + per_member(sets::minus(uouts, three), ACT_UOUT)
}

// The lines of a component beside its rows, by its numbers and sets.
pub fn head_width(
    states: u64,
    start: u64,
    ins: u64,
    outs: u64,
    uins: u64,
    uouts: u64,
    clocks: u64,
) -> usize
    ensures { result ≡ length (comp_text (bare states start ins outs uins uouts clocks)) }
{
    COMP + width(states)
        + width(start)
        + kinds_width(ins, outs, uins, uouts)
        + per_member(clocks, CLK)
}

pub fn comp_width(t: &[u64], i: usize) -> usize
    requires { Sane t.now × (i < max_components) }
    ensures { result ≡ length (comp_text (comp_of t.now i)) }
{
    let states = layout::block_word(t, i, layout::STATES);
    let start = layout::block_word(t, i, layout::START);
    let ins = layout::block_word(t, i, layout::INS);
    let outs = layout::block_word(t, i, layout::OUTS);
    let uins = layout::block_word(t, i, layout::UINS);
    let uouts = layout::block_word(t, i, layout::UOUTS);
    let clocks = layout::block_word(t, i, layout::CLOCKS);
    head_width(states, start, ins, outs, uins, uouts, clocks) + states_width(t, i)
}

// The length of the text of the table's model.
pub fn text_length(t: &[u64]) -> usize
    requires { Sane t.now }
    ensures { result ≡ length (text_of (model_of t.now)) }
{
    let count = layout::count_of(t) as usize;
    let mut sum: usize = 0;
    for i in 0..count {
        sum += comp_width(t, i);
    }
    sum
}
