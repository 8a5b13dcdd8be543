// Missing self-loops put into a lent table, in place: the rows are raised by as many as are missing, and then one walk forward over components and states
// puts each where it belongs, a loop before the first row with a higher action.
#![tactic(auto)]

ghost use Rattle.std.specs.Prelude.{◌≡◌, [], ◌∷◌, ◌++◌, ℕ, ◌+◌, ◌*◌, ◌-◌, ◌≤◌, ◌<◌, length, get_or, set, drop};
ghost use Rattle.std.proofs.lemmas.List.Edits.{sets};
ghost use Rattle.sets.specs.Members.{word_bits};
ghost use Rattle.answer.specs.Limits.{max_components, max_states, max_rows};
ghost use Rattle.model.specs.Model.{row_count};
ghost use Rattle.model.specs.WellFormed.{WellFormed};
ghost use Rattle.layout.specs.Layout.{row_words, rows_at, image_words, count_of};
ghost use Rattle.layout.specs.Image.{Image, row_in, image_of, model_of};
ghost use Rattle.lacking.specs.Repair.{loop_at, repaired_of, added_to};
ghost use Rattle.mending.specs.Weave.{takes, later, put_row, weave};
ghost use Rattle.mending.specs.Next.{Put};
ghost use Rattle.mending.specs.Standing.{AtState, AtComp, AtStart, AfterState, BehindComp, Finished, first_at};
ghost use Rattle.mending.specs.Raised.{Raised};

// Where the walk over a state's rows stands: the next row to be read, and the loops that are still to come.
#[derive(Drop)]
pub struct Next {
    pub r: usize,
    pub left: u64,
}

fn put_row(t: &mut [u64], v: usize, action: u64, guard: u64, resets: u64, target: u64)
    requires { (image_words ≤ length t.old) × (v < max_rows) }
    ensures { t.new ≡ sets t.old (rows_at + row_words * v) (action ∷ guard ∷ resets ∷ target ∷ []) }
{
    let at = layout::ROWS_AT + layout::ROW * v;
    t[at] = action;
    t[at + 1] = guard;
    t[at + 2] = resets;
    t[at + 3] = target;
}

// Row r moved to place v.
fn move_row(t: &mut [u64], v: usize, r: usize, s: usize)
    requires { (image_words ≤ length t.old) × (v < max_rows) × (r < max_rows) }
    ensures { t.new ≡ put_row t.old v (row_in t.old s r) }
{
    let action = layout::action_at(t, r);
    let guard = layout::guard_at(t, r);
    let resets = layout::resets_at(t, r);
    let target = layout::target_at(t, r);
    put_row(t, v, action, guard, resets, target);
}

// Whether row r comes before the loops that are left.
fn takes_row(t: &[u64], s: usize, hi: usize, left: u64, r: usize) -> bool
    requires { (image_words ≤ length t.now) × (hi ≤ max_rows) }
    ensures { result ≡ takes (row_in t.now s) hi left r }
{
    r < hi && layout::action_at(t, r) < sets::lowest(left)
}

// The set without its lowest member.
fn later(left: u64) -> u64
    ensures { result ≡ later left }
{
    let low = sets::lowest(left);
    if low < 64 {
        sets::minus(left, sets::single(low))
    } else {
        left
    }
}

// Row v: the row r of the table, or the lowest loop that is left.
fn put_next(t: &mut [u64], s: usize, hi: usize, v: usize, x: Next) -> Next
    requires { (image_words ≤ length t.old) × (hi ≤ max_rows) × (v < max_rows) }
    ensures { Put t.old s hi v x result t.new }
{
    let takes = takes_row(t, s, hi, x.left, x.r);
    if takes {
        move_row(t, v, x.r, s);
        Next {
            r: x.r + 1,
            left: x.left,
        }
    } else {
        put_row(t, v, sets::lowest(x.left), 0, 0, s as u64);
        Next {
            r: x.r,
            left: later(x.left),
        }
    }
}

// The rows w .. end of state s, from row x.r below hi and the loops of a set.
fn put_rows(t: &mut [u64], s: usize, hi: usize, w: usize, end: usize, x: Next)
    requires { (image_words ≤ length t.old) × (hi ≤ max_rows) × (end ≤ max_rows) × (w ≤ end) }
    ensures { t.new ≡ weave s hi (end - w) w x.left x.r t.old }
{
    let mut y = x;
    for v in w..end {
        y = put_next(t, s, hi, v, y);
    }
}

// The words of the rows, raised: from the last to the first, so that none is lost.
fn raise(t: &mut [u64], words: usize, by: usize)
    requires { (rows_at + (by + words) ≤ length t.old) × (by + words ≤ row_words * max_rows) }
    ensures { Raised t.old t.new words by }
{
    for k in (0..words).rev() {
        t[layout::ROWS_AT + (by + k)] = t[layout::ROWS_AT + k];
    }
}

// first[s] of component i.
fn put_first(t: &mut [u64], i: usize, s: usize, w: usize)
    requires { (image_words ≤ length t.old) × (i < max_components) × (s ≤ max_states) }
    ensures { t.new ≡ set t.old (first_at i s) w }
{
    t[1 + layout::BLOCK * i + (layout::FIRST + s)] = w as u64;
}

// State s of component i, whose rows begin at row w of the repaired model: n rows are missing in all.
fn put_state(t: &mut [u64], i: usize, s: usize, n: usize, w: usize) -> usize
    requires { AtState t.old n i s w }
    ensures { AfterState t.old n i s w t.new result }
{
    let lo = layout::first_of(t, i, s) + n;
    let hi = layout::first_of(t, i, s + 1) + n;
    let left = lacking::lacking_in(t, i, lo, hi);
    let end = w + (hi - lo) + sets::count(left) as usize;
    put_rows(t, s, hi, w, end, Next { r: lo, left });
    put_first(t, i, s, w);
    end
}

// Component i.
fn put_component(t: &mut [u64], i: usize, n: usize, w: usize) -> usize
    requires { AtComp t.old n i w }
    ensures { BehindComp t.old n i w t.new result }
{
    let states = layout::block_word(t, i, layout::STATES) as usize;
    let mut k = w;
    for s in 0..states {
        k = put_state(t, i, s, n, k);
    }
    put_first(t, i, states, k);
    k
}

// The rows of the table, raised by n rows.
fn raise_rows(t: &mut [u64], n: usize)
    requires { Image t.old × (row_count (model_of t.old) + n ≤ max_rows) }
    ensures { Raised t.old t.new (row_words * row_count (model_of t.old)) (row_words * n) }
{
    let last = layout::count_of(t) as usize - 1;
    let states = layout::block_word(t, last, layout::STATES) as usize;
    let rows = layout::first_of(t, last, states);
    raise(t, layout::ROW * rows, layout::ROW * n);
}

// Every component, where the rows stand n rows higher.
fn put_all(t: &mut [u64], n: usize)
    requires { AtStart t.old n }
    ensures { Finished t.old n t.new }
{
    let count = layout::count_of(t) as usize;
    let mut w = 0;
    for i in 0..count {
        w = put_component(t, i, n, w);
    }
}

// The whole table: n rows are missing, and there is room for them.
pub fn mend(t: &mut [u64], n: usize)
    requires { Image t.old × WellFormed (repaired_of (model_of t.old)) × (n ≡ length (added_to (model_of t.old))) }
    ensures { t.new ≡ image_of (repaired_of (model_of t.old)) ++ drop image_words t.old }
{
    raise_rows(t, n);
    put_all(t, n);
}
