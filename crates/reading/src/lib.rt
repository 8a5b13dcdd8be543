// The words of a text's model, written into a lent table: the words that one line changes (docs/TABLE.md).
#![tactic(auto)]

ghost use Rattle.std.specs.Prelude.{[], ◌∷◌, ℕ, suc, ◌+◌, ◌≤◌, ◌<◌, length, get_or};
ghost use Rattle.answer.specs.Limits.{max_components, max_rows, max_states, max_actions};
ghost use Rattle.layout.specs.Layout.{head_words, image_words};
ghost use Rattle.reading.specs.Changes.{Joined, Raised, Filled, block_at, CompPut, RowPut};

// Member x joined to the set at a word.
pub fn add_member(table: &mut [u64], at: usize, x: u64)
    requires { (at < length table.old) × (x < max_actions) }
    ensures { Joined table.old at x table.new }
{
    let old = table[at];
    table[at] = sets::union(old, sets::single(x));
}

// One more at each word from lo on, below hi.
pub fn raise_words(table: &mut [u64], lo: usize, hi: usize)
    requires { (lo ≤ hi) × (hi ≤ length table.old) × ((j : ℕ) → lo ≤ j → j < hi → get_or table.old j 0 < max_rows) }
    ensures { Raised table.old lo hi table.new }
{
    for j in lo..hi {
        table[j] += 1;
    }
}

// v at each word from lo on, below hi.
pub fn fill_words(table: &mut [u64], lo: usize, hi: usize, v: u64)
    requires { (lo ≤ hi) × (hi ≤ length table.old) }
    ensures { Filled table.old lo hi v table.new }
{
    table[lo..hi].fill(v);
}

// A new block i: the count, states and start, and first[0] to first[states], where so many rows stand before.
pub fn put_comp(table: &mut [u64], i: usize, states: u64, start: u64, rows: usize)
    requires { (image_words ≤ length table.old) × (i < max_components) × (states ≤ max_states) × (rows ≤ max_rows) }
    ensures { CompPut table.old i states start rows table.new }
{
    let at = 1 + layout::BLOCK * i;
    let lo = at + layout::FIRST;
    let hi = lo + states as usize + 1;
    fill_words(table, lo, hi, rows as u64);
    table[0] = i as u64 + 1;
    table[at] = states;
    table[at + 1] = start;
}

// One row more, the row of this number over the system: first[s] above the state that it leaves, and its four words.
pub fn put_row(
    table: &mut [u64],
    i: usize,
    states: u64,
    rows: usize,
    from: u64,
    action: u64,
    guard: u64,
    resets: u64,
    target: u64,
)
    requires { (image_words ≤ length table.old)
        × (i < max_components)
        × (states ≤ max_states)
        × (from < states)
        × (rows < max_rows)
        × ((j : ℕ) → block_at i (head_words + suc from) ≤ j → j < block_at i (head_words + suc states) → get_or table.old j 0 < max_rows) }
    ensures { RowPut table.old i states rows from (action ∷ guard ∷ resets ∷ target ∷ []) table.new }
{
    let first = 1 + layout::BLOCK * i + layout::FIRST;
    let lo = first + from as usize + 1;
    let hi = first + states as usize + 1;
    raise_words(table, lo, hi);
    let at = layout::ROWS_AT + layout::ROW * rows;
    table[at] = action;
    table[at + 1] = guard;
    table[at + 2] = resets;
    table[at + 3] = target;
}
