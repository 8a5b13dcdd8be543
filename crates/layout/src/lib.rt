// The table: what stands where (docs/TABLE.md). Each function reads one word, or joins a few, and asks only that the table is long enough and the index in range.
#![tactic(auto)]

ghost use Rattle.std.specs.Prelude.{◌≡◌, ℕ, ◌≤◌, ◌<◌, length};
ghost use Rattle.answer.specs.Limits.{max_components, max_states, max_rows};
ghost use Rattle.model.specs.Model.{acts};
ghost use Rattle.layout.specs.Image.{comp_of};
ghost use Rattle.layout.specs.Layout.{block_words, image_words, count_of, block_word, joined_word, first_of, action_at, guard_at, resets_at, target_at};

use answer::Model;

// The words of a block before first[0].
pub const STATES: usize = 0;

pub const START: usize = 1;

pub const INS: usize = 2;

pub const OUTS: usize = 3;

pub const UINS: usize = 4;

pub const UOUTS: usize = 5;

pub const CLOCKS: usize = 6;

pub const STARTED: usize = 7;

pub const FIRST: usize = 8;

// The words of a block, and of a row.
pub const BLOCK: usize = FIRST + Model::STATES + 1;

pub const ROW: usize = 4;

// Where the rows begin.
pub const ROWS_AT: usize = 1 + BLOCK * Model::COMPONENTS;

// The words of an image.
pub const WORDS: usize = ROWS_AT + ROW * Model::ROWS;

pub fn count_of(t: &[u64]) -> u64
    requires { image_words ≤ length t.now }
    ensures { result ≡ count_of t.now }
{
    t[0]
}

// Word k of the block of component i.
pub fn block_word(t: &[u64], i: usize, k: usize) -> u64
    requires { (image_words ≤ length t.now) × (i < max_components) × (k < block_words) }
    ensures { result ≡ block_word t.now i k }
{
    t[1 + BLOCK * i + k]
}

// Word k of all blocks, joined as sets.
pub fn joined(t: &[u64], k: usize) -> u64
    requires { (image_words ≤ length t.now) × (count_of t.now ≤ max_components) × (k < block_words) }
    ensures { result ≡ joined_word t.now k }
{
    let n = count_of(t) as usize;
    let mut set = 0u64;
    for i in 0..n {
        set = sets::union(set, block_word(t, i, k));
    }
    set
}

// The actions of component i.
pub fn acts_of(t: &[u64], i: usize) -> u64
    requires { (image_words ≤ length t.now) × (i < max_components) }
    ensures { result ≡ acts (comp_of t.now i) }
{
    let inputs = sets::union(block_word(t, i, INS), block_word(t, i, UINS));
    let outputs = sets::union(block_word(t, i, OUTS), block_word(t, i, UOUTS));
    sets::union(inputs, outputs)
}

// The first row that leaves state s of component i, or a later state.
pub fn first_of(t: &[u64], i: usize, s: usize) -> usize
    requires { (image_words ≤ length t.now) × (i < max_components) × (s ≤ max_states) }
    ensures { result ≡ first_of t.now i s }
{
    t[1 + BLOCK * i + (FIRST + s)] as usize
}

pub fn action_at(t: &[u64], r: usize) -> u64
    requires { (image_words ≤ length t.now) × (r < max_rows) }
    ensures { result ≡ action_at t.now r }
{
    t[ROWS_AT + ROW * r]
}

pub fn guard_at(t: &[u64], r: usize) -> u64
    requires { (image_words ≤ length t.now) × (r < max_rows) }
    ensures { result ≡ guard_at t.now r }
{
    t[ROWS_AT + ROW * r + 1]
}

pub fn resets_at(t: &[u64], r: usize) -> u64
    requires { (image_words ≤ length t.now) × (r < max_rows) }
    ensures { result ≡ resets_at t.now r }
{
    t[ROWS_AT + ROW * r + 2]
}

pub fn target_at(t: &[u64], r: usize) -> u64
    requires { (image_words ≤ length t.now) × (r < max_rows) }
    ensures { result ≡ target_at t.now r }
{
    t[ROWS_AT + ROW * r + 3]
}
