// Whether the blocks of a table are those of an image (docs/TABLE.md). Each function reads the words it names once, and all but `zero_words` stop at the first that is wrong.
#![tactic(auto)]

ghost use Rattle.std.specs.Prelude.{◌≡◌, ℕ, ◌≤◌, ◌<◌, length};
ghost use Rattle.laws.specs.Fold.{all};
ghost use Rattle.answer.specs.Limits.{max_components, max_states};
ghost use Rattle.layout.specs.Layout.{image_words, block_word};
ghost use Rattle.blocks.specs.Blocks.{zero_words, sizes_right, sets_right, head_right, end_before, in_order, firsts_right, blocks_right};

use answer::Model;

// The words from lo on, below hi, are zero. It looks at all of them: without a way out the compiler takes four at a time.
pub fn zero_words(t: &[u64], lo: usize, hi: usize) -> bool
    requires { hi ≤ length t.now }
    ensures { result ≡ zero_words t.now lo hi }
{
    let mut any: u64 = 0;
    for k in lo..hi {
        any = any | t[k];
    }
    any == 0
}

fn sizes_right(t: &[u64], i: usize) -> bool
    requires { (image_words ≤ length t.now) × (i < max_components) }
    ensures { result ≡ sizes_right t.now i }
{
    let states = layout::block_word(t, i, layout::STATES);
    if states < 1 {
        return false;
    }
    if (Model::STATES as u64) < states {
        return false;
    }
    layout::block_word(t, i, layout::START) < states
}

fn sets_right(t: &[u64], i: usize) -> bool
    requires { (image_words ≤ length t.now) × (i < max_components) }
    ensures { result ≡ sets_right t.now i }
{
    let ins = layout::block_word(t, i, layout::INS);
    let outs = layout::block_word(t, i, layout::OUTS);
    let uins = layout::block_word(t, i, layout::UINS);
    if ins & outs != 0 {
        return false;
    }
    let two = sets::union(ins, outs);
    if two & uins != 0 {
        return false;
    }
    let three = sets::union(two, uins);
    if three & layout::block_word(t, i, layout::UOUTS) != 0 {
        return false;
    }
    sets::lies_in(
        layout::block_word(t, i, layout::STARTED),
        layout::block_word(t, i, layout::CLOCKS),
    )
}

fn head_right(t: &[u64], i: usize) -> bool
    requires { (image_words ≤ length t.now) × (i < max_components) }
    ensures { result ≡ head_right t.now i }
{
    if sizes_right(t, i) {
        sets_right(t, i)
    } else {
        false
    }
}

fn heads_right(t: &[u64], count: usize) -> bool
    requires { (image_words ≤ length t.now) × (count ≤ max_components) }
    ensures { result ≡ all (head_right t.now) 0 count }
{
    for i in 0..count {
        if !head_right(t, i) {
            return false;
        }
    }
    true
}

// first[0] up to first[states].
fn in_order(t: &[u64], i: usize, states: usize) -> bool
    requires { (image_words ≤ length t.now) × (i < max_components) × (states ≤ max_states) }
    ensures { result ≡ all (in_order t.now i) 0 states }
{
    for s in 0..states {
        if layout::first_of(t, i, s + 1) < layout::first_of(t, i, s) {
            return false;
        }
    }
    true
}

// Where the component before ends is handed on from one to the next.
fn firsts_right(t: &[u64], i: usize, end: usize) -> bool
    requires { (image_words ≤ length t.now) × (i < max_components) × (block_word t.now i 0 ≤ max_states) × (end ≡ end_before t.now i) }
    ensures { result ≡ firsts_right t.now i }
{
    let states = layout::block_word(t, i, layout::STATES) as usize;
    if layout::first_of(t, i, 0) != end {
        return false;
    }
    if !in_order(t, i, states) {
        return false;
    }
    if Model::ROWS < layout::first_of(t, i, states) {
        return false;
    }
    let block = 1 + layout::BLOCK * i;
    zero_words(
        t,
        block + (layout::FIRST + (states + 1)),
        block + layout::BLOCK,
    )
}

fn all_firsts_right(t: &[u64], count: usize) -> bool
    requires { (image_words ≤ length t.now) × (count ≤ max_components) × ((j : ℕ) → j < count → block_word t.now j 0 ≤ max_states) }
    ensures { result ≡ all (firsts_right t.now) 0 count }
{
    let mut end: usize = 0;
    for i in 0..count {
        if !firsts_right(t, i, end) {
            return false;
        }
        let states = layout::block_word(t, i, layout::STATES) as usize;
        end = layout::first_of(t, i, states);
    }
    true
}

pub fn blocks_right(t: &[u64]) -> bool
    requires { image_words ≤ length t.now }
    ensures { result ≡ blocks_right t.now }
{
    let count = layout::count_of(t) as usize;
    if count < 1 {
        return false;
    }
    if Model::COMPONENTS < count {
        return false;
    }
    if !heads_right(t, count) {
        return false;
    }
    all_firsts_right(t, count)
}
