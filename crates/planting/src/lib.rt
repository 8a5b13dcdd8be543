// The image of a tree's model, written in the order of its words: the block of each line, then the rows of all lines, then zeros.
#![tactic(auto)]

ghost use Rattle.std.specs.Prelude.{◌≡◌, true, ℕ, suc, ◌+◌, ◌*◌, ◌≤◌, ◌<◌, length};
ghost use Rattle.std.proofs.lemmas.List.Edits.{sets};
ghost use Rattle.answer.specs.Limits.{max_actions, max_clocks, max_states, max_rows};
ghost use Rattle.layout.specs.Layout.{head_words, block_words, rows_at, image_words};
ghost use Rattle.model.specs.Model.{row_count};
ghost use Rattle.layout.specs.Image.{block_of, blocks_of, all_rows_of, image_of};
ghost use Rattle.merging.specs.Heads.{as_head};
ghost use Rattle.merging.specs.Starts.{firsts_of, head_of};
ghost use Rattle.merging.specs.Parts.{front_part, row_part};
ghost use Rattle.trees.specs.Modules.{tree_model};
ghost use Rattle.trees.specs.ReadTree.{fitting};
ghost use Rattle.treelines.specs.Elements.{sort_is};
ghost use Rattle.treenames.specs.Names.{tree_in, LinesOf};
ghost use Rattle.elements.specs.Parts.{element_of, Fit};
ghost use Rattle.treerows.specs.Rows.{element_rows};
ghost use Rattle.planting.specs.Planted.{started_for, plant_of, Plantable};

use answer::Model;
use merging::Head;
use product::Tally;
use treelines::{Element, Sort};

// The clock that runs from the start on, fc = 2 k.
fn started_of(sort: Sort, k: u64) -> u64
    requires { 2 * k + 1 < max_clocks }
    ensures { result ≡ started_for (sort_is sort) k }
{
    let fc = sets::single(2 * k);
    match sort {
        Sort::Be => fc,
        Sort::And | Sort::Or | Sort::Pand | Sort::Rbox => 0,
    }
}

// An element's component beside its rows.
fn head_of(words: &[u64; Model::ACTIONS], count: usize, e: Element, k: u64) -> Head
    requires { (length words.now ≡ max_actions) × (count ≤ max_actions) × Fit e × (2 * k + 1 < max_clocks) }
    ensures { result ≡ as_head (plant_of words.now count (element_of e) k) }
{
    let h = treerows::kinds_of(words, count, e);
    let states = elements::states_of(e) as u64;
    let sort = e.sort;
    let clocks = treesize::clocks_of(sort, k);
    let started = started_of(sort, k);
    Head {
        states,
        start: 0,
        ins: h.ins,
        outs: h.outs,
        uins: h.uins,
        uouts: h.uouts,
        clocks,
        started,
    }
}

// The words of an element's block before first[0].
fn put_head(
    words: &[u64; Model::ACTIONS],
    count: usize,
    into: &mut [u64],
    at: usize,
    e: Element,
    k: u64,
)
    requires { (length words.now ≡ max_actions) × (count ≤ max_actions) × Fit e × (2 * k + 1 < max_clocks) × (image_words ≤ length into.old) × (at + head_words ≤ image_words) }
    ensures { into.new ≡ sets into.old at (head_of (plant_of words.now count (element_of e) k)) }
{
    let h = head_of(words, count, e, k);
    into[at] = h.states;
    into[at + 1] = h.start;
    into[at + 2] = h.ins;
    into[at + 3] = h.outs;
    into[at + 4] = h.uins;
    into[at + 5] = h.uouts;
    into[at + 6] = h.clocks;
    into[at + 7] = h.started;
}

// first[0] to first[Model::STATES] of an element's component, whose rows begin at row `base`; and where they end.
fn put_firsts(
    words: &[u64; Model::ACTIONS],
    count: usize,
    into: &mut [u64],
    at: usize,
    base: usize,
    e: Element,
    k: u64,
) -> usize
    requires { (length words.now ≡ max_actions) × (count ≤ max_actions) × Fit e × (2 * k + 1 < max_clocks) × (image_words ≤ length into.old) × (at + suc max_states ≤ image_words) × (base + length (element_rows words.now count (element_of e) k) ≤ max_rows) }
    ensures { (into.new ≡ sets into.old at (firsts_of base (plant_of words.now count (element_of e) k))) × (result ≡ base + length (element_rows words.now count (element_of e) k)) }
{
    let states = elements::states_of(e);
    let mut n = base;
    for s in 0..states {
        into[at + s] = n as u64;
        let m = treerows::emit_state(
            words,
            count,
            into,
            0,
            Tally { rows: n, bytes: 0 },
            e,
            k,
            s as u64,
        );
        n = m.rows;
    }
    into[at + states] = n as u64;
    fill::zero_words(into, at + states + 1, Model::STATES - states);
    n
}

// The block of an element's component, whose rows begin at row `base`; and where they end.
fn put_block(
    words: &[u64; Model::ACTIONS],
    count: usize,
    into: &mut [u64],
    at: usize,
    base: usize,
    e: Element,
    k: u64,
) -> usize
    requires { (length words.now ≡ max_actions) × (count ≤ max_actions) × Fit e × (2 * k + 1 < max_clocks) × (image_words ≤ length into.old) × (at + block_words ≤ image_words) × (base + length (element_rows words.now count (element_of e) k) ≤ max_rows) }
    ensures { (into.new ≡ sets into.old at (block_of base (plant_of words.now count (element_of e) k))) × (result ≡ base + length (element_rows words.now count (element_of e) k)) }
{
    put_head(words, count, into, at, e, k);
    put_firsts(words, count, into, at + layout::FIRST, base, e, k)
}

// The blocks of all lines.
fn put_blocks(text: &[u8], words: &[u64; Model::ACTIONS], count: usize, into: &mut [u64])
    requires { Plantable text.now words.now count × (image_words ≤ length into.old) }
    ensures { into.new ≡ sets into.old 1 (blocks_of 0 (tree_model (tree_in text.now))) }
{
    let mut n = 0;
    let mut k = 0;
    let mut i = 0;
    let mut at = 0;
    while at < text.len() {
        let line = treenames::line_at(text, at);
        let e = line.element;
        let sort = e.sort;
        n = put_block(words, count, into, 1 + layout::BLOCK * i, n, e, k);
        k = treesize::next_be(sort, k);
        i = i + 1;
        at = line.next;
    }
}

// The words before the rows.
fn put_front(
    text: &[u8],
    words: &[u64; Model::ACTIONS],
    count: usize,
    components: usize,
    into: &mut [u64],
)
    requires { Plantable text.now words.now count × (components ≡ length (tree_in text.now)) × (image_words ≤ length into.old) }
    ensures { into.new ≡ sets into.old 0 (front_part (tree_model (tree_in text.now))) }
{
    into[0] = components as u64;
    put_blocks(text, words, count, into);
    fill::zero_words(
        into,
        1 + layout::BLOCK * components,
        layout::BLOCK * (Model::COMPONENTS - components),
    );
}

// The rows of all lines; and how many there are.
fn put_lines(text: &[u8], words: &[u64; Model::ACTIONS], count: usize, into: &mut [u64]) -> usize
    requires { Plantable text.now words.now count × (image_words ≤ length into.old) }
    ensures { (into.new ≡ sets into.old rows_at (all_rows_of (tree_model (tree_in text.now)))) × (result ≡ row_count (tree_model (tree_in text.now))) }
{
    let mut n = 0;
    let mut k = 0;
    let mut at = 0;
    while at < text.len() {
        let line = treenames::line_at(text, at);
        let e = line.element;
        let sort = e.sort;
        let m = treerows::emit_states(
            words,
            count,
            into,
            Model::ROWS,
            Tally { rows: n, bytes: 0 },
            e,
            k,
        );
        n = m.rows;
        k = treesize::next_be(sort, k);
        at = line.next;
    }
    n
}

// The rows, and the zeros behind them.
fn put_rows(text: &[u8], words: &[u64; Model::ACTIONS], count: usize, into: &mut [u64])
    requires { Plantable text.now words.now count × (image_words ≤ length into.old) }
    ensures { into.new ≡ sets into.old rows_at (row_part (tree_model (tree_in text.now))) }
{
    let n = put_lines(text, words, count, into);
    fill::zero_words(
        into,
        layout::ROWS_AT + layout::ROW * n,
        layout::ROW * (Model::ROWS - n),
    );
}

// The whole image, of a tree that 48 lets pass. The actions are named once more: no tree lies on the stack of the checks.
pub fn put_image(text: &[u8], into: &mut [u64])
    requires { LinesOf text.now (tree_in text.now) × (fitting (tree_in text.now) ≡ true) × (image_words ≤ length into.old) }
    ensures { into.new ≡ sets into.old 0 (image_of (tree_model (tree_in text.now))) }
{
    let boxed = meanings::boxed_set(text);
    let mut words = [0u64; Model::ACTIONS];
    let named = meanings::name_actions(text, boxed, &mut words);
    put_front(text, &words, named.actions, named.components, into);
    put_rows(text, &words, named.actions, into);
}
