// How many rows and bytes a tree's model has, before anything is written: 48.
#![tactic(auto)]

ghost use Rattle.std.specs.Prelude.{◌≡◌, ℕ, ◌+◌, ◌*◌, ◌≤◌, ◌<◌, length};
ghost use Rattle.answer.specs.Limits.{max_actions, max_clocks, max_components};
ghost use Rattle.model.specs.Text.{comp_text};
ghost use Rattle.trees.specs.Tree.{meanings};
ghost use Rattle.trees.specs.ReadTree.{fitting};
ghost use Rattle.treelines.specs.Elements.{sort_is};
ghost use Rattle.treenames.specs.Names.{tree_in, LinesOf};
ghost use Rattle.elements.specs.Parts.{element_of, Fit};
ghost use Rattle.treesize.specs.Size.{clocks_for, next_be, bare_by, Roomy, Longer, Hold, Sized};

use answer::Model;
use product::Tally;
use treelines::{Element, Sort};

// The clocks of a basic element, fc = 2 k and rc = 2 k + 1.
pub fn clocks_of(sort: Sort, k: u64) -> u64
    requires { 2 * k + 1 < max_clocks }
    ensures { result ≡ clocks_for (sort_is sort) k }
{
    let both = sets::union(sets::single(2 * k), sets::single(2 * k + 1));
    match sort {
        Sort::Be => both,
        Sort::And | Sort::Or | Sort::Pand | Sort::Rbox => 0,
    }
}

// How many basic elements stand before the next line.
pub fn next_be(sort: Sort, k: u64) -> u64
    requires { k < max_clocks }
    ensures { result ≡ next_be (sort_is sort) k }
{
    match sort {
        Sort::Be => k + 1,
        Sort::And | Sort::Or | Sort::Pand | Sort::Rbox => k,
    }
}

// The lines of an element's component beside its rows.
fn line_bytes(words: &[u64; Model::ACTIONS], count: usize, e: Element, k: u64) -> usize
    requires { (length words.now ≡ max_actions) × (count ≤ max_actions) × Fit e × (2 * k + 1 < max_clocks) }
    ensures { result ≡ length (comp_text (bare_by words.now count (element_of e) k)) }
{
    let h = treerows::kinds_of(words, count, e);
    let states = elements::states_of(e) as u64;
    let sort = e.sort;
    let clocks = clocks_of(sort, k);
    measure::head_width(states, 0, h.ins, h.outs, h.uins, h.uouts, clocks)
}

// An element's rows and bytes more.
fn line_size(
    words: &[u64; Model::ACTIONS],
    count: usize,
    into: &mut [u64],
    n: Tally,
    e: Element,
    k: u64,
) -> Tally
    requires { (length words.now ≡ max_actions) × (count ≤ max_actions) × Fit e × (2 * k + 1 < max_clocks) × Roomy n }
    ensures { Longer words.now count (element_of e) k n result × (into.new ≡ into.old) }
{
    let b = line_bytes(words, count, e, k);
    treerows::emit_states(
        words,
        count,
        into,
        0,
        Tally {
            rows: n.rows,
            bytes: n.bytes + b,
        },
        e,
        k,
    )
}

// The rows and bytes of the whole model. `into` is only lent on to the walk that counts: nothing is written.
pub fn size(text: &[u8], words: &[u64; Model::ACTIONS], count: usize, into: &mut [u64]) -> Tally
    requires { LinesOf text.now (tree_in text.now) × Hold (tree_in text.now) words.now × (length words.now ≡ max_actions) × (count ≡ length (meanings (tree_in text.now))) × (length (tree_in text.now) ≤ max_components) }
    ensures { Sized (tree_in text.now) result × (into.new ≡ into.old) }
{
    let mut n = Tally { rows: 0, bytes: 0 };
    let mut k = 0;
    let mut at = 0;
    while at < text.len() {
        let line = treenames::line_at(text, at);
        let e = line.element;
        let sort = e.sort;
        let m = line_size(words, count, into, n, e, k);
        n = m;
        k = next_be(sort, k);
        at = line.next;
    }
    n
}

// 48 "the model would pass a limit of 01" does not hold. Components and actions are asked first: the walk is for a model whose actions have numbers.
pub fn fits(text: &[u8], into: &mut [u64]) -> bool
    requires { LinesOf text.now (tree_in text.now) }
    ensures { (result ≡ fitting (tree_in text.now)) × (into.new ≡ into.old) }
{
    let boxed = meanings::boxed_set(text);
    let mut words = [0u64; Model::ACTIONS];
    let named = meanings::name_actions(text, boxed, &mut words);
    if named.components > Model::COMPONENTS {
        return false;
    }
    if named.actions > Model::ACTIONS {
        return false;
    }
    let n = size(text, &words, named.actions, into);
    (n.rows <= Model::ROWS) & (n.bytes <= Model::BYTES)
}
