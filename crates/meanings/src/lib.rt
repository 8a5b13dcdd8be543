// The rule of the numbers: the actions of a tree line by line, as words (8 times the element's number, and its signal's).
#![tactic(auto)]

ghost use Rattle.std.specs.Prelude.{◌≡◌, cond, ℕ, ◌+◌, ◌*◌, ◌≤◌, ◌<◌, length};
ghost use Rattle.laws.specs.Fold.{tab};
ghost use Rattle.answer.specs.Limits.{max_actions, max_elements, max_inputs};
ghost use Rattle.treelines.specs.Elements.{sort_is};
ghost use Rattle.treecheck.specs.Numbers.{input_at, ins_in};
ghost use Rattle.treenames.specs.Names.{tree_in, LinesOf};
ghost use Rattle.elements.specs.Parts.{element_of};
ghost use Rattle.meanings.specs.Words.{set_of, box_set, boxed_in, first_signal, signal_count, put_at, NamedBy};

use answer::Model;
use treelines::{Element, Inputs, Sort};

// How many components and actions a tree's model has.
#[derive(Drop)]
pub struct Named {
    pub components: usize,
    pub actions: usize,
}

// The inputs, as a set.
fn inputs_set(i: Inputs) -> u64
    requires { (j : ℕ) → j < i.count → input_at i j < max_elements }
    ensures { result ≡ set_of (ins_in i) }
{
    let count = i.count;
    let mut set = 0;
    for j in 0..count {
        let x = treecheck::input_at(i, j);
        set = sets::union(set, sets::single(x));
    }
    set
}

// The inputs of a box; none of another element.
fn box_inputs(e: Element) -> u64
    requires { (j : ℕ) → j < e.inputs.count → input_at e.inputs j < max_elements }
    ensures { result ≡ box_set (element_of e) }
{
    let all = inputs_set(e.inputs);
    let sort = e.sort;
    match sort {
        Sort::Be => 0,
        Sort::And => 0,
        Sort::Or => 0,
        Sort::Pand => 0,
        Sort::Rbox => all,
    }
}

// The basic elements in boxes.
pub fn boxed_set(text: &[u8]) -> u64
    requires { LinesOf text.now (tree_in text.now) }
    ensures { result ≡ boxed_in (tree_in text.now) }
{
    let mut boxed = 0;
    let mut at = 0;
    while at < text.len() {
        let line = treenames::line_at(text, at);
        let e = line.element;
        boxed = sets::union(boxed, box_inputs(e));
        at = line.next;
    }
    boxed
}

// The number of the first of an element's signals, fl of a basic element and f of a gate.
fn first_signal(sort: Sort) -> u64
    ensures { result ≡ first_signal (sort_is sort) }
{
    match sort {
        Sort::Be | Sort::Rbox => 0,
        Sort::And | Sort::Or | Sort::Pand => 2,
    }
}

// "A `be` in no box has no `r`".
fn be_signals(boxed: bool) -> usize
    ensures { result ≡ cond boxed 5 4 }
{
    if boxed { 5 } else { 4 }
}

// How many signals an element has.
fn signal_count(sort: Sort, boxed: bool) -> usize
    ensures { result ≡ signal_count (sort_is sort) boxed }
{
    let all = be_signals(boxed);
    match sort {
        Sort::Be => all,
        Sort::And | Sort::Or | Sort::Pand => 2,
        Sort::Rbox => 0,
    }
}

// The words w, w + 1, .. of n signals, where there is room for all of them.
fn put_signals(words: &mut [u64; Model::ACTIONS], at: usize, w: u64, n: usize)
    requires { (length words.old ≡ max_actions) × (at ≤ 4096) × (n ≤ max_inputs) × (w ≤ 4096) }
    ensures { words.new ≡ put_at at (tab (λ k. w + k) 0 n) words.old }
{
    if at + n > Model::ACTIONS {
        return;
    }
    for k in 0..n {
        words[at + k] = w + k as u64;
    }
}

// The words of all actions, where there is room for all of them; and how many there are, and of lines.
pub fn name_actions(text: &[u8], boxed: u64, words: &mut [u64; Model::ACTIONS]) -> Named
    requires { LinesOf text.now (tree_in text.now) × (boxed ≡ boxed_in (tree_in text.now)) × (length words.old ≡ max_actions) }
    ensures { NamedBy (tree_in text.now) words.old result words.new }
{
    let mut components = 0;
    let mut actions = 0;
    let mut at = 0;
    while at < text.len() {
        let line = treenames::line_at(text, at);
        let e = line.element;
        let v = e.number;
        let sort = e.sort;
        let n = signal_count(sort, sets::has(boxed, v));
        let w = v * 8 + first_signal(sort);
        put_signals(words, actions, w, n);
        components = components + 1;
        actions = actions + n;
        at = line.next;
    }
    Named {
        components,
        actions,
    }
}
