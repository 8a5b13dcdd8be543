// 47: "the conditions of 000 section 5.4 on these elements", of a text that 2, 4, 6 and 5 have no fault with. One pass over its lines gathers sets of 64 bits,
// a second the inputs of each line, which are closed under going on: (i) is a number in its own set.
#![tactic(auto)]

ghost use Rattle.std.specs.Prelude.{◌≡◌, cond, ◌<◌, length, get_or, eqb};
ghost use Rattle.std.proofs.Math.Option.{some};
ghost use Rattle.laws.specs.Sets.{has};
ghost use Rattle.laws.specs.Search.{any};
ghost use Rattle.sets.specs.Members.{word_bits};
ghost use Rattle.marks.specs.Marks.{rows_of_marks};
ghost use Rattle.answer.specs.Told.{says_checked, done_of, refused};
ghost use Rattle.trees.specs.Tree.{is_box, is_be};
ghost use Rattle.trees.specs.Conditions.{cyclic};
ghost use Rattle.trees.specs.ReadTree.{condition_told};
ghost use Rattle.treelines.specs.Elements.{sort_is};
ghost use Rattle.treenames.specs.Names.{tree_in};
ghost use Rattle.treetests.specs.Gathering.{IsTree, proper_of, Small, taken_in, line_sets};
ghost use Rattle.treetests.specs.Gathering.{none_gathered, gathered, gathered_all, InputRows, tops, lowest_broken, broken_as};

use answer::{Place, Refusal};
use treelines::{Element, Sort};

// The numbers of a line as sets: its own, and its inputs, of which one may be there twice.
#[derive(Drop)]
pub struct LineSets {
    pub own: u64,
    pub all: u64,
    pub twice: bool,
}

// What the lines so far have: their numbers, the boxes and the basic elements among these, every input, the inputs of boxes; whether a line has an input twice,
// whether two boxes share one.
#[derive(Clone, Copy)]
pub struct Gathered {
    pub numbers: u64,
    pub boxes: u64,
    pub basics: u64,
    pub inputs: u64,
    pub boxed: u64,
    pub twice: bool,
    pub shared: bool,
}

fn is_box(s: Sort) -> bool
    ensures { result ≡ is_box (sort_is s) }
{
    match s {
        Sort::Be | Sort::And | Sort::Or | Sort::Pand => false,
        Sort::Rbox => true,
    }
}

fn is_be(s: Sort) -> bool
    ensures { result ≡ is_be (sort_is s) }
{
    match s {
        Sort::Be => true,
        Sort::And | Sort::Or | Sort::Pand | Sort::Rbox => false,
    }
}

// The set, or none.
fn pick(on: bool, s: u64) -> u64
    ensures { result ≡ cond on s 0 }
{
    if on { s } else { 0 }
}

// One input more.
fn take_in(s: LineSets, x: u64) -> LineSets
    requires { x < word_bits }
    ensures { result ≡ taken_in s x }
{
    let again = sets::has(s.all, x);
    LineSets {
        own: s.own,
        all: sets::union(s.all, sets::single(x)),
        twice: s.twice | again,
    }
}

// The numbers of a line.
fn line_sets(e: Element) -> LineSets
    requires { Small e }
    ensures { result ≡ line_sets e }
{
    let i = e.inputs;
    let count = i.count;
    let mut s = LineSets {
        own: sets::single(e.number),
        all: 0,
        twice: false,
    };
    for j in 0..count {
        let x = treecheck::input_at(i, j);
        let more = take_in(s, x);
        s = more;
    }
    s
}

// One line more.
fn gather(g: Gathered, e: Element) -> Gathered
    requires { Small e }
    ensures { result ≡ gathered g e }
{
    let s = line_sets(e);
    let sort = e.sort;
    let boxed = is_box(sort);
    let of_box = pick(boxed, s.all);
    Gathered {
        numbers: sets::union(g.numbers, s.own),
        boxes: sets::union(g.boxes, pick(boxed, s.own)),
        basics: sets::union(g.basics, pick(is_be(sort), s.own)),
        inputs: sets::union(g.inputs, s.all),
        boxed: sets::union(g.boxed, of_box),
        twice: g.twice | s.twice,
        shared: g.shared | (g.boxed & of_box != 0),
    }
}

// All lines.
fn gather_all(text: &[u8]) -> Gathered
    requires { IsTree text.now }
    ensures { result ≡ gathered_all none_gathered (tree_in text.now) }
{
    let mut g = Gathered {
        numbers: 0,
        boxes: 0,
        basics: 0,
        inputs: 0,
        boxed: 0,
        twice: false,
        shared: false,
    };
    let mut at = 0;
    while at < text.len() {
        let line = treenames::line_at(text, at);
        let more = gather(g, line.element);
        g = more;
        at = line.next;
    }
    g
}

// For each number the inputs of its line, none where it has no line.
fn input_rows(text: &[u8]) -> [u64; 64]
    requires { IsTree text.now }
    ensures { InputRows (tree_in text.now) result }
{
    let mut rows = [0u64; 64];
    let mut at = 0;
    while at < text.len() {
        let line = treenames::line_at(text, at);
        let e = line.element;
        let s = line_sets(e);
        rows[e.number as usize] = s.all;
        at = line.next;
    }
    rows
}

// A number is in its own set.
fn has_own(rows: &[u64; 64]) -> bool
    requires { length rows.now ≡ rows_of_marks }
    ensures { result ≡ any (λ v. has (get_or rows.now v 0) v) rows_of_marks }
{
    for v in 0..64 {
        if sets::has(rows[v], v as u64) {
            return true;
        }
    }
    false
}

// (i): an element reaches itself. What each line is fed by at once, then by going on.
fn is_cyclic(text: &[u8]) -> bool
    requires { IsTree text.now }
    ensures { result ≡ cyclic (tree_in text.now) }
{
    let mut rows = input_rows(text);
    marks::close_sets(&mut rows);
    has_own(&rows)
}

// (ii): exactly one element that is no box and no input, of a gate or a box.
fn one_top(g: Gathered) -> bool
    ensures { result ≡ eqb (tops g) 1 }
{
    sets::count(sets::minus(sets::minus(g.numbers, g.boxes), g.inputs)) == 1
}

fn broken(n: usize) -> Result<(), Refusal>
    ensures { says_checked result ≡ some (refused (condition_told n)) }
{
    Err(Refusal {
        number: 47,
        place: Place::Condition(n),
    })
}

// "47 lowest condition broken, as a number".
fn lowest_broken(cyclic: bool, g: Gathered) -> Result<(), Refusal>
    ensures { says_checked result ≡ some (broken_as (lowest_broken cyclic g)) }
{
    if cyclic {
        return broken(1);
    }
    if !one_top(g) {
        return broken(2);
    }
    if g.twice {
        return broken(3);
    }
    if g.boxes & g.inputs != 0 {
        return broken(4);
    }
    if !sets::lies_in(g.boxed, g.basics) {
        return broken(5);
    }
    if g.shared {
        return broken(6);
    }
    Ok(())
}

// 47, of a text that 2, 4, 6 and 5 have no fault with.
pub fn check_conditions(text: &[u8]) -> Result<(), Refusal>
    requires { IsTree text.now }
    ensures { says_checked result ≡ some (done_of (proper_of text.now)) }
{
    let cyclic = is_cyclic(text);
    let g = gather_all(text);
    lowest_broken(cyclic, g)
}

// 2, 4, 6 and 5, then 47.
pub fn check_well_formed(text: &[u8]) -> Result<(), Refusal>
    ensures { says_checked result ≡ some (done_of (proper_of text.now)) }
{
    treenames::check_tree(text)?;
    check_conditions(text)
}
