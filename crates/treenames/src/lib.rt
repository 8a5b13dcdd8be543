// 5: an input that no line defines. The text is known to be good line by line; its numbers are a set, and each line is asked again.
#![tactic(auto)]

ghost use Rattle.std.specs.Prelude.{◌≡◌};
ghost use Rattle.std.proofs.Math.Option.{some};
ghost use Rattle.answer.specs.Told.{says_checked, done_of};
ghost use Rattle.trees.specs.TreeText.{tree_of};
ghost use Rattle.trees.specs.Tree.{Tree};
ghost use Rattle.treenames.specs.Names.{numbers_in, LinesOf, LineThere, LineRead};

use answer::{Place, Refusal};
use fields::Cursor;
use treelines::Element;

// A line, and where the next one begins.
#[derive(Drop)]
pub struct Line {
    pub element: Element,
    pub next: usize,
}

// The line at a place where there is one.
pub fn line_at(text: &[u8], at: usize) -> Line
    requires { LineThere text.now at }
    ensures { LineRead text.now at result }
{
    let (next, element) = treelines::element_at(text, Cursor { at }).unwrap();
    Line {
        element,
        next: next.at,
    }
}

// The numbers of all lines.
fn number_set(text: &[u8]) -> u64
    requires { (t : Tree) × LinesOf text.now t }
    ensures { (t : Tree) × LinesOf text.now t × (result ≡ numbers_in t) }
{
    let mut known = 0;
    let mut at = 0;
    while at < text.len() {
        let line = line_at(text, at);
        let e = line.element;
        known = sets::union(known, sets::single(e.number));
        at = line.next;
    }
    known
}

// The first line with an input that is no member, and the first such input.
fn check_names(text: &[u8], known: u64) -> Result<(), Refusal>
    requires { (t : Tree) × LinesOf text.now t × (known ≡ numbers_in t) }
    ensures { says_checked result ≡ some (done_of (tree_of text.now)) }
{
    let mut at = 0;
    let mut n = 1;
    while at < text.len() {
        let line = line_at(text, at);
        let e = line.element;
        if !treecheck::all_in(e, known) {
            let k = treecheck::column(e, known);
            return Err(Refusal {
                number: 5,
                place: Place::Spot { line: n, column: k },
            });
        }
        at = line.next;
        n += 1;
    }
    Ok(())
}

// 2, 4 and 6 line by line, then 5.
pub fn check_tree(text: &[u8]) -> Result<(), Refusal>
    ensures { says_checked result ≡ some (done_of (tree_of text.now)) }
{
    treecheck::check_lines(text)?;
    let known = number_set(text);
    check_names(text, known)
}
