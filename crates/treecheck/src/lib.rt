// The lines of a tree's text are judged: 2, 4 and 6, line by line. 4 asks whether an element's numbers are in a set, and so does 5, which waits for the last line.
#![tactic(auto)]

ghost use Rattle.std.specs.Prelude.{◌≡◌, ◌≤◌, length};
ghost use Rattle.std.proofs.Math.Option.{some};
ghost use Rattle.answer.specs.Limits.{max_inputs};
ghost use Rattle.answer.specs.Told.{says_checked, done_of};
ghost use Rattle.trees.specs.TreeText.{sort_word, lines_from};
ghost use Rattle.treelines.specs.Elements.{sort_is};
ghost use Rattle.treecheck.specs.Numbers.{input_at, all_in, column_in};

use answer::{Place, Refusal};
use fields::Cursor;
use treelines::{Element, Inputs, Sort};

// "Number 0 to 63": every number that an element may have, as a set.
const ALL: u64 = 18446744073709551615;

fn word_width(s: Sort) -> usize
    ensures { result ≡ length (sort_word (sort_is s)) }
{
    match s {
        Sort::Be | Sort::Or => 2,
        Sort::And => 3,
        Sort::Pand | Sort::Rbox => 4,
    }
}

pub fn input_at(i: Inputs, k: usize) -> u64
    ensures { result ≡ input_at i k }
{
    if k == 0 {
        return i.first;
    }
    if k == 1 {
        return i.second;
    }
    if k == 2 {
        return i.third;
    }
    if k == 3 {
        return i.fourth;
    }
    i.fifth
}

// An element's own number and its inputs are members of a set.
pub fn all_in(e: Element, set: u64) -> bool
    ensures { result ≡ all_in e set }
{
    if !columns::is_in(set, e.number) {
        return false;
    }
    let i = e.inputs;
    let count = i.count;
    for j in 0..count {
        let x = input_at(i, j);
        if !columns::is_in(set, x) {
            return false;
        }
    }
    true
}

// The column of the first of them that is no member.
pub fn column(e: Element, set: u64) -> usize
    requires { e.inputs.count ≤ max_inputs }
    ensures { result ≡ column_in e set }
{
    let sort = e.sort;
    let mut k = word_width(sort) + 2;
    if !columns::is_in(set, e.number) {
        return k;
    }
    k = k + 1 + measure::width(e.number);
    let i = e.inputs;
    let count = i.count;
    for j in 0..count {
        let x = input_at(i, j);
        if !columns::is_in(set, x) {
            return k;
        }
        k = k + 1 + measure::width(x);
    }
    k
}

// 2, 4 and 6: lines in file order; the numbers ascend strictly.
pub fn check_lines(text: &[u8]) -> Result<(), Refusal>
    ensures { says_checked result ≡ some (done_of (lines_from (length text.now) 1 0 text.now)) }
{
    let mut low = 0;
    let mut at = 0;
    let mut n = 1;
    while at < text.len() {
        match treelines::element_at(text, Cursor { at }) {
            Ok((next, e)) => {
                if !all_in(e, ALL) {
                    let k = column(e, ALL);
                    return Err(Refusal {
                        number: 4,
                        place: Place::Spot { line: n, column: k },
                    });
                }
                let number = e.number;
                if number < low {
                    return Err(Refusal {
                        number: 6,
                        place: Place::Line(n),
                    });
                }
                low = number + 1;
                at = next.at;
                n += 1;
            }
            Err(stop) => {
                let k = columns::column_at(text, at, stop);
                return Err(Refusal {
                    number: 2,
                    place: Place::Spot { line: n, column: k },
                });
            }
        }
    }
    Ok(())
}
