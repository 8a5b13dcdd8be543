// Lines of a tree's text: the shape of a whole line, one scan from left to right, which answers the element or where it stopped; no value is judged here.
#![tactic(auto)]

ghost use Rattle.std.specs.Prelude.{◌≡◌, ◌+◌, ◌≤◌, ◌<◌, drop};
ghost use Rattle.answer.specs.Limits.{max_inputs};
ghost use Rattle.fields.specs.Resets.{valued};
ghost use Rattle.trees.specs.TreeText.{fewest as fewest_of, at_most_more, sort_scan, more_inputs, inputs as inputs_scan, behind_word, element};
ghost use Rattle.treelines.specs.Elements.{sort_is, got_sort, no_inputs, placed_at, with_more, got_inputs, element_is, got_element};

use fields::{Cursor, Scan, Sign};

// `be`, `and`, `or`, `pand`, `rbox`.
#[derive(Clone, Copy)]
pub enum Sort {
    Be,
    And,
    Or,
    Pand,
    Rbox,
}

// The inputs of an element, "boxes one to five": the first `count` of five places.
#[derive(Clone, Copy)]
pub struct Inputs {
    pub count: usize,
    pub first: u64,
    pub second: u64,
    pub third: u64,
    pub fourth: u64,
    pub fifth: u64,
}

#[derive(Clone, Copy)]
pub struct Element {
    pub sort: Sort,
    pub number: u64,
    pub inputs: Inputs,
}

// The first word; where it is none of the five, the one that got furthest tells where it stops.
fn sort_of(text: &[u8], c: Cursor) -> Scan<Sort>
    ensures { got_sort text.now result ≡ sort_scan (drop c.at text.now) }
{
    match fields::word(text, c, b"be") {
        Ok(d) => Ok((d, Sort::Be)),
        Err(be) => match fields::word(text, c, b"and") {
            Ok(d) => Ok((d, Sort::And)),
            Err(an) => match fields::word(text, c, b"or") {
                Ok(d) => Ok((d, Sort::Or)),
                Err(or) => match fields::word(text, c, b"pand") {
                    Ok(d) => Ok((d, Sort::Pand)),
                    Err(pa) => match fields::word(text, c, b"rbox") {
                        Ok(d) => Ok((d, Sort::Rbox)),
                        Err(rb) => Err(fields::further(
                            be,
                            fields::further(an, fields::further(or, fields::further(pa, rb))),
                        )),
                    },
                },
            },
        },
    }
}

// "Gates have two inputs, boxes one to five": so many at least.
fn fewest(s: Sort) -> usize
    ensures { result ≡ fewest_of (sort_is s) }
{
    match s {
        Sort::Be => 0,
        Sort::And | Sort::Or | Sort::Pand => 2,
        Sort::Rbox => 1,
    }
}

// And so many more at most.
fn at_most_more(s: Sort) -> usize
    ensures { result ≡ at_most_more (sort_is s) }
{
    match s {
        Sort::Rbox => 4,
        _ => 0,
    }
}

// No input yet.
fn no_inputs() -> Inputs
    ensures { result ≡ no_inputs }
{
    Inputs {
        count: 0,
        first: 0,
        second: 0,
        third: 0,
        fourth: 0,
        fifth: 0,
    }
}

// A number in its place.
fn placed(i: Inputs, at: usize, n: u64) -> Inputs
    requires { at < max_inputs }
    ensures { result ≡ placed_at i at n }
{
    let count = at + 1;
    if at == 0 {
        return Inputs {
            count,
            first: n,
            second: 0,
            third: 0,
            fourth: 0,
            fifth: 0,
        };
    }
    if at == 1 {
        return Inputs {
            count,
            first: i.first,
            second: n,
            third: 0,
            fourth: 0,
            fifth: 0,
        };
    }
    if at == 2 {
        return Inputs {
            count,
            first: i.first,
            second: i.second,
            third: n,
            fourth: 0,
            fifth: 0,
        };
    }
    if at == 3 {
        return Inputs {
            count,
            first: i.first,
            second: i.second,
            third: i.third,
            fourth: n,
            fifth: 0,
        };
    }
    Inputs {
        count,
        first: i.first,
        second: i.second,
        third: i.third,
        fourth: i.fourth,
        fifth: n,
    }
}

// Further inputs, each behind a tab; no more than so many.
fn further_inputs(text: &[u8], c: Cursor, i: Inputs, more: usize) -> Scan<Inputs>
    requires { i.count + more ≤ max_inputs }
    ensures { got_inputs text.now result ≡ valued (with_more i) (more_inputs more (drop c.at text.now)) }
{
    let mut sum = i;
    let mut at = c;
    for k in 0..more {
        let Ok(d) = fields::byte(text, at, Sign::TAB) else {
            return Ok((at, sum));
        };
        let (next, n) = fields::number(text, d)?;
        sum = placed(sum, sum.count, n);
        at = next;
    }
    Ok((at, sum))
}

// So many inputs, each behind a tab, and no more than so many further ones.
fn all_inputs(text: &[u8], c: Cursor, least: usize, more: usize) -> Scan<Inputs>
    requires { least + more ≤ max_inputs }
    ensures { got_inputs text.now result ≡ valued (with_more no_inputs) (inputs_scan least more (drop c.at text.now)) }
{
    let mut sum = no_inputs();
    let mut at = c;
    for k in 0..least {
        let (next, n) = fields::number_field(text, at)?;
        sum = placed(sum, k, n);
        at = next;
    }
    further_inputs(text, at, sum, more)
}

// What stands behind the first word: a number, the inputs, LF.
fn behind_word(text: &[u8], c: Cursor, sort: Sort) -> Scan<Element>
    ensures { got_element text.now result ≡ valued element_is (behind_word (sort_is sort) (drop c.at text.now)) }
{
    let (c1, number) = fields::number_field(text, c)?;
    let (c2, inputs) = all_inputs(text, c1, fewest(sort), at_most_more(sort))?;
    let d = fields::byte(text, c2, Sign::LF)?;
    Ok((
        d,
        Element {
            sort,
            number,
            inputs,
        },
    ))
}

// One line, with its LF.
pub fn element_at(text: &[u8], c: Cursor) -> Scan<Element>
    ensures { got_element text.now result ≡ valued element_is (element (drop c.at text.now)) }
{
    let (d, s) = sort_of(text, c)?;
    behind_word(text, d, s)
}
