// Names for actions (paper 02, request 7), old to new: `form`, a `name` line for each declared action, and the old lines with `a` put in before each action.
#![tactic(auto)]

ghost use Rattle.std.specs.Prelude.{◌≡◌, ◌≤◌, ◌<◌, length};
ghost use Rattle.answer.specs.Limits.{max_actions, max_bytes};
ghost use Rattle.print.specs.Put.{Room, Put};
ghost use Rattle.naminglaws.specs.Naming.{entries_at, place_in, line_set, set_of, default_lines, letter_part, name_part, sheet_part, new_text, Sums};
ghost use Rattle.naming.specs.Parts.{PartOf, PartAs, part_bytes};

use answer::Model;
use fields::{Cursor, Sign};
use lines::Line;

// A line that begins at a known place: its action begins `place` bytes on, 0 where it has none; the action that it declares, as a set; where the next line begins.
#[derive(Clone, Copy)]
pub struct Part {
    pub place: usize,
    pub declares: u64,
    pub next: usize,
}

// What all lines come to.
#[derive(Drop)]
pub struct Sum {
    pub declared: u64,
    pub length: usize,
}

fn place_in(l: Line) -> usize
    ensures { result ≡ place_in l }
{
    match l {
        Line::Comp {
            states: _,
            start: _,
        } => 0,
        Line::Act { action: _, kind: _ } => 4,
        Line::Clk { clock: _, set: _ } => 0,
        Line::Row {
            from,
            guard,
            action: _,
            resets: _,
            target: _,
        } => 6 + measure::width(from) + columns::guard_width(guard),
    }
}

fn line_set(l: Line) -> u64
    ensures { result ≡ line_set l }
{
    match l {
        Line::Comp {
            states: _,
            start: _,
        } => 0,
        Line::Act { action, kind: _ } => {
            if action < Model::ACTIONS as u64 {
                return sets::single(action);
            }
            0
        }
        Line::Clk { clock: _, set: _ } => 0,
        Line::Row {
            from: _,
            guard: _,
            action: _,
            resets: _,
            target: _,
        } => 0,
    }
}

fn part_at(text: &[u8], at: usize) -> Option<Part>
    requires { at ≤ length text.now }
    ensures { PartAs text.now at result }
{
    match lines::line_at(text, Cursor { at }) {
        Ok((behind, line)) => {
            let next = namecut::held(text, behind.at);
            let place = place_in(line);
            let declares = line_set(line);
            Some(Part {
                place,
                declares,
                next,
            })
        }
        Err(_) => None,
    }
}

fn letter_width(place: usize) -> usize
    ensures { result ≡ length (letter_part place) }
{
    if place == 0 {
        return 0;
    }
    1
}

// What the lines declare, and how long they are by default names.
fn sum_lines(text: &[u8]) -> Sum
    requires { length text.now ≤ max_bytes }
    ensures { Sums text.now result.declared result.length }
{
    let mut at = 0;
    let mut declared: u64 = 0;
    let mut length = 0;
    while at < text.len() {
        match part_at(text, at) {
            Some(p) => {
                declared = sets::union(declared, p.declares);
                length = length + (p.next - at) + letter_width(p.place);
                at = p.next;
            }
            None => {
                return Sum { declared, length };
            }
        }
    }
    Sum { declared, length }
}

// The length of an action's `name` line; 0 where it is not declared.
fn name_length(set: u64, a: u64) -> usize
    requires { a < max_actions }
    ensures { result ≡ length (name_part set a) }
{
    if sets::has(set, a) {
        let w = measure::width(a);
        return 8 + w + w;
    }
    0
}

// How long the `name` lines are.
fn names_length(set: u64) -> usize
    ensures { result ≡ length (sheet_part set) }
{
    let mut a: u64 = 0;
    let mut sum = 0;
    while a < Model::ACTIONS as u64 {
        sum = sum + name_length(set, a);
        a += 1;
    }
    sum
}

// What a text declares, and how long its new text is.
pub fn new_length(text: &[u8]) -> Sum
    requires { length text.now ≤ max_bytes }
    ensures { (result.declared ≡ set_of text.now) × (result.length ≡ length (new_text text.now)) }
{
    let s = sum_lines(text);
    let names = names_length(s.declared);
    let length = 7 + names + s.length;
    Sum {
        declared: s.declared,
        length,
    }
}

// An action's `name` line, where it is declared.
fn put_name(out: &mut [u8], to: usize, set: u64, a: u64) -> usize
    requires { (a < max_actions) × Room out.old to (name_part set a) }
    ensures { Put out.old to (name_part set a) out.new result }
{
    if sets::has(set, a) {
        let b = print::put_word(out, to, b"name\t");
        let c = print::put_decimal(out, b, a);
        let d = print::put_word(out, c, b"\ta");
        let e = print::put_decimal(out, d, a);
        return print::put_byte(out, e, Sign::LF);
    }
    to
}

fn put_names(out: &mut [u8], to: usize, set: u64) -> usize
    requires { Room out.old to (sheet_part set) }
    ensures { Put out.old to (sheet_part set) out.new result }
{
    let mut a: u64 = 0;
    let mut next = to;
    while a < Model::ACTIONS as u64 {
        next = put_name(out, next, set, a);
        a += 1;
    }
    next
}

fn put_letter(out: &mut [u8], to: usize, place: usize) -> usize
    requires { Room out.old to (letter_part place) }
    ensures { Put out.old to (letter_part place) out.new result }
{
    if 0 < place {
        return print::put_byte(out, to, b'a');
    }
    to
}

// A line with `a` put in before its action.
fn put_part(out: &mut [u8], to: usize, text: &[u8], at: usize, p: Part) -> usize
    requires { PartOf text.now at p × Room out.old to (part_bytes text.now at p) }
    ensures { Put out.old to (part_bytes text.now at p) out.new result }
{
    let stop = at + p.place;
    let next = p.next;
    let a = print::put_word(out, to, &text[at..stop]);
    let b = put_letter(out, a, p.place);
    print::put_word(out, b, &text[stop..next])
}

fn put_lines(out: &mut [u8], to: usize, text: &[u8]) -> usize
    requires { Room out.old to (default_lines (entries_at text.now 0)) }
    ensures { Put out.old to (default_lines (entries_at text.now 0)) out.new result }
{
    let mut at = 0;
    let mut next = to;
    while at < text.len() {
        match part_at(text, at) {
            Some(p) => {
                next = put_part(out, next, text, at, p);
                at = p.next;
            }
            None => {
                return next;
            }
        }
    }
    next
}

// The new text of a text, at the front of the buffer.
pub fn write_new(out: &mut [u8], text: &[u8], declared: u64) -> usize
    requires { (declared ≡ set_of text.now) × Room out.old 0 (new_text text.now) }
    ensures { Put out.old 0 (new_text text.now) out.new result }
{
    let a = print::put_word(out, 0, b"form\t2\n");
    let b = put_names(out, a, declared);
    put_lines(out, b, text)
}
