// Names for actions (paper 02, request 7): a text of the second form is made a text of the old one, line by line, and the other way.
#![tactic(auto)]

ghost use Rattle.std.specs.Prelude.{◌≡◌, ◌≤◌, length};
ghost use Rattle.answer.specs.Limits.{max_actions, max_bytes};
ghost use Rattle.print.specs.Put.{Room, Put};
ghost use Rattle.named.specs.NamedText.{lines_text};
ghost use Rattle.named.specs.Converted.{to_numbers, to_names, Converts};
ghost use Rattle.namelaws.specs.OldLines.{old_lines};
ghost use Rattle.cutlaws.specs.Cutting.{number_part};
ghost use Rattle.namecut.specs.Cuts.{cut_text, InOrder};

use answer::{Model, Place, Refusal};
use namecut::Cut;

fn number_width(c: Cut) -> usize
    ensures { result ≡ length (number_part c.action) }
{
    match c.action {
        Some(a) => measure::width(a),
        None => 0,
    }
}

fn put_number(out: &mut [u8], to: usize, c: Cut) -> usize
    requires { Room out.old to (number_part c.action) }
    ensures { Put out.old to (number_part c.action) out.new result }
{
    match c.action {
        Some(a) => print::put_decimal(out, to, a),
        None => to,
    }
}

// The parts of a line.
fn put_cut(out: &mut [u8], to: usize, text: &[u8], at: usize, c: Cut) -> usize
    requires { InOrder text.now at c × Room out.old to (cut_text text.now at c) }
    ensures { Put out.old to (cut_text text.now at c) out.new result }
{
    let stop = c.stop;
    let go = c.go;
    let next = c.next;
    let a = print::put_word(out, to, &text[at..stop]);
    let b = put_number(out, a, c);
    print::put_word(out, b, &text[go..next])
}

// How long the old lines are, from a place on.
fn old_length(text: &[u8], places: &[usize; Model::ACTIONS], from: usize) -> usize
    requires { (length places.now ≡ max_actions) × (from ≤ length text.now) × (length text.now ≤ max_bytes) }
    ensures { result ≡ length (lines_text (old_lines text.now places.now from)) }
{
    let mut at = from;
    let mut sum = 0;
    while at < text.len() {
        match namecut::cut_at(text, places, at) {
            Some(c) => {
                sum = sum + (c.stop - at) + number_width(c) + (c.next - c.go);
                at = c.next;
            }
            None => {
                return sum;
            }
        }
    }
    sum
}

// The old lines, from a place on, at the front of the buffer.
fn write_old(out: &mut [u8], text: &[u8], places: &[usize; Model::ACTIONS], from: usize) -> usize
    requires { (length places.now ≡ max_actions) × (from ≤ length text.now) × (length text.now ≤ max_bytes) × Room out.old 0 (lines_text (old_lines text.now places.now from)) }
    ensures { Put out.old 0 (lines_text (old_lines text.now places.now from)) out.new result }
{
    let mut at = from;
    let mut to = 0;
    while at < text.len() {
        match namecut::cut_at(text, places, at) {
            Some(c) => {
                to = put_cut(out, to, text, at, c);
                at = c.next;
            }
            None => {
                return to;
            }
        }
    }
    to
}

// New to old: the refusal of the text, 24 with the bytes needed, 26; else the old text at the front of the buffer, and its length.
pub fn to_numbers(text: &[u8], old: &mut [u8]) -> Result<usize, Refusal>
    ensures { Converts (to_numbers text.now) old.old old.new result }
{
    let mut places: [usize; Model::ACTIONS] = [0; Model::ACTIONS];
    let at = namecheck::check_named(text, &mut places)?;
    let needed = old_length(text, &places, at);
    if old.len() < needed {
        return Err(Refusal {
            number: 24,
            place: Place::Bytes(needed),
        });
    }
    if Model::BYTES < needed {
        return Err(Refusal {
            number: 26,
            place: Place::Whole,
        });
    }
    Ok(write_old(old, text, &places, at))
}

// Old to new: the refusal of the text, 24 with the bytes needed, 26; else the new text at the front of the buffer, and its length.
pub fn to_names(text: &[u8], new: &mut [u8]) -> Result<usize, Refusal>
    ensures { Converts (to_names text.now) new.old new.new result }
{
    survey::check_text(text)?;
    let s = naming::new_length(text);
    if new.len() < s.length {
        return Err(Refusal {
            number: 24,
            place: Place::Bytes(s.length),
        });
    }
    if Model::BYTES < s.length {
        return Err(Refusal {
            number: 26,
            place: Place::Whole,
        });
    }
    Ok(naming::write_new(new, text, s.declared))
}
