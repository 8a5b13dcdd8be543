// Names in a text: where one ends, whether it is good, whether two are the same, and which action has it. No name is copied: 64 places say where each stands.
#![tactic(auto)]

ghost use Rattle.std.specs.Prelude.{◌≡◌, ◌+◌, length, drop};
ghost use Rattle.answer.specs.Limits.{max_actions};
ghost use Rattle.named.specs.NamedText.{is_letter, is_letter_or_digit, letters_or_digits, good_name, same_name, is_named};
ghost use Rattle.namefields.specs.NameFields.{name_from, name_stops, name_by, number_by, found_is};

use answer::Model;
use fields::Sign;

// "a name of 1 to 16 lower-case letters or digits".
const LONGEST: usize = 16;

// No byte of a name stands here: "any bytes but tab and LF".
pub fn name_stops(text: &[u8], at: usize) -> bool
    ensures { result ≡ name_stops (drop at text.now) }
{
    if text.len() <= at {
        return true;
    }
    let b = text[at];
    b == Sign::TAB || b == Sign::LF
}

// The place behind the name that begins here.
pub fn name_end(text: &[u8], at: usize) -> usize
    ensures { result ≡ at + length (name_from text.now at) }
{
    let mut i = at;
    while !name_stops(text, i) {
        i += 1;
    }
    i
}

// Whether the names that begin at two places are the same.
pub fn same_name(text: &[u8], a: usize, b: usize) -> bool
    ensures { result ≡ same_name (name_from text.now a) (name_from text.now b) }
{
    let mut i = a;
    let mut j = b;
    while !name_stops(text, i) {
        if name_stops(text, j) {
            return false;
        }
        if text[i] != text[j] {
            return false;
        }
        i += 1;
        j += 1;
    }
    name_stops(text, j)
}

fn is_letter(b: u8) -> bool
    ensures { result ≡ is_letter b }
{
    b'a' <= b && b <= b'z'
}

fn is_letter_or_digit(b: u8) -> bool
    ensures { result ≡ is_letter_or_digit b }
{
    is_letter(b) || (b'0' <= b && b <= b'9')
}

fn letters_or_digits(text: &[u8], at: usize) -> bool
    ensures { result ≡ letters_or_digits (name_from text.now at) }
{
    let mut i = at;
    while !name_stops(text, i) {
        if !is_letter_or_digit(text[i]) {
            return false;
        }
        i += 1;
    }
    true
}

// "1 to 16 lower-case letters or digits that starts with a letter".
pub fn good_name(text: &[u8], at: usize) -> bool
    ensures { result ≡ good_name (name_from text.now at) }
{
    if name_stops(text, at) {
        return false;
    }
    if !is_letter(text[at]) {
        return false;
    }
    if LONGEST < name_end(text, at) - at {
        return false;
    }
    letters_or_digits(text, at + 1)
}

// Whether the name at a place, if there is one, is the one that begins here.
fn is_named(text: &[u8], place: usize, at: usize) -> bool
    ensures { result ≡ is_named (name_from text.now at) (name_by text.now place) }
{
    if place == 0 {
        return false;
    }
    same_name(text, place, at)
}

// The lowest action whose name is the one that begins here.
pub fn action_named(text: &[u8], places: &[usize; Model::ACTIONS], at: usize) -> Option<u64>
    requires { length places.now ≡ max_actions }
    ensures { found_is result ≡ number_by text.now places.now (name_from text.now at) }
{
    (0..Model::ACTIONS as u64).find(|a| is_named(text, places[*a as usize], at))
}
