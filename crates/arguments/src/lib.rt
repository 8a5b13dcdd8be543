// The words of the command line that are numbers.
#![tactic(auto)]

use fields::Cursor;
use std::env::FillError;
use std::rt::Env;

// The whole of a word is a number of at most five digits, as in the texts; or it is not.
fn number_in(word: &[u8]) -> Option<usize> {
    let (end, n) = fields::number(word, Cursor { at: 0 }).ok()?;
    if end.at == word.len() {
        Some(n as usize)
    } else {
        None
    }
}

// Argument i, counted from 1. One that is missing or longer than any number is none.
pub fn number_at(env: &impl Env, i: usize) -> Option<usize> {
    let mut word = io::buffer();
    let n = env.arg(i, &mut word).ok()?;
    number_in(&word[..n])
}

// Whether there is an argument i.
fn is_given(env: &impl Env, i: usize) -> bool {
    let mut word = io::buffer();
    match env.arg(i, &mut word) {
        Ok(_) => true,
        Err(FillError::TooLong) => true,
        Err(FillError::NotPresent) => false,
    }
}

// How many arguments there are, the program's own name among them; more than any program takes are five.
pub fn count(env: &impl Env) -> usize {
    let mut k = 0usize;
    while k < 5 && is_given(env, k) {
        k += 1;
    }
    k
}

// The one argument that there is.
pub fn only_number(env: &impl Env) -> Option<usize> {
    if count(env) == 2 {
        number_at(env, 1)
    } else {
        None
    }
}
