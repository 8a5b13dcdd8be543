// Answers as words, and composed states as bytes, for callers in C (include/floodneedle.h has the layout in C's words).
#![tactic(auto)]

ghost use Rattle.std.specs.Prelude.{◌≡◌, ℕ, get_or, Bool};
ghost use Rattle.std.proofs.Math.Option.{some};
ghost use Rattle.answer.specs.Told.{Answer, Step, Shot, step_said, shot_said, says_checked, says_written};
ghost use Rattle.words.specs.Words.{words_of, refusal_words, checked_words, started_words, written_words, stepped_words, settled_words, fired_words};
ghost use Rattle.words.specs.Words.{step_words, shot_words, says_step, says_settling, steps_in, resets_in, says_shot};
ghost use Rattle.words.specs.Bytes.{state_of, laid_over, moved_over};
ghost use Rattle.words.specs.Version.{version_number};

use answer::{Firing, Outcome, Place, Refusal, Settled, State, Stepped, Timed, Verdict};

// The layout of an answer: how many words, and what the first of them says.
#[derive(Drop)]
pub struct Words {}

impl Words {
    pub const COUNT: usize = 11;

    pub const REFUSED: u64 = 0;

    pub const DONE: u64 = 1;

    pub const MOVED: u64 = 2;

    pub const STABLE: u64 = 3;

    pub const UNSETTLED: u64 = 4;

    pub const FIRED: u64 = 5;

    pub const QUIET: u64 = 6;
}

// The version: MAJOR changes where a call's promise does, MINOR where calls are added, PATCH where neither (docs/CHANGELOG.md).
#[derive(Drop)]
pub struct Release {}

impl Release {
    pub const MAJOR: u64 = 0;

    pub const MINOR: u64 = 2;

    pub const PATCH: u64 = 0;

    // How many numbers MINOR and PATCH have each.
    pub const EACH: u64 = 1000;
}

// The version as one number.
pub fn version() -> u64
    ensures { result ≡ version_number }
{
    (Release::MAJOR * Release::EACH + Release::MINOR) * Release::EACH + Release::PATCH
}

// A refusal's words, from its number and the values of its place.
fn told(number: u8, places: u64, a: u64, b: u64, c: u64, d: u64) -> [u64; Words::COUNT]
    ensures { result ≡ words_of 0 number places a b c d 0 0 0 0 }
{
    [
        Words::REFUSED,
        number as u64,
        places,
        a,
        b,
        c,
        d,
        0,
        0,
        0,
        0,
    ]
}

// An answer's words where nothing is refused.
fn given(kind: u64, length: u64, action: u64, resets: u64, ticks: u64) -> [u64; Words::COUNT]
    ensures { result ≡ words_of kind 0 0 0 0 0 0 length action resets ticks }
{
    [kind, 0, 0, 0, 0, 0, 0, length, action, resets, ticks]
}

// The words of a refusal.
fn refusal_words(r: Refusal) -> [u64; Words::COUNT]
    ensures { result ≡ refusal_words r }
{
    let number = r.number;
    let place = r.place;
    match place {
        Place::Whole => told(number, 1, 0, 0, 0, 0),
        Place::Line(n) => told(number, 1, n as u64, 0, 0, 0),
        Place::Row(n) => told(number, 1, n as u64, 0, 0, 0),
        Place::Bytes(n) => told(number, 1, n as u64, 0, 0, 0),
        Place::Index(n) => told(number, 1, n as u64, 0, 0, 0),
        Place::Clock(x) => told(number, 1, x, 0, 0, 0),
        Place::Component(i) => told(number, 1, i as u64, 0, 0, 0),
        Place::Cell {
            component,
            state,
            action,
        } => told(number, 3, component as u64, state as u64, action, 0),
        Place::Clash {
            component,
            state,
            lower,
            higher,
        } => told(number, 4, component as u64, state as u64, lower, higher),
        Place::SharedAction {
            action,
            first,
            second,
        } => told(number, 3, action, first as u64, second as u64, 0),
        Place::SharedClock {
            clock,
            first,
            second,
        } => told(number, 3, clock, first as u64, second as u64, 0),
        Place::Spot { line, column } => told(number, 2, line as u64, column as u64, 0, 0),
        Place::Condition(n) => told(number, 1, n as u64, 0, 0, 0),
        Place::Action(a) => told(number, 1, a, 0, 0, 0),
    }
}

// What reading, checking and merging answer.
pub fn checked_words(r: Result<(), Refusal>) -> [u64; Words::COUNT]
    ensures { (a : Answer (Unit {0})) → says_checked r ≡ some a → result ≡ checked_words a }
{
    started_words(r, 0, 0)
}

// What the start answers; its state stands beside it.
pub fn started_words(r: Result<(), Refusal>, count: usize, started: u64) -> [u64; Words::COUNT]
    ensures { (a : Answer (Unit {0})) → says_checked r ≡ some a → result ≡ started_words a count started }
{
    match r {
        Ok(()) => given(Words::DONE, count as u64, 0, started, 0),
        Err(f) => refusal_words(f),
    }
}

// What writing answers.
pub fn written_words(r: Result<usize, Refusal>) -> [u64; Words::COUNT]
    ensures { (a : Answer ℕ) → says_written r ≡ some a → result ≡ written_words a }
{
    match r {
        Ok(n) => given(Words::DONE, n as u64, 0, 0, 0),
        Err(f) => refusal_words(f),
    }
}

// What a step answers; its state stands beside it.
pub fn stepped_words(r: &Result<Stepped, Refusal>) -> [u64; Words::COUNT]
    ensures { (a : Answer Step) → says_step r.now ≡ some a → result ≡ stepped_words a }
{
    match r {
        Ok(s) => outcome_words(s.outcome),
        Err(f) => refusal_words(*f),
    }
}

// What a step did.
fn outcome_words(o: Outcome) -> [u64; Words::COUNT]
    ensures { result ≡ step_words (step_said o) }
{
    match o {
        Outcome::Moved { action, resets } => given(Words::MOVED, 0, action, resets, 0),
        Outcome::Stable => given(Words::STABLE, 0, 0, 0, 0),
    }
}

// What settling answers; its state stands beside it.
pub fn settled_words(r: &Result<Settled, Refusal>) -> [u64; Words::COUNT]
    ensures { (a : Answer Bool) → says_settling r.now ≡ some a → result ≡ settled_words a (steps_in r.now) (resets_in r.now) }
{
    match r {
        Ok(s) => match s.verdict {
            Verdict::Stable => given(Words::STABLE, s.steps as u64, 0, s.resets, 0),
            Verdict::Unsettled => given(Words::UNSETTLED, s.steps as u64, 0, s.resets, 0),
        },
        Err(f) => refusal_words(*f),
    }
}

// What the timed step answers; its state stands beside it.
pub fn fired_words(r: &Result<Timed, Refusal>) -> [u64; Words::COUNT]
    ensures { (a : Answer Shot) → says_shot r.now ≡ some a → result ≡ fired_words a }
{
    match r {
        Ok(t) => firing_words(t.firing),
        Err(f) => refusal_words(*f),
    }
}

// What the timed step did.
fn firing_words(f: Firing) -> [u64; Words::COUNT]
    ensures { result ≡ shot_words (shot_said f) }
{
    match f {
        Firing::Fired {
            ticks,
            action,
            resets,
        } => given(Words::FIRED, 0, action, resets, ticks),
        Firing::Quiet => given(Words::QUIET, 0, 0, 0, 0),
    }
}

// A composed state from its bytes. Bytes past the places of a state are left out; its count tells that they were there.
pub fn state_of(bytes: &[u8]) -> State
    ensures { result ≡ state_of bytes.now }
{
    let mut parts = [0u8; State::PARTS];
    for i in 0..State::PARTS {
        parts[i] = part(bytes, i);
    }
    State {
        count: bytes.len(),
        parts,
    }
}

// The number at a place, and 0 past the end.
fn part(bytes: &[u8], i: usize) -> u8
    ensures { result ≡ get_or bytes.now i 0 }
{
    if i < bytes.len() { bytes[i] } else { 0 }
}

// A state's places laid over the bytes that a caller lent, as many as there are bytes.
fn put_state(bytes: &mut [u8], x: &State)
    ensures { bytes.new ≡ laid_over x.now.parts bytes.old }
{
    let n = bytes.len().min(State::PARTS);
    bytes[..n].copy_from_slice(&x.parts[..n]);
}

// The same where a step moved; where it did not, nothing is stored.
pub fn put_moved(bytes: &mut [u8], r: &Result<Stepped, Refusal>)
    ensures { bytes.new ≡ moved_over r.now bytes.old }
{
    if let Ok(s) = r {
        if let Outcome::Moved { .. } = s.outcome {
            put_state(bytes, &s.state);
        }
    }
}
