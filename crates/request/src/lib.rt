// The request line of the program (paper 01, "The program and its example"): one scan of its bytes from left to right.
#![tactic(auto)]

ghost use Rattle.std.specs.Prelude.{◌≡◌, ◌≤◌, IfSome, length, drop};
ghost use Rattle.answer.specs.Limits.{no_state};
ghost use Rattle.model.specs.Reading.{more_numbers, numbers, field};
ghost use Rattle.answering.specs.Report.{request_line, request_of};
ghost use Rattle.fields.specs.Resets.{valued};
ghost use Rattle.request.specs.Kept.{byte_of, with, with_all, held, keep, kept, got_parts, got_asked, asked};

use answer::{Model, State};
use fields::{Cursor, Scan, Sign};

// What stands for a number that no byte holds: no component has such a state.
const NO_PART: u8 = 255;

// A request: a state, a budget, and where the model's text begins.
#[derive(Drop)]
pub struct Asked {
    pub state: State,
    pub budget: u64,
    pub at: usize,
}

fn byte_of(n: u64) -> u8
    ensures { result ≡ byte_of n }
{
    u8::try_from(n).unwrap_or(NO_PART)
}

// One number more: past the last place only that there are too many is kept.
fn with_part(x: State, n: u64) -> State
    ensures { result ≡ with x n }
{
    let count = x.count;
    let mut parts = x.parts;
    if count < State::PARTS {
        parts[count] = byte_of(n);
        State {
            count: count + 1,
            parts,
        }
    } else {
        State {
            count: State::PARTS + 1,
            parts,
        }
    }
}

// Further numbers, each behind a comma.
fn more_parts(text: &[u8], x: State, c: Cursor) -> Scan<State>
    ensures { got_parts text.now result
        ≡ valued (with_all x) (more_numbers (length (drop c.at text.now)) (drop c.at text.now)) }
{
    let mut cur = x;
    let mut at = c.at;
    while at < text.len() {
        if text[at] != Sign::COMMA {
            return Ok((Cursor { at }, cur));
        }
        let (next, n) = fields::number(text, Cursor { at: at + 1 })?;
        cur = with_part(cur, n);
        at = next.at;
    }
    Ok((Cursor { at }, cur))
}

// "state numbers joined by commas", behind a tab.
fn parts_field(text: &[u8], c: Cursor) -> Scan<State>
    ensures { got_parts text.now result ≡ valued held (field numbers (drop c.at text.now)) }
{
    let (d, n) = fields::number_field(text, c)?;
    more_parts(text, with_part(answer::no_state(), n), d)
}

fn request_line(text: &[u8]) -> Result<Asked, Cursor>
    ensures { got_asked text.now result ≡ valued keep (request_line text.now) }
{
    let c1 = fields::word(text, Cursor { at: 0 }, b"from")?;
    let (c2, state) = parts_field(text, c1)?;
    let (c3, budget) = fields::number_field(text, c2)?;
    let c4 = fields::byte(text, c3, Sign::LF)?;
    Ok(Asked {
        state,
        budget,
        at: c4.at,
    })
}

// None is 9, which has no column: "request line of the program of wrong shape, or over 256 bytes with its LF".
pub fn request_of(text: &[u8]) -> Option<Asked>
    ensures { (asked text.now result ≡ kept keep (request_of text.now)) × IfSome result (λ r. r.at ≤ length text.now) }
{
    let r = request_line(text).ok()?;
    let at = r.at.min(text.len());
    if Model::REQUEST < at {
        return None;
    }
    Some(Asked { at, ..r })
}
