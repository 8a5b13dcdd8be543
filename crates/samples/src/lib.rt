// The sample text: one sample, the line of a clock, the whole text with the place of 40 and where each clock's samples begin, and the next sample at a cursor.
#![tactic(auto)]

ghost use Rattle.std.specs.Prelude.{◌≡◌, List, ℕ, ◌≤◌, ◌<◌, length, drop};
ghost use Rattle.model.specs.Reading.{field};
ghost use Rattle.fields.specs.Fields.{past, got_number};
ghost use Rattle.simulation.specs.Samples.{sample_at, samples_at, samples_of};
ghost use Rattle.answer.specs.Limits.{max_clocks};
ghost use Rattle.samples.specs.Lines.{done, LineGives};
ghost use Rattle.samples.specs.Text.{TurnGives, bad_line, Scans};

use answer::{Model, Place, Refusal, State};
use fields::{Cursor, Scan, Sign};

// The digits of 2^40.
const DIGITS: usize = 13;

// One sample: "samples are 1 to 2^40".
fn sample(text: &[u8], c: Cursor) -> Scan<u64>
    ensures { got_number text.now result ≡ sample_at (drop c.at text.now) }
{
    let at = c.at;
    if text.len() <= at {
        return Err(c);
    }
    let b = text[at];
    if !fields::is_digit(b) {
        return Err(c);
    }
    if b == Sign::ZERO {
        return Err(c);
    }
    let (end, n) = fields::more_digits(
        text,
        (b - Sign::ZERO) as u64,
        Cursor { at: at + 1 },
        DIGITS,
    );
    if n <= State::TICKS as u64 {
        Ok((end, n))
    } else {
        Err(c)
    }
}

// The next sample at a cursor: it stands behind a tab.
pub fn next(text: &[u8], c: Cursor) -> Scan<u64>
    ensures { got_number text.now result ≡ field sample_at (drop c.at text.now) }
{
    let d = fields::byte(text, c, Sign::TAB)?;
    sample(text, d)
}

// All samples of a line, and its LF.
fn all_samples(text: &[u8], c: Cursor) -> Result<Cursor, Cursor>
    ensures { past text.now result ≡ done (samples_at (length (drop c.at text.now)) (drop c.at text.now)) }
{
    let mut at = c.at;
    while at < text.len() {
        if text[at] == Sign::LF {
            return Ok(Cursor { at: at + 1 });
        }
        let (d, _) = next(text, Cursor { at })?;
        at = d.at;
    }
    Err(Cursor { at })
}

// The line of clock x: where the next line begins, and where its samples do.
fn line_of(text: &[u8], x: u64, c: Cursor) -> Scan<Cursor>
    ensures { LineGives x text.now c.at result }
{
    let (begin, n) = fields::number(text, c)?;
    if n == x {
        let end = all_samples(text, begin)?;
        Ok((end, begin))
    } else {
        Err(c)
    }
}

// A place in the text, and the number of the line there.
#[derive(Clone, Copy)]
pub struct Spot {
    pub at: usize,
    pub line: usize,
}

// The turn of clock x of those in d: where the next line is looked for, and where its samples begin. A clock that is not declared has no line, and no samples at the text's end.
fn turn_of(text: &[u8], d: u64, x: u64, p: Spot) -> Result<(Spot, usize), Cursor>
    requires { (x < max_clocks) × (p.line ≤ max_clocks) }
    ensures { TurnGives d x text.now p result }
{
    if !sets::has(d, x) {
        return Ok((p, text.len()));
    }
    let (end, begin) = line_of(text, x, Cursor { at: p.at })?;
    Ok((
        Spot {
            at: end.at,
            line: p.line + 1,
        },
        begin.at,
    ))
}

// 40 at a line.
fn bad_line(line: usize) -> Refusal
    ensures { result ≡ bad_line line }
{
    Refusal {
        number: 40,
        place: Place::Line(line),
    }
}

// The whole text in one pass: 40, or where the samples of each clock begin, into the places that the caller lends; d are the declared clocks.
pub fn scan(text: &[u8], d: u64, at: &mut [usize; Model::CLOCKS]) -> Result<(), Refusal>
    requires { length at.old ≡ max_clocks }
    ensures { Scans (samples_of d text.now) text.now result at.new }
{
    let mut p = Spot { at: 0, line: 1 };
    for x in 0..Model::CLOCKS {
        let Ok((next, begin)) = turn_of(text, d, x as u64, p) else {
            return Err(bad_line(p.line));
        };
        at[x] = begin;
        p = next;
    }
    if p.at < text.len() {
        return Err(bad_line(p.line));
    }
    Ok(())
}
