// The file of distributions: a number by its digits, the line of a clock, the whole file with the place of 49 and where each clock's distribution stands.
#![tactic(auto)]

ghost use Rattle.std.specs.Prelude.{◌≡◌, ℕ, ◌≤◌, ◌<◌, length, drop};
ghost use Rattle.answer.specs.Limits.{max_clocks};
ghost use Rattle.model.specs.Reading.{field};
ghost use Rattle.fields.specs.Fields.{got_number};
ghost use Rattle.drawing.specs.File.{hex_digits, is_letter, hex_at, real_at, range_at, ended as ended_by, uni_at, mix_at, form_at, law_at, laws_of};
ghost use Rattle.distributions.specs.Found.{digit_of, got_real, got_range, got_law, LineGives};
ghost use Rattle.distributions.specs.Text.{TurnGives, bad_line, Scans};

use answer::{Model, Place, Refusal};
use draw::Law;
use fields::{Cursor, Scan, Sign};

// The byte of the first letter that is a digit, and the digits of 64 bits.
const A: u8 = 97;

const DIGITS: usize = 16;

fn is_letter(b: u8) -> bool
    ensures { result ≡ is_letter b }
{
    A <= b && b < A + 6
}

// What a byte is as a digit, or 16.
fn digit_of(b: u8) -> u64
    ensures { result ≡ digit_of b }
{
    if fields::is_digit(b) {
        return (b - Sign::ZERO) as u64;
    }
    if is_letter(b) {
        return (b - A) as u64 + 10;
    }
    16
}

// 16 digits.
fn hex(text: &[u8], c: Cursor) -> Scan<u64>
    ensures { got_number text.now result ≡ hex_at hex_digits (drop c.at text.now) }
{
    let mut n = 0u64;
    let mut at = c.at;
    for k in 0..DIGITS {
        if text.len() <= at {
            return Err(Cursor { at });
        }
        let d = digit_of(text[at]);
        if 16 <= d {
            return Err(Cursor { at });
        }
        n = n * 16 + d;
        at += 1;
    }
    Ok((Cursor { at }, n))
}

// A number by its bits.
fn bits_at(text: &[u8], c: Cursor) -> Scan<f64>
    ensures { got_real text.now result ≡ real_at (drop c.at text.now) }
{
    let (d, n) = hex(text, c)?;
    match bits::real_of(n) {
        Some(x) => Ok((d, x)),
        None => Err(c),
    }
}

// A number by its bits, behind a tab.
fn real(text: &[u8], c: Cursor) -> Scan<f64>
    ensures { got_real text.now result ≡ field real_at (drop c.at text.now) }
{
    let d = fields::byte(text, c, Sign::TAB)?;
    bits_at(text, d)
}

// The lower and the upper end.
fn range(text: &[u8], c: Cursor) -> Scan<(f64, f64)>
    ensures { got_range text.now result ≡ range_at (drop c.at text.now) }
{
    let (d, a) = real(text, c)?;
    let (e, b) = real(text, d)?;
    Ok((e, (a, b)))
}

// The line ends here.
fn ended(text: &[u8], c: Cursor, law: Law) -> Scan<Law>
    ensures { got_law text.now result ≡ ended_by law (drop c.at text.now) }
{
    let d = fields::byte(text, c, Sign::LF)?;
    Ok((d, law))
}

// Behind `uni`.
fn uniform(text: &[u8], c: Cursor) -> Scan<Law>
    ensures { got_law text.now result ≡ uni_at (drop c.at text.now) }
{
    let (d, (a, b)) = range(text, c)?;
    ended(text, d, Law::Uniform(a, b))
}

// Behind `mix`.
fn mixture(text: &[u8], c: Cursor) -> Scan<Law>
    ensures { got_law text.now result ≡ mix_at (drop c.at text.now) }
{
    let (d, w) = real(text, c)?;
    let (e, (a, b)) = range(text, d)?;
    let (f, (p, q)) = range(text, e)?;
    ended(text, f, Law::Mixture(w, a, b, p, q))
}

// One word or the other, and what stands behind it.
fn form(text: &[u8], c: Cursor) -> Scan<Law>
    ensures { got_law text.now result ≡ form_at (drop c.at text.now) }
{
    if let Ok(d) = fields::word(text, c, b"uni") {
        return uniform(text, d);
    }
    let d = fields::word(text, c, b"mix")?;
    mixture(text, d)
}

// The same behind a tab.
fn form_field(text: &[u8], c: Cursor) -> Scan<Law>
    ensures { got_law text.now result ≡ field form_at (drop c.at text.now) }
{
    let d = fields::byte(text, c, Sign::TAB)?;
    form(text, d)
}

// The distribution that stands behind a clock's number.
pub fn law_at(text: &[u8], c: Cursor) -> Scan<Law>
    ensures { got_law text.now result ≡ law_at (drop c.at text.now) }
{
    let (d, law) = form_field(text, c)?;
    if draw::is_lawful(law) {
        Ok((d, law))
    } else {
        Err(c)
    }
}

// The line of clock x: where the next line begins, and where its distribution stands.
fn line_of(text: &[u8], x: u64, c: Cursor) -> Scan<Cursor>
    ensures { LineGives x text.now c.at result }
{
    let (begin, n) = fields::number(text, c)?;
    if n == x {
        let (end, _) = law_at(text, begin)?;
        Ok((end, begin))
    } else {
        Err(c)
    }
}

// A place in the text, and the number of the line there.
#[derive(Clone, Copy)]
pub struct Spot {
    pub at: usize,
    pub line: usize,
}

// The turn of clock x of those in d: where the next line is looked for, and where its distribution stands. A clock that is not declared has no line, and no distribution stands at the text's end.
fn turn_of(text: &[u8], d: u64, x: u64, p: Spot) -> Result<(Spot, usize), Cursor>
    requires { (x < max_clocks) × (p.line ≤ max_clocks) }
    ensures { TurnGives d x text.now p result }
{
    if !sets::has(d, x) {
        return Ok((p, text.len()));
    }
    let (end, begin) = line_of(text, x, Cursor { at: p.at })?;
    Ok((
        Spot {
            at: end.at,
            line: p.line + 1,
        },
        begin.at,
    ))
}

// 49 at a line.
fn bad_line(line: usize) -> Refusal
    ensures { result ≡ bad_line line }
{
    Refusal {
        number: 49,
        place: Place::Line(line),
    }
}

// The whole file in one pass: 49, or where the distribution of each clock stands, into the places that the caller lends; d are the declared clocks.
pub fn scan(text: &[u8], d: u64, at: &mut [usize; Model::CLOCKS]) -> Result<(), Refusal>
    requires { length at.old ≡ max_clocks }
    ensures { Scans (laws_of d text.now) text.now result at.new }
{
    let mut p = Spot { at: 0, line: 1 };
    for x in 0..Model::CLOCKS {
        let Ok((next, begin)) = turn_of(text, d, x as u64, p) else {
            return Err(bad_line(p.line));
        };
        at[x] = begin;
        p = next;
    }
    if p.at < text.len() {
        return Err(bad_line(p.line));
    }
    Ok(())
}
