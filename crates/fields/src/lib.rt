// Fields of a text: each scan takes bytes off at a cursor and answers a value with the cursor behind it, or where it stopped: at the first byte that could not stand there.
#![tactic(auto)]

ghost use Rattle.std.specs.Prelude.{◌≡◌, List, ℕ, ◌-◌, ◌≤◌, ◌<◌, length, drop};
ghost use Rattle.model.specs.Reading.{shorter, exactly, the_byte, is_digit, more_digits, number as number_of, guard_or_dash, kind as kind_scan, more_numbers, numbers_or_dash, field};
ghost use Rattle.fields.specs.Fields.{past, taken, got_number, got_guard, got_kind};
ghost use Rattle.fields.specs.Resets.{got_resets, valued, first, with, with_all, summary};

use answer::Model;

#[derive(Clone, Copy)]
pub struct Cursor {
    pub at: usize,
}

// The bytes of the text's signs.
#[derive(Drop)]
pub struct Sign {}

impl Sign {
    pub const TAB: u8 = 9;

    pub const LF: u8 = 10;

    pub const COMMA: u8 = 44;

    pub const DASH: u8 = 45;

    pub const ZERO: u8 = 48;

    pub const NINE: u8 = 57;
}

// "Numbers are decimal, 1 to 5 digits".
pub const DIGITS: usize = 5;

// What a scan answers: the cursor behind what it took, with its value, or the cursor at which it stopped.
pub type Scan<T> = Result<(Cursor, T), Cursor>;

// "guard (a clock or `-`)".
#[derive(Clone, Copy)]
pub enum Guard {
    Dash,
    Clock(u64),
}

// "`in`, `out`, `uin` or `uout`".
#[derive(Clone, Copy)]
pub enum Kind {
    In,
    Out,
    Uin,
    Uout,
}

// What reading needs of the numbers of a resets field: that all of them are clocks, that they ascend, the last one, and the set.
#[derive(Clone, Copy)]
pub struct Resets {
    pub clocks: bool,
    pub ascend: bool,
    pub last: u64,
    pub set: u64,
}

pub fn byte(text: &[u8], c: Cursor, b: u8) -> Result<Cursor, Cursor>
    ensures { past text.now result ≡ the_byte b (drop c.at text.now) }
{
    let at = c.at;
    if at < text.len() {
        if text[at] == b {
            return Ok(Cursor { at: at + 1 });
        }
    }
    Err(c)
}

pub fn word(text: &[u8], c: Cursor, w: &[u8]) -> Result<Cursor, Cursor>
    ensures { past text.now result ≡ exactly w.now (drop c.at text.now) }
{
    let mut at = c.at;
    for b in w {
        if text.len() <= at || *b != text[at] {
            return Err(Cursor { at });
        }
        at += 1;
    }
    Ok(Cursor { at })
}

pub fn is_digit(b: u8) -> bool
    ensures { result ≡ is_digit b }
{
    Sign::ZERO <= b && b < Sign::ZERO + 10
}

// The digits behind the first of a number that has no more than `most`.
pub fn more_digits(text: &[u8], first: u64, c: Cursor, most: usize) -> (Cursor, u64)
    requires { (first < 10) × (1 ≤ most) × (most ≤ 19) }
    ensures { taken text.now result ≡ more_digits (most - 1) first (drop c.at text.now) }
{
    let mut n = first;
    let mut at = c.at;
    for k in 1..most {
        if text.len() <= at {
            return (Cursor { at }, n);
        }
        let b = text[at];
        if !is_digit(b) {
            return (Cursor { at }, n);
        }
        n = n * 10 + (b - Sign::ZERO) as u64;
        at += 1;
    }
    (Cursor { at }, n)
}

pub fn number(text: &[u8], c: Cursor) -> Scan<u64>
    ensures { got_number text.now result ≡ number_of (drop c.at text.now) }
{
    let at = c.at;
    if text.len() <= at {
        return Err(c);
    }
    let b = text[at];
    if !is_digit(b) {
        return Err(c);
    }
    if b == Sign::ZERO {
        return Ok((Cursor { at: at + 1 }, 0));
    }
    Ok(more_digits(text, (b - Sign::ZERO) as u64, Cursor { at: at + 1 }, DIGITS))
}

// A number behind a tab.
pub fn number_field(text: &[u8], c: Cursor) -> Scan<u64>
    ensures { got_number text.now result ≡ field number_of (drop c.at text.now) }
{
    let d = byte(text, c, Sign::TAB)?;
    number(text, d)
}

pub fn guard_of(text: &[u8], c: Cursor) -> Scan<Guard>
    ensures { got_guard text.now result ≡ guard_or_dash (drop c.at text.now) }
{
    if let Ok(d) = byte(text, c, Sign::DASH) {
        return Ok((d, Guard::Dash));
    }
    let (end, n) = number(text, c)?;
    Ok((end, Guard::Clock(n)))
}

// Of two places where scans of the same bytes stopped, the one further on.
pub fn further(a: Cursor, b: Cursor) -> Cursor
    ensures { (t : List ℕ) → drop result.at t ≡ shorter (drop a.at t) (drop b.at t) }
{
    if a.at < b.at { b } else { a }
}

// Where none of the four words stands, the one that got furthest tells where it stops.
pub fn kind_of(text: &[u8], c: Cursor) -> Scan<Kind>
    ensures { got_kind text.now result ≡ kind_scan (drop c.at text.now) }
{
    match word(text, c, b"in") {
        Ok(d) => Ok((d, Kind::In)),
        Err(i) => match word(text, c, b"out") {
            Ok(d) => Ok((d, Kind::Out)),
            Err(o) => match word(text, c, b"uin") {
                Ok(d) => Ok((d, Kind::Uin)),
                Err(ui) => match word(text, c, b"uout") {
                    Ok(d) => Ok((d, Kind::Uout)),
                    Err(uo) => Err(further(i, further(o, further(ui, uo)))),
                },
            },
        },
    }
}

fn first_reset(n: u64) -> Resets
    ensures { result ≡ first n }
{
    if n < Model::CLOCKS as u64 {
        Resets {
            clocks: true,
            ascend: true,
            last: n,
            set: sets::single(n),
        }
    } else {
        Resets {
            clocks: false,
            ascend: true,
            last: n,
            set: 0,
        }
    }
}

fn with_reset(s: Resets, n: u64) -> Resets
    ensures { result ≡ with s n }
{
    let ascend = s.ascend && s.last < n;
    if n < Model::CLOCKS as u64 {
        Resets {
            clocks: s.clocks,
            ascend,
            last: n,
            set: sets::union(s.set, sets::single(n)),
        }
    } else {
        Resets {
            clocks: false,
            ascend,
            last: n,
            set: s.set,
        }
    }
}

// Further numbers, each behind a comma.
fn more_resets(text: &[u8], s: Resets, c: Cursor) -> Scan<Resets>
    ensures { got_resets text.now result
        ≡ valued (with_all s) (more_numbers (length (drop c.at text.now)) (drop c.at text.now)) }
{
    let mut sum = s;
    let mut at = c.at;
    while at < text.len() {
        if text[at] != Sign::COMMA {
            return Ok((Cursor { at }, sum));
        }
        let (next, n) = number(text, Cursor { at: at + 1 })?;
        sum = with_reset(sum, n);
        at = next.at;
    }
    Ok((Cursor { at }, sum))
}

pub fn resets_of(text: &[u8], c: Cursor) -> Scan<Resets>
    ensures { got_resets text.now result ≡ valued summary (numbers_or_dash (drop c.at text.now)) }
{
    if let Ok(d) = byte(text, c, Sign::DASH) {
        return Ok((
            d,
            Resets {
                clocks: true,
                ascend: true,
                last: 0,
                set: 0,
            },
        ));
    }
    let (end, n) = number(text, c)?;
    more_resets(text, first_reset(n), end)
}
