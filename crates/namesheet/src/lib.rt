// The `name` lines of a text of the second form: each is judged, and 64 places say where the names stand.
#![tactic(auto)]

ghost use Rattle.std.specs.Prelude.{◌≡◌, true, List, ℕ, ◌+◌, ◌≤◌, ◌<◌, length, drop, get_or};
ghost use Rattle.answer.specs.Limits.{max_actions, max_bytes};
ghost use Rattle.named.specs.ReadNamed.{unused};
ghost use Rattle.namelaws.specs.Sheets.{sheet_of, begins_name, number_in, name_fault, name_told, SoFar, line_at, unused_at, line_after};
ghost use Rattle.namesheet.specs.Sheets.{NameAs, Sheets};

use answer::{Model, Place, Refusal};
use fields::Cursor;
use namelines::NamedLine;

// A `name` line that is faultless: its action, where the name begins, and where the next line does.
#[derive(Clone, Copy)]
pub struct NameLine {
    pub number: u64,
    pub place: usize,
    pub next: usize,
}

// Where the `name` lines end, and the number of the line there.
#[derive(Clone, Copy)]
pub struct SheetEnd {
    pub at: usize,
    pub line: usize,
}

fn begins_name(text: &[u8], at: usize) -> bool
    ensures { result ≡ begins_name (drop at text.now) }
{
    fields::word(text, Cursor { at }, b"name").is_ok()
}

fn number_in(l: NamedLine) -> u64
    ensures { result ≡ number_in l }
{
    match l {
        NamedLine::Name { number } => number,
        _ => 0,
    }
}

// 4, 6 or 43 of a `name` line before any `comp`; 0 where it has none. The numbers before it are below `low`.
fn name_fault(text: &[u8], places: &[usize; Model::ACTIONS], low: u64, number: u64, at: usize) -> u8
    requires { length places.now ≡ max_actions }
    ensures { result ≡ name_fault text.now places.now low number at }
{
    if Model::ACTIONS as u64 <= number {
        return 4;
    }
    if number < low {
        return 6;
    }
    if !namefields::good_name(text, at) {
        return 43;
    }
    if namefields::action_named(text, places, at).is_some() {
        return 43;
    }
    0
}

// The number is the first value of its line, and stands in column 6.
fn name_refusal(number: u8, n: usize) -> Refusal
    ensures { result ≡ name_told number n }
{
    if number == 4 {
        return Refusal {
            number,
            place: Place::Spot { line: n, column: 6 },
        };
    }
    Refusal {
        number,
        place: Place::Line(n),
    }
}

// The `name` line at a place, which is line n.
fn name_at(
    text: &[u8],
    places: &[usize; Model::ACTIONS],
    low: u64,
    at: usize,
    n: usize,
) -> Result<NameLine, Refusal>
    requires { SoFar text.now places.now low × (begins_name (drop at text.now) ≡ true) }
    ensures { NameAs text.now places.now low at n result }
{
    match namelines::line_at(text, Cursor { at }) {
        Ok((next, line)) => {
            let number = number_in(line);
            let place = at + namelines::before_name(line);
            let fault = name_fault(text, places, low, number, place);
            if fault != 0 {
                return Err(name_refusal(fault, n));
            }
            Ok(NameLine {
                number,
                place,
                next: next.at,
            })
        }
        Err(stop) => Err(Refusal {
            number: 2,
            place: Place::Spot {
                line: n,
                column: columns::column_at(text, at, stop),
            },
        }),
    }
}

// The `name` lines from a place on, the first of which is line 2.
pub fn read_names(
    text: &[u8],
    from: usize,
    places: &mut [usize; Model::ACTIONS],
) -> Result<SheetEnd, Refusal>
    requires { (from ≤ length text.now) × (length places.old ≡ max_actions) × ((a : ℕ) → get_or places.old a 0 ≡ 0) × (length text.now ≤ max_bytes) }
    ensures { Sheets text.now from places.new result }
{
    let mut at = from;
    let mut n = 2;
    let mut low = 0;
    while begins_name(text, at) {
        let l = name_at(text, places, low, at, n)?;
        places[l.number as usize] = l.place;
        low = l.number + 1;
        at = l.next;
        n += 1;
    }
    Ok(SheetEnd { at, line: n })
}

// A name stands for this action, and no `act` line declares it.
fn is_unused(place: usize, declared: u64, a: u64) -> bool
    requires { a < max_actions }
    ensures { result ≡ unused_at declared a place }
{
    if place == 0 {
        return false;
    }
    !sets::has(declared, a)
}

fn line_after(place: usize, line: usize) -> usize
    requires { line ≤ max_actions + 2 }
    ensures { result ≡ line_after place line }
{
    if place == 0 { line } else { line + 1 }
}

// The first `name` line whose action is not declared; 0 where there is none. The first of all is line 2.
pub fn first_unused(places: &[usize; Model::ACTIONS], declared: u64) -> usize
    requires { length places.now ≡ max_actions }
    ensures { (t : List ℕ) → unused declared (sheet_of t places.now) ≡ line_at result }
{
    let mut a = 0;
    let mut line = 2;
    while a < Model::ACTIONS {
        let place = places[a];
        if is_unused(place, declared, a as u64) {
            return line;
        }
        line = line_after(place, line);
        a += 1;
    }
    0
}
