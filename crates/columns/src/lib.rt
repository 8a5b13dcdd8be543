// The column that 2, 4 and 5 carry (paper 02, request 2). It is worked out where a text is refused, and nowhere else: a line that is taken in pays nothing for it.
#![tactic(auto)]

ghost use Rattle.std.specs.Prelude.{◌≡◌, ◌≤◌, length, drop};
ghost use Rattle.model.specs.Reading.{stop_column};
ghost use Rattle.columns.specs.Columns.{member_of, guard_out, wide_guard, numbers_out, resets_out, row_column, value_column};

use answer::Model;
use fields::{Cursor, Guard, Sign};
use lines::Line;

// What a line's values may be: how many states there are, which actions and which clocks.
#[derive(Drop)]
pub struct Allowed {
    pub states: u64,
    pub acts: u64,
    pub clocks: u64,
}

// The values of a row that stand before its resets.
#[derive(Drop)]
struct Front {
    from: u64,
    guard: Guard,
    action: u64,
}

// "A set .. is one 64-bit number".
const WORD: u64 = 64;

// The column of a byte of the line that begins at a place; no further than one past the end.
pub fn column_at(text: &[u8], at: usize, stop: Cursor) -> usize
    requires { at ≤ length text.now }
    ensures { result ≡ stop_column (drop at text.now) (drop stop.at text.now) }
{
    let end = stop.at;
    if end <= at {
        return 1;
    }
    if text.len() <= end {
        return text.len() - at + 1;
    }
    end - at + 1
}

pub fn is_in(set: u64, n: u64) -> bool
    ensures { result ≡ member_of set n }
{
    n < WORD && sets::has(set, n)
}

fn guard_out(clocks: u64, g: Guard) -> bool
    ensures { result ≡ guard_out clocks g }
{
    match g {
        Guard::Dash => false,
        Guard::Clock(x) => !is_in(clocks, x),
    }
}

// How wide a guard stands in a line.
pub fn guard_width(g: Guard) -> usize
    ensures { result ≡ wide_guard g }
{
    match g {
        Guard::Dash => 1,
        Guard::Clock(x) => measure::width(x),
    }
}

// The first of numbers joined by commas that is no member, or what stands behind the byte after the last.
fn numbers_out(text: &[u8], at: usize, set: u64) -> Cursor
    ensures { drop result.at text.now
        ≡ numbers_out set (length (drop at text.now)) (drop at text.now) }
{
    let mut i = at;
    while i < text.len() {
        let Ok((next, n)) = fields::number(text, Cursor { at: i }) else {
            return Cursor { at: i };
        };
        if !is_in(set, n) {
            return Cursor { at: i };
        }
        let end = next.at;
        if text.len() <= end {
            return Cursor { at: end };
        }
        if text[end] != Sign::COMMA {
            return Cursor { at: end + 1 };
        }
        i = end + 1;
    }
    Cursor { at: i }
}

// The same of a resets field, which may be `-`.
fn resets_out(text: &[u8], at: usize, set: u64) -> Cursor
    ensures { drop result.at text.now ≡ resets_out set (drop at text.now) }
{
    if text.len() <= at {
        return Cursor { at };
    }
    if text[at] == Sign::DASH {
        return Cursor { at: at + 2 };
    }
    numbers_out(text, at, set)
}

// The first value of a row that may not be, from left to right; where none is found before it, the target.
fn row_column(text: &[u8], at: usize, a: Allowed, row: Front) -> usize
    requires { at ≤ length text.now }
    ensures { result ≡ row_column text.now at a row.from row.guard row.action }
{
    if a.states <= row.from {
        return 5;
    }
    let g = 6 + measure::width(row.from);
    let guard = row.guard;
    if guard_out(a.clocks, guard) {
        return g;
    }
    let n = g + 1 + guard_width(guard);
    if !is_in(a.acts, row.action) {
        return n;
    }
    let resets = n + measure::width(row.action);
    let first = resets_out(text, at + resets, a.clocks);
    column_at(text, at, first)
}

// 4 and 5: the first value of a line that may not be; where none is found before it, the last.
pub fn value_column(text: &[u8], at: usize, a: Allowed, l: Line) -> usize
    requires { at ≤ length text.now }
    ensures { result ≡ value_column text.now at a l }
{
    match l {
        Line::Comp { states, start: _ } => {
            if states < 1 || (Model::STATES as u64) < states {
                return 6;
            }
            7 + measure::width(states)
        }
        Line::Act { action: _, kind: _ } => 5,
        Line::Clk { clock, set: _ } => {
            if !is_in(a.clocks, clock) {
                return 5;
            }
            6 + measure::width(clock)
        }
        Line::Row {
            from,
            guard,
            action,
            resets: _,
            target: _,
        } => row_column(
            text,
            at,
            a,
            Front {
                from,
                guard,
                action,
            },
        ),
    }
}
