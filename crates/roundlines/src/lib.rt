// The lines that the program `simulate` prints (paper 02, 4/13), put into a lent buffer at a place. Each function answers the place behind what it put.
#![tactic(auto)]

ghost use Rattle.std.specs.Prelude.{◌≡◌, ◌≤◌, ◌<◌, length, nat_abs};
ghost use Rattle.answer.specs.Limits.{max_components, max_clocks};
ghost use Rattle.answer.specs.State.{parts_of};
ghost use Rattle.print.specs.Put.{Room, Put};
ghost use Rattle.roundlines.specs.Lines.{long, signed, clock_with, clock_part, clock_lines, done_line, ended_text, fired_of, stood_of, round_line};

use answer::{Model, State};
use fields::Sign;

// A number of any length.
fn put_long(out: &mut [u8], at: usize, n: u64) -> usize
    requires { Room out.old at (long n) }
    ensures { Put out.old at (long n) out.new result }
{
    let mut digits = [0u8; 20];
    let k = io::decimal(n, &mut digits);
    print::put_word(out, at, &digits[..k])
}

// How far a value is from 0.
fn size(v: i64) -> u64
    ensures { result ≡ nat_abs v }
{
    if v < 0 {
        let y = -1 - v;
        return y as u64 + 1;
    }
    v as u64
}

// A number, behind `-` where it is below zero.
fn put_value(out: &mut [u8], at: usize, below: bool, n: u64) -> usize
    requires { Room out.old at (signed below n) }
    ensures { Put out.old at (signed below n) out.new result }
{
    if below {
        let next = print::put_byte(out, at, Sign::DASH);
        return put_long(out, next, n);
    }
    put_long(out, at, n)
}

// `clock`, number, value.
fn put_clock(out: &mut [u8], at: usize, x: u64, below: bool, n: u64) -> usize
    requires { Room out.old at (clock_with x (signed below n)) }
    ensures { Put out.old at (clock_with x (signed below n)) out.new result }
{
    let number = print::put_word(out, at, b"clock");
    let gap = print::put_behind(out, number, Sign::TAB, x);
    let value = print::put_byte(out, gap, Sign::TAB);
    let end = put_value(out, value, below, n);
    print::put_byte(out, end, Sign::LF)
}

// The line of a clock that is declared.
fn put_one(out: &mut [u8], at: usize, d: u64, values: &[i64], x: usize) -> usize
    requires { (x < max_clocks) × (length values.now ≡ max_clocks) × Room out.old at (clock_part d values.now x) }
    ensures { Put out.old at (clock_part d values.now x) out.new result }
{
    if !sets::has(d, x as u64) {
        return at;
    }
    let v = values[x];
    let n = size(v);
    put_clock(out, at, x as u64, v < 0, n)
}

fn put_clocks(out: &mut [u8], at: usize, d: u64, values: &[i64]) -> usize
    requires { (length values.now ≡ max_clocks) × Room out.old at (clock_lines d values.now) }
    ensures { Put out.old at (clock_lines d values.now) out.new result }
{
    let mut next = at;
    for x in 0..Model::CLOCKS {
        next = put_one(out, next, d, values, x);
    }
    next
}

// `done`, how many later rounds, and the state.
fn put_done(out: &mut [u8], at: usize, k: usize, x: State) -> usize
    requires { (x.count ≤ max_components) × Room out.old at (done_line k (parts_of x)) }
    ensures { Put out.old at (done_line k (parts_of x)) out.new result }
{
    let number = print::put_word(out, at, b"done");
    let gap = print::put_behind(out, number, Sign::TAB, k as u64);
    let state = print::put_byte(out, gap, Sign::TAB);
    let end = print::put_state(out, state, x);
    print::put_byte(out, end, Sign::LF)
}

// How a simulation ended that was not refused.
pub fn put_ended(out: &mut [u8], k: usize, x: State, d: u64, values: &[i64]) -> usize
    requires { (x.count ≤ max_components) × (length values.now ≡ max_clocks) × Room out.old 0 (ended_text k (parts_of x) d values.now) }
    ensures { Put out.old 0 (ended_text k (parts_of x) d values.now) out.new result }
{
    let next = put_done(out, 0, k, x);
    put_clocks(out, next, d, values)
}

// The first fields of a round's line: the round, the ticks since the last, and the action one up, or 0 where there is none.
fn put_fired(out: &mut [u8], at: usize, k: usize, ticks: u64, g: u64) -> usize
    requires { Room out.old at (fired_of k ticks g) }
    ensures { Put out.old at (fired_of k ticks g) out.new result }
{
    let gap = print::put_decimal(out, at, k as u64);
    let time = print::put_byte(out, gap, Sign::TAB);
    let tab = put_long(out, time, ticks);
    let action = print::put_byte(out, tab, Sign::TAB);
    print::put_guard(out, action, g)
}

// The last fields: the state, and the clocks set or reset.
fn put_stood(out: &mut [u8], at: usize, x: State, resets: u64) -> usize
    requires { (x.count ≤ max_components) × Room out.old at (stood_of (parts_of x) resets) }
    ensures { Put out.old at (stood_of (parts_of x) resets) out.new result }
{
    let state = print::put_byte(out, at, Sign::TAB);
    let gap = print::put_state(out, state, x);
    let set = print::put_byte(out, gap, Sign::TAB);
    let end = print::put_set(out, set, resets);
    print::put_byte(out, end, Sign::LF)
}

// A round's line.
pub fn put_round(out: &mut [u8], k: usize, ticks: u64, g: u64, x: State, resets: u64) -> usize
    requires { (x.count ≤ max_components) × Room out.old 0 (round_line k ticks g (parts_of x) resets) }
    ensures { Put out.old 0 (round_line k ticks g (parts_of x) resets) out.new result }
{
    let next = put_fired(out, 0, k, ticks, g);
    put_stood(out, next, x, resets)
}
