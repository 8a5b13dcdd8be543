// The lines that the program prints, put into a lent buffer at a place (paper 01, "The program and its example"). Each function answers the place behind what it put.
#![tactic(auto)]

ghost use Rattle.std.specs.Prelude.{[], ◌∷◌, ◌≤◌, length};
ghost use Rattle.answer.specs.Limits.{max_components};
ghost use Rattle.answer.specs.State.{parts_of};
ghost use Rattle.answer.specs.Told.{values_at};
ghost use Rattle.model.specs.Text.{joined};
ghost use Rattle.answering.specs.Report.{step_line, last_line};
ghost use Rattle.print.specs.Put.{Room, Put};
ghost use Rattle.tell.specs.Tell.{tail_of, verdict_word, gone_with, ends_with, refused_text};

use answer::{Place, Refusal, State};
use fields::Sign;

// The last fields of a line: the resets, and the state.
fn put_tail(out: &mut [u8], at: usize, resets: u64, x: State) -> usize
    requires { (x.count ≤ max_components) × Room out.old at (tail_of resets (parts_of x)) }
    ensures { Put out.old at (tail_of resets (parts_of x)) out.new result }
{
    let set = print::put_byte(out, at, Sign::TAB);
    let gap = print::put_set(out, set, resets);
    let state = print::put_byte(out, gap, Sign::TAB);
    let end = print::put_state(out, state, x);
    print::put_byte(out, end, Sign::LF)
}

// "Step lines: `step`, count, action, resets, state after".
pub fn put_step(out: &mut [u8], at: usize, n: usize, action: u64, resets: u64, x: State) -> usize
    requires { (x.count ≤ max_components) × Room out.old at (step_line n action (gone_with resets x)) }
    ensures { Put out.old at (step_line n action (gone_with resets x)) out.new result }
{
    let count = print::put_word(out, at, b"step");
    let act = print::put_behind(out, count, Sign::TAB, n as u64);
    let tail = print::put_behind(out, act, Sign::TAB, action);
    put_tail(out, tail, resets, x)
}

// "`stable` or `unsettled`".
fn put_verdict(out: &mut [u8], at: usize, stable: bool) -> usize
    requires { Room out.old at (verdict_word stable) }
    ensures { Put out.old at (verdict_word stable) out.new result }
{
    if stable {
        return print::put_word(out, at, b"stable");
    }
    print::put_word(out, at, b"unsettled")
}

// "Last line: `stable` or `unsettled`, steps, clocks reset, state".
pub fn put_last(
    out: &mut [u8],
    at: usize,
    stable: bool,
    steps: usize,
    resets: u64,
    x: State,
) -> usize
    requires { (x.count ≤ max_components) × Room out.old at (last_line (ends_with stable steps resets x)) }
    ensures { Put out.old at (last_line (ends_with stable steps resets x)) out.new result }
{
    let count = put_verdict(out, at, stable);
    let tail = print::put_behind(out, count, Sign::TAB, steps as u64);
    put_tail(out, tail, resets, x)
}

// Numbers, each but the first behind a comma.
fn put_numbers(out: &mut [u8], at: usize, first: u64, rest: &[u64]) -> usize
    requires { Room out.old at (joined (first ∷ rest.now)) }
    ensures { Put out.old at (joined (first ∷ rest.now)) out.new result }
{
    let mut next = print::put_decimal(out, at, first);
    for n in rest {
        next = print::put_behind(out, next, Sign::COMMA, *n);
    }
    next
}

// "place numbers joined by commas".
fn put_place(out: &mut [u8], at: usize, p: Place) -> usize
    requires { Room out.old at (joined (values_at p)) }
    ensures { Put out.old at (joined (values_at p)) out.new result }
{
    match p {
        Place::Whole => put_numbers(out, at, 0, &[]),
        Place::Line(n) => put_numbers(out, at, n as u64, &[]),
        Place::Row(n) => put_numbers(out, at, n as u64, &[]),
        Place::Bytes(n) => put_numbers(out, at, n as u64, &[]),
        Place::Index(n) => put_numbers(out, at, n as u64, &[]),
        Place::Clock(x) => put_numbers(out, at, x, &[]),
        Place::Component(i) => put_numbers(out, at, i as u64, &[]),
        Place::Cell {
            component,
            state,
            action,
        } => put_numbers(out, at, component as u64, &[state as u64, action]),
        Place::Clash {
            component,
            state,
            lower,
            higher,
        } => put_numbers(out, at, component as u64, &[state as u64, lower, higher]),
        Place::SharedAction {
            action,
            first,
            second,
        } => put_numbers(out, at, action, &[first as u64, second as u64]),
        Place::SharedClock {
            clock,
            first,
            second,
        } => put_numbers(out, at, clock, &[first as u64, second as u64]),
        Place::Spot { line, column } => put_numbers(out, at, line as u64, &[column as u64]),
        Place::Condition(n) => put_numbers(out, at, n as u64, &[]),
        Place::Action(a) => put_numbers(out, at, a, &[]),
    }
}

// "A refusal prints one line only: `refused`, number, place numbers joined by commas".
pub fn put_refused(out: &mut [u8], at: usize, r: Refusal) -> usize
    requires { Room out.old at (refused_text r) }
    ensures { Put out.old at (refused_text r) out.new result }
{
    let number = print::put_word(out, at, b"refused");
    let gap = print::put_behind(out, number, Sign::TAB, r.number as u64);
    let place = print::put_byte(out, gap, Sign::TAB);
    let end = put_place(out, place, r.place);
    print::put_byte(out, end, Sign::LF)
}
