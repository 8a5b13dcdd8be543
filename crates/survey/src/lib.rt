// The whole text is checked before anything is written: 1, then the lines in file order, then 8.
#![tactic(auto)]

ghost use Rattle.std.specs.Prelude.{◌≡◌, ◌≤◌, length, drop};
ghost use Rattle.std.proofs.Math.Option.{some};
ghost use Rattle.answer.specs.Told.{says_checked, done_of};
ghost use Rattle.model.specs.Reading.{entry, lines_from, at_start, read_of, stop_column};
ghost use Rattle.fields.specs.Resets.{valued};
ghost use Rattle.lines.specs.Lines.{line_of};
ghost use Rattle.judge.specs.Judged.{number_of};
ghost use Rattle.survey.specs.Places.{allowed_of, place_of, column_in, shapeless, faulty};

use answer::{Model, Place, Refusal};
use columns::Allowed;
use fields::Cursor;
use judge::{Fault, Progress};

// Every action or clock that there is, as a set.
const ALL: u64 = 18446744073709551615;

// What a line's values may be: for 4 every action and clock that there is, else those of the component.
pub fn allowed(p: Progress, number: u8) -> Allowed
    ensures { result ≡ allowed_of p number }
{
    if number == 4 {
        return Allowed {
            states: p.states,
            acts: ALL,
            clocks: ALL,
        };
    }
    Allowed {
        states: p.states,
        acts: p.acts,
        clocks: p.clocks,
    }
}

// 4 and 5 give line and column; 3, 6 and 7 the line alone.
pub fn place_of(n: usize, number: u8, column: usize) -> Place
    ensures { result ≡ place_of n number column }
{
    if number == 4 || number == 5 {
        return Place::Spot { line: n, column };
    }
    Place::Line(n)
}

// The column of a fault in the line that begins at a place. The line is read again here and not kept while it is judged: good lines never come here.
fn fault_column(text: &[u8], at: usize, a: Allowed) -> usize
    requires { at ≤ length text.now }
    ensures { result ≡ column_in text.now at a (valued line_of (entry (drop at text.now))) }
{
    match lines::line_at(text, Cursor { at }) {
        Ok((_, line)) => columns::value_column(text, at, a, line),
        Err(_) => 0,
    }
}

// 2, with the column at which the line that begins at a place stopped.
fn shapeless(text: &[u8], at: usize, n: usize, stop: Cursor) -> Refusal
    requires { at ≤ length text.now }
    ensures { result ≡ shapeless n (stop_column (drop at text.now) (drop stop.at text.now)) }
{
    let column = columns::column_at(text, at, stop);
    Refusal {
        number: 2,
        place: Place::Spot { line: n, column },
    }
}

// 3 to 7, with the place of the fault.
fn faulty(text: &[u8], at: usize, n: usize, p: Progress, fault: Fault) -> Refusal
    requires { at ≤ length text.now }
    ensures { result ≡ faulty n (number_of fault) (column_in text.now at (allowed_of p (number_of fault)) (valued line_of (entry (drop at text.now)))) }
{
    let number = fault as u8;
    let column = fault_column(text, at, allowed(p, number));
    Refusal {
        number,
        place: place_of(n, number, column),
    }
}

fn check_lines(text: &[u8]) -> Result<(), Refusal>
    ensures { says_checked result ≡ some (done_of (lines_from (length text.now) 1 at_start text.now)) }
{
    let mut p = judge::at_start();
    let mut at = 0;
    let mut n = 1;
    while at < text.len() {
        match lines::line_at(text, Cursor { at }) {
            Ok((next, line)) => {
                match judge::step(p, line) {
                    Ok(q) => p = q,
                    Err(fault) => return Err(faulty(text, at, n, p, fault)),
                }
                at = next.at;
                n += 1;
            }
            Err(stop) => return Err(shapeless(text, at, n, stop)),
        }
    }
    if p.components == 0 {
        return Err(Refusal {
            number: 8,
            place: Place::Whole,
        });
    }
    Ok(())
}

pub fn check_text(text: &[u8]) -> Result<(), Refusal>
    ensures { says_checked result ≡ some (done_of (read_of text.now)) }
{
    if Model::BYTES < text.len() {
        return Err(Refusal {
            number: 1,
            place: Place::Whole,
        });
    }
    check_lines(text)
}
