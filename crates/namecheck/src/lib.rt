// A text of the second form, checked before anything is written: 1, the `form` line, the `name` lines, the other lines judged as old lines, 8, and unused names.
#![tactic(auto)]

ghost use Rattle.std.specs.Prelude.{◌≡◌, ℕ, ◌≤◌, length, get_or};
ghost use Rattle.std.proofs.Math.Option.{some};
ghost use Rattle.answer.specs.Told.{says_checked, done_of};
ghost use Rattle.answer.specs.Limits.{max_actions, max_bytes};
ghost use Rattle.named.specs.ReadNamed.{begun, read_named};
ghost use Rattle.namelaws.specs.Sheets.{sheet_of, with_sheet, onward, SheetIs};
ghost use Rattle.namecheck.specs.NameCheck.{ChecksAs};

use answer::{Model, Place, Refusal};
use fields::Cursor;

// `form`, tab, `2`, LF.
const FORM: usize = 7;

// The lines behind the `name` lines, from line n on, then 8 and 44.
fn check_body(
    text: &[u8],
    places: &[usize; Model::ACTIONS],
    from: usize,
    first: usize,
) -> Result<(), Refusal>
    requires { SheetIs text.now 7 places.now from first × (length text.now ≤ max_bytes) }
    ensures { says_checked result ≡ some (done_of (onward text.now (with_sheet (sheet_of text.now places.now)) from first)) }
{
    let mut p = judge::at_start();
    let mut at = from;
    let mut n = first;
    let mut declared: u64 = 0;
    while at < text.len() {
        match namelines::line_at(text, Cursor { at }) {
            Ok((next, line)) => {
                let before = namelines::before_name(line);
                let found = namefields::action_named(text, places, at + before);
                match namejudge::judged(p, line, found) {
                    Ok(q) => p = q,
                    Err(number) => {
                        let a = namejudge::allowed(p, line, found, number);
                        let column = namejudge::column_of(text, at, a, line, found);
                        let place = survey::place_of(n, number, column);
                        return Err(Refusal { number, place });
                    }
                }
                declared = sets::union(declared, namejudge::declares(line, found));
                at = next.at;
                n += 1;
            }
            Err(stop) => {
                let column = columns::column_at(text, at, stop);
                return Err(Refusal {
                    number: 2,
                    place: Place::Spot { line: n, column },
                });
            }
        }
    }
    if p.components == 0 {
        return Err(Refusal {
            number: 8,
            place: Place::Whole,
        });
    }
    let line = namesheet::first_unused(places, declared);
    if line != 0 {
        return Err(Refusal {
            number: 44,
            place: Place::Line(line),
        });
    }
    Ok(())
}

// Everything behind the `form` line.
fn behind_form(text: &[u8], places: &mut [usize; Model::ACTIONS]) -> Result<usize, Refusal>
    requires { (7 ≤ length text.now) × (length places.old ≡ max_actions) × ((a : ℕ) → get_or places.old a 0 ≡ 0) × (length text.now ≤ max_bytes) }
    ensures { ChecksAs text.now (onward text.now begun 7 2) places.new result }
{
    let end = namesheet::read_names(text, FORM, places)?;
    check_body(text, places, end.at, end.line)?;
    Ok(end.at)
}

// 1, then 8 for the empty text, then line 1, then what is behind it. The places are 0 at first, and hold where each name stands where the text is good.
pub fn check_named(text: &[u8], places: &mut [usize; Model::ACTIONS]) -> Result<usize, Refusal>
    requires { (length places.old ≡ max_actions) × ((a : ℕ) → get_or places.old a 0 ≡ 0) }
    ensures { ChecksAs text.now (read_named text.now) places.new result }
{
    if Model::BYTES < text.len() {
        return Err(Refusal {
            number: 1,
            place: Place::Whole,
        });
    }
    if text.len() == 0 {
        return Err(Refusal {
            number: 8,
            place: Place::Whole,
        });
    }
    match fields::word(text, Cursor { at: 0 }, b"form\t2\n") {
        Ok(_) => behind_form(text, places),
        Err(stop) => {
            let column = columns::column_at(text, 0, stop);
            Err(Refusal {
                number: 2,
                place: Place::Spot { line: 1, column },
            })
        }
    }
}
