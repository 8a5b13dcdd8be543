// The second pass over a text that is known to be good: each line is taken into a lent table.
#![tactic(auto)]

ghost use Rattle.std.specs.Prelude.{◌≡◌, ◌++◌, ℕ, ◌≤◌, length, drop};
ghost use Rattle.answer.specs.Told.{answered};
ghost use Rattle.model.specs.Model.{Model as TheModel};
ghost use Rattle.model.specs.Reading.{read_of};
ghost use Rattle.layout.specs.Layout.{image_words};
ghost use Rattle.layout.specs.Image.{image_of};
ghost use Rattle.intake.specs.Change.{set_word, Change, Fits};

use fields::{Cursor, Kind};
use judge::Progress;
use lines::Line;

// The word of a block that an `act` line of this kind changes.
fn set_word(kind: Kind) -> usize
    ensures { result ≡ set_word kind }
{
    match kind {
        Kind::In => layout::INS,
        Kind::Out => layout::OUTS,
        Kind::Uin => layout::UINS,
        Kind::Uout => layout::UOUTS,
    }
}

// A faultless line taken into the table; p tells of the lines before it.
fn take_in(table: &mut [u64], p: Progress, l: Line)
    requires { Fits table.old p l }
    ensures { Change table.old p l table.new }
{
    match l {
        Line::Comp { states, start } => {
            reading::put_comp(table, p.components, states, start, p.rows);
        }
        Line::Act { action, kind } => {
            let at = 1 + layout::BLOCK * (p.components - 1);
            reading::add_member(table, at + set_word(kind), action);
        }
        Line::Clk { clock, set } => {
            let at = 1 + layout::BLOCK * (p.components - 1);
            reading::add_member(table, at + layout::CLOCKS, clock);
            if set == 1 {
                reading::add_member(table, at + layout::STARTED, clock);
            }
        }
        Line::Row {
            from,
            guard,
            action,
            resets,
            target,
        } => {
            let g = judge::guard_number(guard);
            reading::put_row(
                table,
                p.components - 1,
                p.states,
                p.rows,
                from,
                action,
                g,
                resets.set,
                target,
            );
        }
    }
}

// Every line in turn. No `else` way is ever gone: there the text would be refused.
pub fn build(text: &[u8], table: &mut [u64])
    requires { (image_words ≤ length table.old) × ((m : TheModel) × (read_of text.now ≡ answered m)) }
    ensures { (m : TheModel) × (read_of text.now ≡ answered m) × (table.new ≡ image_of m ++ drop image_words table.old) }
{
    reading::fill_words(table, 0, layout::WORDS, 0);
    let mut p = judge::at_start();
    let mut at = 0;
    while at < text.len() {
        let Ok((next, line)) = lines::line_at(text, Cursor { at }) else {
            return;
        };
        let Ok(q) = judge::step(p, line) else {
            return;
        };
        take_in(table, p, line);
        p = q;
        at = next.at;
    }
}
