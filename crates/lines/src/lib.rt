// Lines of a text: the shape of a whole line, one scan from left to right, which answers the line or where it stopped; no value is judged here.
#![tactic(auto)]

ghost use Rattle.std.specs.Prelude.{◌≡◌, drop};
ghost use Rattle.model.specs.Text.{lf};
ghost use Rattle.model.specs.Reading.{got, then, the_byte, field, guard_or_dash, kind as kind_scan, numbers_or_dash, exactly, comp_entry, act_entry, clk_entry, row_entry, entry};
ghost use Rattle.fields.specs.Fields.{got_guard, got_kind};
ghost use Rattle.fields.specs.Resets.{got_resets, valued, summary};
ghost use Rattle.lines.specs.Lines.{line_of, got_line, row_end, stop_of, no_word};

use fields::{Cursor, Guard, Kind, Resets, Scan, Sign};

#[derive(Clone, Copy)]
pub enum Line {
    Comp {
        states: u64,
        start: u64,
    },
    Act {
        action: u64,
        kind: Kind,
    },
    Clk {
        clock: u64,
        set: u64,
    },
    Row {
        from: u64,
        guard: Guard,
        action: u64,
        resets: Resets,
        target: u64,
    },
}

// A field stands behind a tab.
pub fn guard_field(text: &[u8], c: Cursor) -> Scan<Guard>
    ensures { got_guard text.now result ≡ field guard_or_dash (drop c.at text.now) }
{
    let d = fields::byte(text, c, Sign::TAB)?;
    fields::guard_of(text, d)
}

pub fn kind_field(text: &[u8], c: Cursor) -> Scan<Kind>
    ensures { got_kind text.now result ≡ field kind_scan (drop c.at text.now) }
{
    let d = fields::byte(text, c, Sign::TAB)?;
    fields::kind_of(text, d)
}

pub fn resets_field(text: &[u8], c: Cursor) -> Scan<Resets>
    ensures { got_resets text.now result ≡ valued summary (field numbers_or_dash (drop c.at text.now)) }
{
    let d = fields::byte(text, c, Sign::TAB)?;
    fields::resets_of(text, d)
}

// "Each line ends in LF".
fn line_end(text: &[u8], c: Cursor, l: Line) -> Scan<Line>
    ensures { got_line text.now result ≡ then (the_byte lf (drop c.at text.now)) (λ _ cs. got l cs) }
{
    let d = fields::byte(text, c, Sign::LF)?;
    Ok((d, l))
}

fn comp_line(text: &[u8], c: Cursor) -> Scan<Line>
    ensures { got_line text.now result ≡ valued line_of (comp_entry (drop c.at text.now)) }
{
    let (c1, states) = fields::number_field(text, c)?;
    let (c2, start) = fields::number_field(text, c1)?;
    line_end(text, c2, Line::Comp { states, start })
}

fn act_line(text: &[u8], c: Cursor) -> Scan<Line>
    ensures { got_line text.now result ≡ valued line_of (act_entry (drop c.at text.now)) }
{
    let (c1, action) = fields::number_field(text, c)?;
    let (c2, kind) = kind_field(text, c1)?;
    line_end(text, c2, Line::Act { action, kind })
}

fn clk_line(text: &[u8], c: Cursor) -> Scan<Line>
    ensures { got_line text.now result ≡ valued line_of (clk_entry (drop c.at text.now)) }
{
    let (c1, clock) = fields::number_field(text, c)?;
    let (c2, set) = fields::number_field(text, c1)?;
    line_end(text, c2, Line::Clk { clock, set })
}

// A row behind its action: resets, target, LF.
fn row_end(text: &[u8], c: Cursor, from: u64, guard: Guard, action: u64) -> Scan<Line>
    ensures { got_line text.now result ≡ row_end from guard action (drop c.at text.now) }
{
    let (c4, resets) = resets_field(text, c)?;
    let (c5, target) = fields::number_field(text, c4)?;
    line_end(
        text,
        c5,
        Line::Row {
            from,
            guard,
            action,
            resets,
            target,
        },
    )
}

fn row_line(text: &[u8], c: Cursor) -> Scan<Line>
    ensures { got_line text.now result ≡ valued line_of (row_entry (drop c.at text.now)) }
{
    let (c1, from) = fields::number_field(text, c)?;
    let (c2, guard) = guard_field(text, c1)?;
    let (c3, action) = fields::number_field(text, c2)?;
    row_end(text, c3, from, guard, action)
}

// Where one word stops, or what is behind it.
pub fn stop_of(text: &[u8], c: Cursor, w: &[u8]) -> Cursor
    ensures { drop result.at text.now ≡ stop_of (exactly w.now (drop c.at text.now)) }
{
    match fields::word(text, c, w) {
        Ok(d) => d,
        Err(e) => e,
    }
}

// Where no first word stands, the one that got furthest tells where the line stops. The words are looked for again here, and not kept
// while a line is read: good lines never come here.
fn no_word(text: &[u8], c: Cursor) -> Cursor
    ensures { drop result.at text.now ≡ no_word (drop c.at text.now) }
{
    let co = stop_of(text, c, b"comp");
    let ac = stop_of(text, c, b"act");
    let cl = stop_of(text, c, b"clk");
    let ro = stop_of(text, c, b"row");
    fields::further(co, fields::further(ac, fields::further(cl, ro)))
}

// One line, with its LF: its first word tells what is behind it.
pub fn line_at(text: &[u8], c: Cursor) -> Scan<Line>
    ensures { got_line text.now result ≡ valued line_of (entry (drop c.at text.now)) }
{
    if let Ok(d) = fields::word(text, c, b"comp") {
        return comp_line(text, d);
    }
    if let Ok(d) = fields::word(text, c, b"act") {
        return act_line(text, d);
    }
    if let Ok(d) = fields::word(text, c, b"clk") {
        return clk_line(text, d);
    }
    if let Ok(d) = fields::word(text, c, b"row") {
        return row_line(text, d);
    }
    Err(no_word(text, c))
}
