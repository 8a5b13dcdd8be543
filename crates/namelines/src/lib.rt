// Lines of the second form: the shape of a whole line, one scan from left to right, which answers the line or where it stopped. A name stays in the text: the line says where it stands.
#![tactic(auto)]

ghost use Rattle.std.specs.Prelude.{◌≡◌, ◌+◌, ◌≤◌, length, drop};
ghost use Rattle.model.specs.Text.{lf};
ghost use Rattle.model.specs.Reading.{got, then, the_byte, field};
ghost use Rattle.fields.specs.Fields.{past};
ghost use Rattle.fields.specs.Resets.{valued};
ghost use Rattle.named.specs.NamedText.{name_scan, form_end, name_end, act_end, row_end, line};
ghost use Rattle.namelines.specs.NamedLines.{code_of, got_named, row_tail, other_line, before_name};

use fields::{Cursor, Guard, Kind, Resets, Scan, Sign};
use lines::Line;

#[derive(Clone, Copy)]
pub enum NamedLine {
    Form,
    Name {
        number: u64,
    },
    Act {
        kind: Kind,
    },
    Row {
        from: u64,
        guard: Guard,
        resets: Resets,
        target: u64,
    },
    Plain {
        line: Line,
    },
}

// A name behind a tab: the cursor behind it.
fn name_field(text: &[u8], c: Cursor) -> Result<Cursor, Cursor>
    ensures { past text.now result ≡ then (field name_scan (drop c.at text.now)) (λ _ cs. got tt cs) }
{
    let d = fields::byte(text, c, Sign::TAB)?;
    let at = d.at;
    Ok(Cursor {
        at: namefields::name_end(text, at),
    })
}

// "Each line ends in LF".
fn line_end(text: &[u8], c: Cursor, l: NamedLine) -> Scan<NamedLine>
    ensures { got_named text.now result ≡ then (the_byte lf (drop c.at text.now)) (λ _ cs. got l cs) }
{
    let d = fields::byte(text, c, Sign::LF)?;
    Ok((d, l))
}

fn form_line(text: &[u8], c: Cursor) -> Scan<NamedLine>
    ensures { got_named text.now result ≡ valued code_of (form_end (drop c.at text.now)) }
{
    let d = fields::word(text, c, b"\t2\n")?;
    Ok((d, NamedLine::Form))
}

fn name_line(text: &[u8], c: Cursor) -> Scan<NamedLine>
    ensures { got_named text.now result ≡ valued code_of (name_end (drop c.at text.now)) }
{
    let (c1, number) = fields::number_field(text, c)?;
    let c2 = name_field(text, c1)?;
    line_end(text, c2, NamedLine::Name { number })
}

fn act_line(text: &[u8], c: Cursor) -> Scan<NamedLine>
    ensures { got_named text.now result ≡ valued code_of (act_end (drop c.at text.now)) }
{
    let c1 = name_field(text, c)?;
    let (c2, kind) = lines::kind_field(text, c1)?;
    line_end(text, c2, NamedLine::Act { kind })
}

// A row behind its name: resets, target, LF.
fn row_tail(text: &[u8], c: Cursor, from: u64, guard: Guard) -> Scan<NamedLine>
    ensures { got_named text.now result ≡ row_tail from guard (drop c.at text.now) }
{
    let (c4, resets) = lines::resets_field(text, c)?;
    let (c5, target) = fields::number_field(text, c4)?;
    line_end(
        text,
        c5,
        NamedLine::Row {
            from,
            guard,
            resets,
            target,
        },
    )
}

fn row_line(text: &[u8], c: Cursor) -> Scan<NamedLine>
    ensures { got_named text.now result ≡ valued code_of (row_end (drop c.at text.now)) }
{
    let (c1, from) = fields::number_field(text, c)?;
    let (c2, guard) = lines::guard_field(text, c1)?;
    let c3 = name_field(text, c2)?;
    row_tail(text, c3, from, guard)
}

// A `comp` or a `clk` line is as it was; where no first word stands, the one of all six that got furthest tells where the line stops.
fn other_line(text: &[u8], c: Cursor) -> Scan<NamedLine>
    ensures { got_named text.now result ≡ valued code_of (other_line (drop c.at text.now)) }
{
    match lines::line_at(text, c) {
        Ok((d, line)) => Ok((d, NamedLine::Plain { line })),
        Err(e) => {
            let fo = lines::stop_of(text, c, b"form");
            let na = lines::stop_of(text, c, b"name");
            Err(fields::further(e, fields::further(fo, na)))
        }
    }
}

// One line, with its LF: its first word tells what is behind it.
pub fn line_at(text: &[u8], c: Cursor) -> Scan<NamedLine>
    ensures { got_named text.now result ≡ valued code_of (line (drop c.at text.now)) }
{
    if let Ok(d) = fields::word(text, c, b"form") {
        return form_line(text, d);
    }
    if let Ok(d) = fields::word(text, c, b"name") {
        return name_line(text, d);
    }
    if let Ok(d) = fields::word(text, c, b"act") {
        return act_line(text, d);
    }
    if let Ok(d) = fields::word(text, c, b"row") {
        return row_line(text, d);
    }
    other_line(text, c)
}

// How many bytes of a line stand before its name.
pub fn before_name(l: NamedLine) -> usize
    ensures { result ≡ before_name l }
{
    match l {
        NamedLine::Form => 0,
        NamedLine::Name { number } => 6 + measure::width(number),
        NamedLine::Act { kind: _ } => 4,
        NamedLine::Row {
            from,
            guard,
            resets: _,
            target: _,
        } => 6 + measure::width(from) + columns::guard_width(guard),
        NamedLine::Plain { line: _ } => 0,
    }
}
