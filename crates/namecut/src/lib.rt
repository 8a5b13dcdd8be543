// A good line with its name exchanged for its number is the old line, byte for byte. So a line is cut at its name, and its parts are copied.
#![tactic(auto)]

ghost use Rattle.std.specs.Prelude.{◌≡◌, ◌≤◌, ◌<◌, length, drop};
ghost use Rattle.answer.specs.Limits.{max_actions, max_bytes};
ghost use Rattle.model.specs.Reading.{got};
ghost use Rattle.fields.specs.Resets.{valued};
ghost use Rattle.named.specs.NamedText.{line};
ghost use Rattle.namelines.specs.NamedLines.{code_of};
ghost use Rattle.cutlaws.specs.Cutting.{HasName};
ghost use Rattle.namecut.specs.Cuts.{CutAs};

use answer::Model;
use fields::Cursor;
use namelines::NamedLine;

// A line that begins at a known place: the bytes up to `stop`, then the number of the action where there is one, then those from `go` to `next`.
#[derive(Clone, Copy)]
pub struct Cut {
    pub stop: usize,
    pub go: usize,
    pub next: usize,
    pub action: Option<u64>,
}

// A place, held within the text.
pub fn held(text: &[u8], at: usize) -> usize
    ensures { (drop result text.now ≡ drop at text.now) × (result ≤ length text.now) }
{
    at.min(text.len())
}

// A line with a name, which begins at `stop`.
fn at_name(
    text: &[u8],
    places: &[usize; Model::ACTIONS],
    at: usize,
    l: NamedLine,
    next: usize,
) -> Option<Cut>
    requires { (length places.now ≡ max_actions) × (valued code_of (line (drop at text.now)) ≡ got l (drop next text.now)) × HasName l × (at < length text.now) × (next ≤ length text.now) × (length text.now ≤ max_bytes) }
    ensures { CutAs text.now places.now at result }
{
    let stop = at + namelines::before_name(l);
    let action = namefields::action_named(text, places, stop)?;
    let go = namefields::name_end(text, stop);
    Some(Cut {
        stop,
        go,
        next,
        action: Some(action),
    })
}

// The line at a place, cut where its name stands; nothing where the line has no old line.
pub fn cut_at(text: &[u8], places: &[usize; Model::ACTIONS], at: usize) -> Option<Cut>
    requires { (length places.now ≡ max_actions) × (at < length text.now) × (length text.now ≤ max_bytes) }
    ensures { CutAs text.now places.now at result }
{
    match namelines::line_at(text, Cursor { at }) {
        Ok((behind, line)) => {
            let next = held(text, behind.at);
            match line {
                NamedLine::Form => None,
                NamedLine::Name { number: _ } => None,
                NamedLine::Act { kind: _ } => at_name(text, places, at, line, next),
                NamedLine::Row {
                    from: _,
                    guard: _,
                    resets: _,
                    target: _,
                } => at_name(text, places, at, line, next),
                NamedLine::Plain { line: _ } => Some(Cut {
                    stop: next,
                    go: next,
                    next,
                    action: None,
                }),
            }
        }
        Err(_) => None,
    }
}
