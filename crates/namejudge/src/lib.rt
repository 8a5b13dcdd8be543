// A line behind the `name` lines: judged as the old line that it is with its name exchanged for its number, and the place of its fault.
#![tactic(auto)]

ghost use Rattle.std.specs.Prelude.{◌≡◌, ℕ, ◌+◌, ◌≤◌, ◌<◌, length};
ghost use Rattle.std.proofs.Math.Option.{some};
ghost use Rattle.answer.specs.Limits.{max_actions, max_bytes};
ghost use Rattle.survey.specs.Places.{allowed_of};
ghost use Rattle.judge.specs.Judged.{numbered, step_of};
ghost use Rattle.named.specs.ReadNamed.{moved_by};
ghost use Rattle.namefields.specs.NameFields.{found_is};
ghost use Rattle.namelines.specs.NamedLines.{before_name};
ghost use Rattle.namelaws.specs.Judging.{action_of, known_by, judged_by, act_named, step_named, set_of, declared_named, column_by};

use columns::Allowed;
use fields::Kind;
use judge::Progress;
use lines::Line;
use namelines::NamedLine;

fn action_of(found: Option<u64>) -> u64
    ensures { result ≡ action_of (found_is found) }
{
    found.unwrap_or(0)
}

// A row by a name that no `name` line gives is judged as of a component that has no action: 3 and 4 do not depend on it, and else it is 5.
fn known_by(p: Progress, found: Option<u64>) -> Progress
    ensures { result ≡ known_by p (found_is found) }
{
    match found {
        Some(_) => p,
        None => Progress { acts: 0, ..p },
    }
}

// What a line is judged by.
fn judged_by(p: Progress, l: NamedLine, found: Option<u64>) -> Progress
    ensures { result ≡ judged_by p l (found_is found) }
{
    match l {
        NamedLine::Row {
            from: _,
            guard: _,
            resets: _,
            target: _,
        } => known_by(p, found),
        _ => p,
    }
}

// An old line: the number of its fault, or the line taken in.
fn step(p: Progress, l: Line) -> Result<Progress, u8>
    ensures { result ≡ numbered (step_of p l) }
{
    match judge::step(p, l) {
        Ok(q) => Ok(q),
        Err(fault) => Err(fault as u8),
    }
}

// An `act` line by its name: out of turn, or 44 where no `name` line gives it.
fn act_judged(p: Progress, kind: Kind, found: Option<u64>) -> Result<Progress, u8>
    ensures { result ≡ act_named p kind (found_is found) }
{
    match found {
        Some(action) => step(p, Line::Act { action, kind }),
        None => {
            let last = p.last;
            if judge::ACT < last.turn {
                return Err(3);
            }
            Err(44)
        }
    }
}

// 3 to 7 and 44, or the line taken in: a `form` or a `name` line is out of turn.
pub fn judged(p: Progress, l: NamedLine, found: Option<u64>) -> Result<Progress, u8>
    ensures { result ≡ step_named p l (found_is found) }
{
    match l {
        NamedLine::Form => Err(3),
        NamedLine::Name { number: _ } => Err(3),
        NamedLine::Act { kind } => act_judged(p, kind, found),
        NamedLine::Row {
            from,
            guard,
            resets,
            target,
        } => {
            let action = action_of(found);
            step(
                known_by(p, found),
                Line::Row {
                    from,
                    guard,
                    action,
                    resets,
                    target,
                },
            )
        }
        NamedLine::Plain { line } => step(p, line),
    }
}

fn set_of(found: Option<u64>) -> u64
    requires { (a : ℕ) → found_is found ≡ some a → a < max_actions }
    ensures { result ≡ set_of (found_is found) }
{
    match found {
        Some(a) => sets::single(a),
        None => 0,
    }
}

// The action that a line declares, as a set.
pub fn declares(l: NamedLine, found: Option<u64>) -> u64
    requires { (a : ℕ) → found_is found ≡ some a → a < max_actions }
    ensures { result ≡ declared_named l (found_is found) }
{
    match l {
        NamedLine::Act { kind: _ } => set_of(found),
        _ => 0,
    }
}

// What a line's values may be: for 4 every action and clock there is; else those of the component that it is judged by.
pub fn allowed(p: Progress, l: NamedLine, found: Option<u64>, number: u8) -> Allowed
    ensures { result ≡ allowed_of (judged_by p l (found_is found)) number }
{
    survey::allowed(judged_by(p, l, found), number)
}

// What stands behind the name moves by how much longer the name is than the number.
fn moved(n: usize, name: usize, number: usize, k: usize) -> usize
    requires { (number ≤ n) × (name ≤ max_bytes) × (k ≤ max_bytes + 32) }
    ensures { result ≡ moved_by n name number k }
{
    if n < k { k + name - number } else { k }
}

// The column of the first value of a line that may not be. The old row would begin so far back that its resets stand where they do.
pub fn column_of(text: &[u8], at: usize, a: Allowed, l: NamedLine, found: Option<u64>) -> usize
    requires { (7 ≤ at) × (at + before_name l ≤ length text.now) × (length text.now ≤ max_bytes) }
    ensures { result ≡ column_by text.now at a l (found_is found) }
{
    match l {
        NamedLine::Form => 0,
        NamedLine::Name { number: _ } => 0,
        NamedLine::Act { kind: _ } => 0,
        NamedLine::Row {
            from,
            guard,
            resets,
            target,
        } => {
            let action = action_of(found);
            let before = 6 + measure::width(from) + columns::guard_width(guard);
            let end = namefields::name_end(text, at + before);
            let wide = measure::width(action);
            let old = Line::Row {
                from,
                guard,
                action,
                resets,
                target,
            };
            let k = columns::value_column(text, end - before - wide, a, old);
            moved(before + 1, end - at - before, wide, k)
        }
        NamedLine::Plain { line } => columns::value_column(text, at, a, line),
    }
}
