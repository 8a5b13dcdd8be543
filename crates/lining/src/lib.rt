// The rounds of a simulation with their lines (paper 02, 4/13): each line is written before the next round begins, so that a reader sees it at once.
#![tactic(auto)]

ghost use Rattle.std.specs.Prelude.{◌≡◌, ◌≤◌, length};
ghost use Rattle.answer.specs.Limits.{max_clocks};
ghost use Rattle.answer.specs.State.{parts_of};
ghost use Rattle.layout.specs.Image.{model_of};
ghost use Rattle.settling.specs.Gives.{Ready};
ghost use Rattle.feed.specs.Supply.{lent};
ghost use Rattle.simulation.specs.Simulate.{no_values};
ghost use Rattle.rounds.specs.Rounds.{Posed, Placed, CloseCall, LaterCall, FirstCall, Runnable};
ghost use Rattle.printout.specs.Printed.{Filled};
ghost use Rattle.lining.specs.Settled.{settled_line, shown_of, line_bytes};
ghost use Rattle.lining.specs.Went.{Went};

use answer::{Firing, Model, Refusal, State};
use feed::Source;
use rounds::{Plan, Stand};

// No line is longer.
const LINE: usize = 512;

// The action one up, as it is printed.
fn shown(action: u64) -> u64
    ensures { result ≡ shown_of action }
{
    if action < Model::ACTIONS as u64 {
        return action + 1;
    }
    0
}

// The line of a round that settles from here.
fn put_line(t: &[u64], s: Stand, ticks: u64, g: u64, line: &mut [u8]) -> usize
    requires { Ready t.now s.state × (line_bytes ≤ length line.old) }
    ensures { Filled (settled_line (model_of t.now) s.round ticks g s.resets (parts_of s.state)) line.new result }
{
    let d = settling::untraced(t, s.state, State::BUDGET);
    let resets = sets::union(s.resets, d.resets);
    roundlines::put_round(line, s.round, ticks, g, d.state, resets)
}

// A line is written: false says that it could not be, and that this was told.
fn write_line(rt: &HostRuntime, line: &[u8]) -> bool {
    if let Err(e) = stream::write(rt, &mut rt.stdout(), line) {
        failing::say(rt, b"simulate: a line could not be written whole", e);
        return false;
    }
    true
}

// A round settles, ends, and is said where it is done; none where its line could not be written.
fn close_said(
    rt: &HostRuntime,
    t: &[u64],
    text: &[u8],
    numbers: &[u64],
    at: &mut [usize; Model::CLOCKS],
    used: &mut [usize; Model::CLOCKS],
    s: Stand,
    ticks: u64,
    g: u64,
    values: &mut [i64],
) -> Option<Result<State, Refusal>>
    requires { Placed at.old used.old × Posed t.now s.state values.old }
    ensures { Went (λ c. CloseCall t.now (lent s.from text.now numbers.now) s at.old used.old values.old c
        at.new used.new values.new) result }
{
    let mut line = [0u8; LINE];
    let end = put_line(t, s, ticks, g, &mut line);
    let closed = rounds::close(t, text, numbers, at, used, s, values);
    if closed.is_ok() && !write_line(rt, &line[..end]) {
        return None;
    }
    Some(closed)
}

// A later round: done, or quiet, or refused; none where its line could not be written.
fn later_said(
    rt: &HostRuntime,
    t: &[u64],
    text: &[u8],
    numbers: &[u64],
    at: &mut [usize; Model::CLOCKS],
    used: &mut [usize; Model::CLOCKS],
    s: Stand,
    values: &mut [i64],
) -> Option<Result<Option<State>, Refusal>>
    requires { Placed at.old used.old × Posed t.now s.state values.old }
    ensures { Went (λ c. LaterCall t.now (lent s.from text.now numbers.now) s at.old used.old values.old c
        at.new used.new values.new) result }
{
    match firing::shoot(t, s.state, values) {
        Ok(shot) => match shot.firing {
            Firing::Fired {
                ticks,
                action,
                resets,
            } => {
                let g = shown(action);
                let fired = Stand {
                    from: s.from,
                    round: s.round,
                    state: shot.state,
                    resets,
                };
                match close_said(rt, t, text, numbers, at, used, fired, ticks, g, values)? {
                    Ok(next) => Some(Ok(Some(next))),
                    Err(q) => Some(Err(q)),
                }
            }
            Firing::Quiet => Some(Ok(None)),
        },
        Err(q) => Some(Err(q)),
    }
}

// So many later rounds, after one that ended in this state, until one is not done: false says that a line was not written.
fn later_lines(
    rt: &HostRuntime,
    t: &[u64],
    plan: Plan,
    text: &[u8],
    numbers: &[u64],
    at: &mut [usize; Model::CLOCKS],
    used: &mut [usize; Model::CLOCKS],
    begun: State,
    values: &mut [i64],
) -> bool
    requires { Placed at.old used.old × Posed t.now begun values.old }
{
    let from = plan.from;
    let rounds = plan.rounds;
    let mut state = begun;
    for k in 0..rounds {
        let s = Stand {
            from,
            round: k + 1,
            state,
            resets: 0,
        };
        let Some(said) = later_said(rt, t, text, numbers, at, used, s, values) else {
            return false;
        };
        let Ok(turn) = said else {
            return true;
        };
        let Some(next) = turn else {
            return true;
        };
        state = next;
    }
    true
}

// Round 0.
fn first_said(
    rt: &HostRuntime,
    t: &[u64],
    from: Source,
    text: &[u8],
    numbers: &[u64],
    at: &mut [usize; Model::CLOCKS],
    used: &mut [usize; Model::CLOCKS],
    values: &mut [i64],
) -> Option<Result<State, Refusal>>
    requires { Runnable t.now × Placed at.old used.old × (values.old ≡ no_values) }
    ensures { Went (λ c. FirstCall t.now (lent from text.now numbers.now) at.old used.old c
        at.new used.new values.new) result }
{
    let state = outset::start_state(t);
    let resets = layout::joined(t, layout::STARTED);
    let s = Stand {
        from,
        round: 0,
        state,
        resets,
    };
    close_said(rt, t, text, numbers, at, used, s, 0, 0, values)
}

// Round 0 and so many later rounds, over the samples that stand at the places: false says that a line was not written.
pub fn lines(
    rt: &HostRuntime,
    t: &[u64],
    plan: Plan,
    text: &[u8],
    numbers: &[u64],
    at: &mut [usize; Model::CLOCKS],
) -> bool
    requires { Runnable t.now × (length at.old ≡ max_clocks) }
{
    let mut used = [0usize; Model::CLOCKS];
    let mut values = [0i64; Model::CLOCKS];
    let first = first_said(rt, t, plan.from, text, numbers, at, &mut used, &mut values);
    let Some(begun) = first else {
        return false;
    };
    let Ok(state) = begun else {
        return true;
    };
    later_lines(
        rt,
        t,
        plan,
        text,
        numbers,
        at,
        &mut used,
        state,
        &mut values,
    )
}
