// The rounds of a simulation in a model that is accepted: the checks are the caller's.
#![tactic(auto)]

ghost use Rattle.std.specs.Prelude.{◌≡◌, ℕ, ◌≤◌, ◌<◌, length};
ghost use Rattle.answer.specs.Limits.{max_clocks, max_budget};
ghost use Rattle.simulation.specs.Simulate.{no_values};
ghost use Rattle.feed.specs.Supply.{lent};
ghost use Rattle.rounds.specs.Rounds.{Posed, Placed, EndCall, CloseCall, LaterCall, RoundsCall, FirstCall, Runnable, RunCall};

use answer::{Firing, Model, Place, Refusal, Simulated, State, Verdict};
use feed::Source;

// What is asked for: where the samples come from, and how many later rounds.
#[derive(Clone, Copy)]
pub struct Plan {
    pub from: Source,
    pub rounds: usize,
}

// Where a round stands: its number, where the samples come from, the state, and the clocks set or reset in it so far.
#[derive(Clone, Copy)]
pub struct Stand {
    pub from: Source,
    pub round: usize,
    pub state: State,
    pub resets: u64,
}

// 41 at the lowest clock that has no sample left; else each clock set or reset has taken its next one.
fn end(
    text: &[u8],
    numbers: &[u64],
    at: &mut [usize; Model::CLOCKS],
    used: &mut [usize; Model::CLOCKS],
    s: Stand,
    values: &mut [i64],
) -> Result<State, Refusal>
    requires { Placed at.old used.old × (length values.old ≡ max_clocks) }
    ensures { EndCall (lent s.from text.now numbers.now) s at.old used.old values.old result
        at.new used.new values.new }
{
    match feed::fed(s.from, text, numbers, at, used, s.resets, values) {
        Some(x) => Err(Refusal {
            number: feed::ran_out(s.from),
            place: Place::Clock(x),
        }),
        None => Ok(s.state),
    }
}

// A round settles, 42 where it does not, and ends; the state after it.
pub fn close(
    t: &[u64],
    text: &[u8],
    numbers: &[u64],
    at: &mut [usize; Model::CLOCKS],
    used: &mut [usize; Model::CLOCKS],
    s: Stand,
    values: &mut [i64],
) -> Result<State, Refusal>
    requires { Placed at.old used.old × Posed t.now s.state values.old }
    ensures { CloseCall t.now (lent s.from text.now numbers.now) s at.old used.old values.old result
        at.new used.new values.new }
{
    let d = settling::untraced(t, s.state, State::BUDGET);
    match d.verdict {
        Verdict::Stable => {
            let resets = sets::union(s.resets, d.resets);
            let settled = Stand {
                from: s.from,
                round: s.round,
                state: d.state,
                resets,
            };
            end(text, numbers, at, used, settled, values)
        }
        Verdict::Unsettled => Err(Refusal {
            number: 42,
            place: Place::Index(s.round),
        }),
    }
}

// A later round: the timed step, and what it fires settles and ends; none where the step is quiet.
fn later(
    t: &[u64],
    text: &[u8],
    numbers: &[u64],
    at: &mut [usize; Model::CLOCKS],
    used: &mut [usize; Model::CLOCKS],
    s: Stand,
    values: &mut [i64],
) -> Result<Option<State>, Refusal>
    requires { Placed at.old used.old × Posed t.now s.state values.old }
    ensures { LaterCall t.now (lent s.from text.now numbers.now) s at.old used.old values.old result
        at.new used.new values.new }
{
    let shot = firing::shoot(t, s.state, values)?;
    match shot.firing {
        Firing::Fired {
            ticks: _,
            action: _,
            resets,
        } => {
            let fired = Stand {
                from: s.from,
                round: s.round,
                state: shot.state,
                resets,
            };
            let next = close(t, text, numbers, at, used, fired, values)?;
            Ok(Some(next))
        }
        Firing::Quiet => Ok(None),
    }
}

// So many later rounds, after one that ended in this state.
fn later_rounds(
    t: &[u64],
    plan: Plan,
    text: &[u8],
    numbers: &[u64],
    at: &mut [usize; Model::CLOCKS],
    used: &mut [usize; Model::CLOCKS],
    begun: State,
    values: &mut [i64],
) -> Result<Simulated, Refusal>
    requires { Placed at.old used.old × Posed t.now begun values.old }
    ensures { RoundsCall t.now (lent plan.from text.now numbers.now) plan.rounds begun
        at.old used.old values.old result values.new }
{
    let from = plan.from;
    let rounds = plan.rounds;
    let mut state = begun;
    for k in 0..rounds {
        let s = Stand {
            from,
            round: k + 1,
            state,
            resets: 0,
        };
        match later(t, text, numbers, at, used, s, values)? {
            Some(next) => {
                state = next;
            }
            None => {
                return Ok(Simulated { rounds: k, state });
            }
        }
    }
    Ok(Simulated { rounds, state })
}

// Round 0: the clocks set at the start are set, and the start settles.
fn first(
    t: &[u64],
    from: Source,
    text: &[u8],
    numbers: &[u64],
    at: &mut [usize; Model::CLOCKS],
    used: &mut [usize; Model::CLOCKS],
    values: &mut [i64],
) -> Result<State, Refusal>
    requires { Runnable t.now × Placed at.old used.old × (values.old ≡ no_values) }
    ensures { FirstCall t.now (lent from text.now numbers.now) at.old used.old result
        at.new used.new values.new }
{
    let state = outset::start_state(t);
    let resets = layout::joined(t, layout::STARTED);
    let s = Stand {
        from,
        round: 0,
        state,
        resets,
    };
    close(t, text, numbers, at, used, s, values)
}

// Round 0 and so many later rounds, over the samples that stand at the places.
pub fn run(
    t: &[u64],
    plan: Plan,
    text: &[u8],
    numbers: &[u64],
    at: &mut [usize; Model::CLOCKS],
    used: &mut [usize; Model::CLOCKS],
    values: &mut [i64],
) -> Result<Simulated, Refusal>
    requires { Runnable t.now × Placed at.old used.old × (values.old ≡ no_values) }
    ensures { RunCall t.now (lent plan.from text.now numbers.now) plan.rounds
        at.old used.old result values.new }
{
    let state = first(t, plan.from, text, numbers, at, used, values)?;
    later_rounds(t, plan, text, numbers, at, used, state, values)
}
