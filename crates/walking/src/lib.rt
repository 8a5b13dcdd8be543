// The walk of a listed path from the start of a model that is accepted: "a listed path of such steps, 0 to 4,096, each an action and its guard" (02, 8/13).
#![tactic(auto)]

ghost use Rattle.std.specs.Prelude.{◌≡◌, ℕ, ◌≤◌, ◌<◌};
ghost use Rattle.std.proofs.Math.Option.{none};
ghost use Rattle.answer.specs.State.{parts_of};
ghost use Rattle.iosa.specs.Checks.{accept_of};
ghost use Rattle.iosa.specs.Start.{start_all};
ghost use Rattle.iosa.specs.Step.{urgent_step};
ghost use Rattle.layout.specs.Image.{Image, model_of};
ghost use Rattle.settling.specs.Gives.{Ready};
ghost use Rattle.paths.specs.Path.{after_of, calm_step, path_step, walk};
ghost use Rattle.walking.specs.Walks.{waits_for, Trod, not_possible_at, Walks};

use answer::{Model, Place, Refusal, State};

// An urgent output of the composition that is enabled, with guard `-`: the state after it, where it is possible.
fn urgently(t: &[u64], x: State, a: u64) -> Option<State>
    requires { Ready t.now x }
    ensures { Trod (after_of (urgent_step (model_of t.now) (parts_of x) a)) x result }
{
    if !moves::offered(t, x, a) {
        return None;
    }
    let m = moves::move_all(t, x, a);
    Some(m.state)
}

// Whether the state is stable and the row that the clock guards there has the action.
fn waits_for(t: &[u64], x: State, a: u64, c: u64) -> bool
    requires { Ready t.now x }
    ensures { result ≡ waits_for (model_of t.now) (parts_of x) a c }
{
    if moves::lowest_all(t, x) < Model::ACTIONS as u64 {
        return false;
    }
    if Model::CLOCKS as u64 <= c {
        return false;
    }
    if Model::ACTIONS as u64 <= a {
        return false;
    }
    firing::action_of(t, x, c) == a
}

// A non-urgent output with its clock, from a stable state.
fn calmly(t: &[u64], x: State, a: u64, c: u64) -> Option<State>
    requires { Ready t.now x }
    ensures { Trod (calm_step (model_of t.now) (parts_of x) a c) x result }
{
    if !waits_for(t, x, a, c) {
        return None;
    }
    let m = firing::fire_all(t, x, c, a);
    Some(m.state)
}

// One step of a path: guard 0 is `-`, and x + 1 is clock x.
fn step(t: &[u64], x: State, action: u8, guard: u8) -> Option<State>
    requires { Ready t.now x }
    ensures { Trod (path_step (model_of t.now) (parts_of x) action guard) x result }
{
    let a = action as u64;
    let g = guard as u64;
    if g == 0 {
        urgently(t, x, a)
    } else {
        calmly(t, x, a, g - 1)
    }
}

// 46: the step at this index is not possible.
fn not_possible(i: usize) -> Refusal
    ensures { result ≡ not_possible_at i }
{
    Refusal {
        number: 46,
        place: Place::Index(i),
    }
}

// The listed steps in order, two bytes for each; a last byte alone begins a step that has no guard.
pub fn walk(t: &[u64], path: &[u8]) -> Result<State, Refusal>
    requires { Image t.now × (accept_of (model_of t.now) ≡ none) }
    ensures { Walks (walk (model_of t.now) 0 path.now (start_all (model_of t.now))) result }
{
    let mut cur = outset::start_state(t);
    let whole = path.len() / 2;
    for i in 0..whole {
        let at = 2 * i;
        let Some(next) = step(t, cur, path[at], path[at + 1]) else {
            return Err(not_possible(i));
        };
        cur = next;
    }
    if path.len() % 2 == 1 {
        return Err(not_possible(whole));
    }
    Ok(cur)
}
