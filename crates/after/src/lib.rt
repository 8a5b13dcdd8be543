// Settling after a listed path from the start, on any table: "Such systems are settled only after a listed path .. or in a simulation" (02, 8/13).
#![tactic(auto)]

ghost use Rattle.std.specs.Prelude.{◌≡◌};
ghost use Rattle.iosa.specs.Settle.{budget_fault, trace_fault};
ghost use Rattle.parts.specs.Faults.{Says};
ghost use Rattle.paths.specs.Path.{long_path};
ghost use Rattle.walking.specs.Walks.{Walks};
ghost use Rattle.after.specs.After.{settle_fault};
ghost use Rattle.after.specs.Calls.{walked_on, SettleAfterCall, SettleListAfterCall};

use answer::{Refusal, Settled, State};

// 22 for a path of more than 4,096 steps.
fn path_check(path: &[u8]) -> Result<(), Refusal>
    ensures { Says result (long_path path.now) }
{
    if 2 * State::BUDGET < path.len() {
        return Err(run::refusal(22));
    }
    Ok(())
}

// 22 for a budget or a list of more than 4,096 steps.
fn steps_check(steps: usize) -> Result<(), Refusal>
    ensures { Says result (budget_fault steps) }
{
    if State::BUDGET < steps {
        return Err(run::refusal(22));
    }
    Ok(())
}

// 24 for a trace that is shorter than the budget.
fn room_check(budget: usize, room: usize) -> Result<(), Refusal>
    ensures { Says result (trace_fault budget room) }
{
    if room < budget {
        return Err(run::short_trace(budget));
    }
    Ok(())
}

// The checks of settling by our rule, in their order: 22 for the budget, then 24.
fn settle_check(budget: usize, room: usize) -> Result<(), Refusal>
    ensures { Says result (settle_fault budget room) }
{
    steps_check(budget)?;
    room_check(budget, room)
}

// The checks of the table, then of the path's length, then its walk: where the path leads from the start, or why nowhere.
fn lead(table: &[u64], path: &[u8]) -> Result<State, Refusal>
    ensures { Walks (walked_on table.now path.now) result }
{
    orderly::may_walk(table)?;
    path_check(path)?;
    walking::walk(table, path)
}

// Settling by our rule from where a path leads, at most budget times; the actions taken at the front of the trace.
pub fn settle_after(
    table: &[u64],
    path: &[u8],
    budget: usize,
    trace: &mut [u8],
) -> Result<Settled, Refusal>
    ensures { SettleAfterCall table.now path.now budget trace.old trace.new result }
{
    let state = lead(table, path)?;
    settle_check(budget, trace.len())?;
    Ok(settling::by_rule(table, state, budget, trace))
}

// Settling by the listed actions, in order, from where a path leads.
pub fn settle_list_after(table: &[u64], path: &[u8], list: &[u8]) -> Result<Settled, Refusal>
    ensures { SettleListAfterCall table.now path.now list.now result }
{
    let from = lead(table, path)?;
    steps_check(list.len())?;
    settling::by_list(table, from, list)
}
