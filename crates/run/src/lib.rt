// One step and settling, on any table and any state: the checks are made once for a call, and never again inside its loop.
#![tactic(auto)]

ghost use Rattle.std.specs.Prelude.{◌≡◌};
ghost use Rattle.run.specs.Refusals.{whole_at, bytes_at};
ghost use Rattle.run.specs.Calls.{StepCall, StepByCall, SettleCall, SettleListCall};

use answer::{Place, Refusal, Settled, State, Stepped};

// A refusal of the whole: its place is 0.
pub fn refusal(number: u8) -> Refusal
    ensures { result ≡ whole_at number }
{
    Refusal {
        number,
        place: Place::Whole,
    }
}

// 24: the trace is shorter than the budget.
pub fn short_trace(budget: usize) -> Refusal
    ensures { result ≡ bytes_at budget }
{
    Refusal {
        number: 24,
        place: Place::Bytes(budget),
    }
}

// One step by our rule: the lowest-numbered enabled urgent output.
pub fn step(table: &[u64], state: State) -> Result<Stepped, Refusal>
    ensures { StepCall table.now state result }
{
    admit::accept(table)?;
    if !moves::in_range(table, state) {
        return Err(refusal(21));
    }
    Ok(settling::rule_step(table, state))
}

// One step by a named action.
pub fn step_by(table: &[u64], state: State, action: u64) -> Result<Stepped, Refusal>
    ensures { StepByCall table.now state action result }
{
    admit::accept(table)?;
    if !moves::in_range(table, state) {
        return Err(refusal(21));
    }
    settling::named_step(table, state, action)
}

// Settling by our rule, at most budget times; the actions taken at the front of the trace.
pub fn settle(
    table: &[u64],
    state: State,
    budget: usize,
    trace: &mut [u8],
) -> Result<Settled, Refusal>
    ensures { SettleCall table.now state budget trace.old trace.new result }
{
    entry::may_settle(table, state)?;
    if State::BUDGET < budget {
        return Err(refusal(22));
    }
    if trace.len() < budget {
        return Err(short_trace(budget));
    }
    Ok(settling::by_rule(table, state, budget, trace))
}

// Settling by the listed actions, in order.
pub fn settle_list(table: &[u64], state: State, list: &[u8]) -> Result<Settled, Refusal>
    ensures { SettleListCall table.now state list.now result }
{
    entry::may_settle(table, state)?;
    if State::BUDGET < list.len() {
        return Err(refusal(22));
    }
    settling::by_list(table, state, list)
}
