// The timed step.
#![tactic(auto)]

ghost use Rattle.timed.specs.TimedStep.{TimedStep};

use answer::{Refusal, State, Timed};

// One timed step: as `accept`, then 21, 27, 28, 29 and 30; else the enabling clock with the least value fires, or nothing changes.
pub fn timed_step(table: &[u64], state: State, clocks: &mut [i64]) -> Result<Timed, Refusal>
    ensures { TimedStep table.now state clocks.old result clocks.new }
{
    admit::accept(table)?;
    firing::accepted_step(table, state, clocks)
}
