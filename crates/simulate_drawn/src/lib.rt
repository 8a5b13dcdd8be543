// The call `simulate_drawn`: a simulation over draws from distributions.
#![tactic(auto)]

ghost use Rattle.std.specs.Prelude.{◌≡◌};
ghost use Rattle.std.proofs.Math.Option.{none};
ghost use Rattle.layout.specs.Image.{model_of};
ghost use Rattle.triggering.specs.Test.{entry_of};
ghost use Rattle.rounds.specs.Rounds.{Runnable};
ghost use Rattle.simulation.specs.Call.{SimulationAnswers};
ghost use Rattle.drawing.specs.Call.{simulate_drawn};
ghost use Rattle.simulate_drawn.specs.SimulateDrawn.{SimulateDrawnCall};

use answer::{Model, Place, Refusal, Simulated, State};
use feed::Source;
use rounds::Plan;

// 22, 28 and 49, then the rounds, in a model that is accepted and passes either test.
fn play_laws(
    t: &[u64],
    laws: &[u8],
    numbers: &[u64],
    rounds: usize,
    clocks: &mut [i64],
) -> Result<Simulated, Refusal>
    requires { Runnable t.now × (entry_of (model_of t.now) ≡ none) }
    ensures { SimulationAnswers (simulate_drawn (model_of t.now) laws.now numbers.now rounds clocks.old)
        clocks.old result clocks.new }
{
    if State::BUDGET < rounds {
        return Err(Refusal {
            number: 22,
            place: Place::Whole,
        });
    }
    if clocks.len() != Model::CLOCKS {
        return Err(Refusal {
            number: 28,
            place: Place::Whole,
        });
    }
    let mut at = [0usize; Model::CLOCKS];
    distributions::scan(laws, enabling::declared(t), &mut at)?;
    let plan = Plan {
        from: Source::Draws,
        rounds,
    };
    simulate::play(t, plan, laws, numbers, &mut at, clocks)
}

// So many later rounds over draws: 20, 10 to 17 and check 18, or else 45 and 18, once; then 22, 28 and 49, then round by round 30, 42 and 50.
pub fn simulate_drawn(
    table: &[u64],
    laws: &[u8],
    numbers: &[u64],
    rounds: usize,
    clocks: &mut [i64],
) -> Result<Simulated, Refusal>
    ensures { SimulateDrawnCall table.now laws.now numbers.now rounds clocks.old result clocks.new }
{
    orderly::may_walk(table)?;
    play_laws(table, laws, numbers, rounds, clocks)
}
