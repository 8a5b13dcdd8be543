// The call `simulate`: a simulation over recorded samples.
#![tactic(auto)]

ghost use Rattle.std.specs.Prelude.{◌≡◌, cond, ℕ, ◌<◌, length};
ghost use Rattle.std.proofs.Math.Option.{none};
ghost use Rattle.laws.specs.Sets.{has};
ghost use Rattle.answer.specs.Limits.{max_clocks};
ghost use Rattle.layout.specs.Image.{model_of};
ghost use Rattle.triggering.specs.Test.{entry_of};
ghost use Rattle.feed.specs.Supply.{lent};
ghost use Rattle.rounds.specs.Rounds.{Runnable};
ghost use Rattle.simulation.specs.Simulate.{each_from};
ghost use Rattle.simulation.specs.Call.{put_at, simulate_text, SimulationAnswers};
ghost use Rattle.simulate.specs.Simulate.{PlayCall, SimulateCall};

use answer::{Model, Place, Refusal, Simulated, State};
use feed::Source;
use rounds::Plan;

// One clock's lent value then: its own where it is declared, and else what stood there.
fn put_one(d: u64, x: u64, v: i64, z: i64) -> i64
    requires { x < max_clocks }
    ensures { result ≡ cond (has d x) v z }
{
    if sets::has(d, x) { v } else { z }
}

// The values of the declared clocks are put out.
pub fn put(d: u64, values: &[i64], clocks: &mut [i64])
    requires { (length values.now ≡ max_clocks) × (length clocks.old ≡ max_clocks) }
    ensures { clocks.new ≡ each_from (put_at d values.now) 0 clocks.old }
{
    for x in 0..Model::CLOCKS {
        let v = values[x];
        let z = clocks[x];
        clocks[x] = put_one(d, x as u64, v, z);
    }
}

// The rounds over the samples that stand at the places; the lent values are written once, at the end.
pub fn play(
    t: &[u64],
    plan: Plan,
    text: &[u8],
    numbers: &[u64],
    at: &mut [usize; Model::CLOCKS],
    clocks: &mut [i64],
) -> Result<Simulated, Refusal>
    requires { Runnable t.now × (length at.old ≡ max_clocks) × (length clocks.old ≡ max_clocks) }
    ensures { PlayCall t.now (lent plan.from text.now numbers.now) plan.rounds at.old
        clocks.old result clocks.new }
{
    let mut used = [0usize; Model::CLOCKS];
    let mut values = [0i64; Model::CLOCKS];
    let r = rounds::run(t, plan, text, numbers, at, &mut used, &mut values)?;
    put(enabling::declared(t), &values, clocks);
    Ok(r)
}

// 22, 28 and 40, then the rounds, in a model that is accepted and passes either test.
fn play_text(
    t: &[u64],
    text: &[u8],
    rounds: usize,
    clocks: &mut [i64],
) -> Result<Simulated, Refusal>
    requires { Runnable t.now × (entry_of (model_of t.now) ≡ none) }
    ensures { SimulationAnswers (simulate_text (model_of t.now) text.now rounds clocks.old)
        clocks.old result clocks.new }
{
    if State::BUDGET < rounds {
        return Err(Refusal {
            number: 22,
            place: Place::Whole,
        });
    }
    if clocks.len() != Model::CLOCKS {
        return Err(Refusal {
            number: 28,
            place: Place::Whole,
        });
    }
    let mut at = [0usize; Model::CLOCKS];
    samples::scan(text, enabling::declared(t), &mut at)?;
    let plan = Plan {
        from: Source::Lists,
        rounds,
    };
    play(t, plan, text, &[], &mut at, clocks)
}

// So many later rounds over the samples of a text: 20, 10 to 17 and check 18, or else 45 and 18, once; then 22, 28 and 40, then round by round 30, 42 and 41.
pub fn simulate(
    table: &[u64],
    samples: &[u8],
    rounds: usize,
    clocks: &mut [i64],
) -> Result<Simulated, Refusal>
    ensures { SimulateCall table.now samples.now rounds clocks.old result clocks.new }
{
    orderly::may_walk(table)?;
    play_text(table, samples, rounds, clocks)
}
