// The new test called: 20, 10 to 17, 45, 18; and whether a path or a simulation may begin: 20, 10 to 17, check 18 or else 45, 18.
#![tactic(auto)]

ghost use Rattle.std.specs.Prelude.{◌≡◌, Err};
ghost use Rattle.std.proofs.Math.Option.{none};
ghost use Rattle.laws.specs.Sets.{◌∖◌};
ghost use Rattle.answer.specs.declared.Place.TheVariants as Place;
ghost use Rattle.iosa.specs.Checks.{accept_of, clash_among};
ghost use Rattle.layout.specs.Image.{Image, model_of};
ghost use Rattle.parts.specs.Faults.{Says};
ghost use Rattle.triggering.specs.Test.{inputs_of, outputs_of, open_fault, unless_passes, else_orderly};
ghost use Rattle.orderly.specs.Calls.{called_fault, OrderlyCall, MayWalk};

use answer::{Model, Place, Refusal};

fn refused_at(action: u64) -> Result<(), Refusal>
    ensures { result ≡ Err (record { number = 45; place = Place.Action action }) }
{
    Err(Refusal {
        number: 45,
        place: Place::Action(action),
    })
}

// The inputs that nobody outputs, by declaration.
fn open_inputs(t: &[u64]) -> u64
    requires { Image t.now }
    ensures { result ≡ inputs_of (model_of t.now) ∖ outputs_of (model_of t.now) }
{
    let inputs = sets::union(
        layout::joined(t, layout::INS),
        layout::joined(t, layout::UINS),
    );
    let outputs = sets::union(
        layout::joined(t, layout::OUTS),
        layout::joined(t, layout::UOUTS),
    );
    sets::minus(inputs, outputs)
}

// 45 at the lowest of them.
fn check_closed(t: &[u64]) -> Result<(), Refusal>
    requires { Image t.now }
    ensures { Says result (open_fault (model_of t.now)) }
{
    let a = sets::lowest(open_inputs(t));
    if a < Model::ACTIONS as u64 {
        return refused_at(a);
    }
    Ok(())
}

// 18 where the new test fails. Its place is check 18's, which is asked only then: where check 18 passes, so does the test.
fn check_passing(t: &[u64]) -> Result<(), Refusal>
    requires { Image t.now × (accept_of (model_of t.now) ≡ none) }
    ensures { Says result (unless_passes (model_of t.now) (clash_among 0 (model_of t.now))) }
{
    if harms::passes(t) {
        return Ok(());
    }
    admit::check_meeting(t)
}

// 45, then 18.
fn check_orderly(t: &[u64]) -> Result<(), Refusal>
    requires { Image t.now × (accept_of (model_of t.now) ≡ none) }
    ensures { Says result (called_fault (model_of t.now)) }
{
    check_closed(t)?;
    check_passing(t)
}

// The same, where check 18 has refused already.
fn check_else(table: &[u64], clash: Refusal) -> Result<(), Refusal>
    requires { Image table.now × (accept_of (model_of table.now) ≡ none) × Says (Err clash) (clash_among 0 (model_of table.now)) }
    ensures { Says result (called_fault (model_of table.now)) }
{
    check_closed(table)?;
    if !harms::passes(table) {
        return Err(clash);
    }
    Ok(())
}

// Check 18, or else 45, then 18.
fn check_walk(t: &[u64]) -> Result<(), Refusal>
    requires { Image t.now × (accept_of (model_of t.now) ≡ none) }
    ensures { Says result (else_orderly (model_of t.now) (clash_among 0 (model_of t.now))) }
{
    admit::check_meeting(t).or_else(|clash| check_else(t, clash))
}

// The new test: whether the table holds an accepted model that is closed and passes.
pub fn orderly(table: &[u64]) -> Result<(), Refusal>
    ensures { OrderlyCall table.now result }
{
    admit::accept(table)?;
    check_orderly(table)
}

// What settling after a path asks, and a simulation: whether it holds one that passes check 18, or else is closed and passes the new test.
pub fn may_walk(table: &[u64]) -> Result<(), Refusal>
    ensures { MayWalk table.now result }
{
    admit::accept(table)?;
    check_walk(table)
}
