// A composed state behind `&mut`, advanced by one urgent step.
#![tactic(auto)]

ghost use Rattle.std.specs.Prelude.{◌≡◌};
ghost use Rattle.panel.specs.Advance.{AdvanceCall, AdvancedCall, is_move};

use answer::{Outcome, Refusal, State, Stepped};

// Whether a step moved: only then is there a state to store.
fn is_move(outcome: Outcome) -> bool
    ensures { result ≡ is_move outcome }
{
    match outcome {
        Outcome::Moved { .. } => true,
        Outcome::Stable => false,
    }
}

// One urgent step by our rule, of a state that is lent: on stable and on refusal nothing is stored.
pub fn advance(table: &[u64], state: &mut State) -> Result<Outcome, Refusal>
    ensures { AdvanceCall table.now state.old state.new result }
{
    let stepped = run::step(table, *state)?;
    if is_move(stepped.outcome) {
        *state = stepped.state;
    }
    Ok(stepped.outcome)
}

// The same of a state that the caller holds by value: it is lent to `advance` here.
pub fn advanced(table: &[u64], given: State) -> Result<Stepped, Refusal>
    ensures { AdvancedCall table.now given result }
{
    let mut state = given;
    let outcome = advance(table, &mut state)?;
    Ok(Stepped { outcome, state })
}
