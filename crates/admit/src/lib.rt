// The checks of a table: 20; 10 to 14 of one component, or of each in turn; 15 to 17; and 18 where confluence is asked for.
#![tactic(auto)]

ghost use Rattle.std.specs.Prelude.{◌≡◌, Err};
ghost use Rattle.std.proofs.Math.Option.{none};
ghost use Rattle.answer.specs.declared.Place.TheVariants as Place;
ghost use Rattle.iosa.specs.Checks.{fault_from, component_of, compatible_of, accept_of, clash_among, confluent_of};
ghost use Rattle.layout.specs.Image.{Image, model_of};
ghost use Rattle.parts.specs.Faults.{Says};
ghost use Rattle.admit.specs.Admit.{Recognised, ByItself, Compatibly, Accepted, Confluently};

use answer::{Place, Refusal};
use pairs::Shared;

fn refused(number: u8) -> Result<(), Refusal>
    ensures { result ≡ Err (record { number = number; place = Place.Whole }) }
{
    Err(Refusal {
        number,
        place: Place::Whole,
    })
}

// 25, then 10 to 14 of component i.
fn check_own(t: &[u64], i: usize) -> Result<(), Refusal>
    requires { Image t.now }
    ensures { Says result (component_of (model_of t.now) i) }
{
    let n = layout::count_of(t) as usize;
    if n <= i {
        return refused(25);
    }
    parts::check_component(t, i)
}

// 10 to 14 for each component in turn.
fn check_components(t: &[u64]) -> Result<(), Refusal>
    requires { Image t.now }
    ensures { Says result (fault_from 0 0 (model_of t.now)) }
{
    let n = layout::count_of(t) as usize;
    (0..n).try_for_each(|i| parts::check_component(t, i))
}

// 15 to 17.
fn check_compatible(t: &[u64]) -> Result<(), Refusal>
    requires { Image t.now }
    ensures { Says result (compatible_of (model_of t.now)) }
{
    pairs::check_shared(t, Shared::Outputs)?;
    pairs::check_shared(t, Shared::Clocks)?;
    pairs::check_shared(t, Shared::Urgency)
}

// 10 to 17.
fn check_model(t: &[u64]) -> Result<(), Refusal>
    requires { Image t.now }
    ensures { Says result (accept_of (model_of t.now)) }
{
    check_components(t)?;
    check_compatible(t)
}

// 18 for each component in turn.
pub fn check_meeting(t: &[u64]) -> Result<(), Refusal>
    requires { Image t.now × (accept_of (model_of t.now) ≡ none) }
    ensures { Says result (clash_among 0 (model_of t.now)) }
{
    let n = layout::count_of(t) as usize;
    (0..n).try_for_each(|i| meets::check_confluence(t, i))
}

// 10 to 18, of a table that is known to hold a model.
pub fn check_confluent(t: &[u64]) -> Result<(), Refusal>
    requires { Image t.now }
    ensures { Says result (confluent_of (model_of t.now)) }
{
    check_model(t)?;
    check_meeting(t)
}

// 20 alone: whether the table holds a model.
pub fn check_image(table: &[u64]) -> Result<(), Refusal>
    ensures { Recognised table.now result }
{
    if !table::recognise(table) {
        return refused(20);
    }
    Ok(())
}

// Whether the table holds a model whose component i meets the conditions.
pub fn component(table: &[u64], i: usize) -> Result<(), Refusal>
    ensures { ByItself table.now i result }
{
    check_image(table)?;
    check_own(table, i)
}

// Whether it holds one whose components are compatible, whatever conditions they meet.
pub fn compatible(table: &[u64]) -> Result<(), Refusal>
    ensures { Compatibly table.now result }
{
    check_image(table)?;
    check_compatible(table)
}

// Whether it holds one whose components all meet the conditions and are compatible: both checks, once.
pub fn accept(table: &[u64]) -> Result<(), Refusal>
    ensures { Accepted table.now result }
{
    check_image(table)?;
    check_model(table)
}

// And whether each component is confluent.
pub fn confluent(table: &[u64]) -> Result<(), Refusal>
    ensures { Confluently table.now result }
{
    check_image(table)?;
    check_confluent(table)
}
