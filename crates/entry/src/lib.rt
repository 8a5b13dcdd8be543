// Whether settling may begin on a table in a composed state: 20, 10 to 18, then 21, then 19.
#![tactic(auto)]

ghost use Rattle.std.specs.Prelude.{◌≡◌, Err};
ghost use Rattle.std.proofs.Math.Option.{some};
ghost use Rattle.answer.specs.State.{parts_of};
ghost use Rattle.answer.specs.Told.{says_checked};
ghost use Rattle.iosa.specs.Settle.{begin_fault};
ghost use Rattle.layout.specs.Image.{Image, model_of};
ghost use Rattle.table.specs.OnTable.{check_on};
ghost use Rattle.parts.specs.Faults.{Says};
ghost use Rattle.entry.specs.Entry.{entry_fault};

use answer::{Model, Place, Refusal, State};

fn refused(number: u8, place: Place) -> Result<(), Refusal>
    ensures { result ≡ Err (record { number = number; place = place }) }
{
    Err(Refusal { number, place })
}

// "it stands directly after 21": 19 is asked of a state in range.
fn check_state(t: &[u64], x: State) -> Result<(), Refusal>
    requires { Image t.now }
    ensures { Says result (begin_fault (model_of t.now) (parts_of x)) }
{
    if !moves::in_range(t, x) {
        return refused(21, Place::Whole);
    }
    let i = reach::unreached(t, x);
    if i < Model::COMPONENTS {
        return refused(19, Place::Component(i));
    }
    Ok(())
}

// 10 to 18, then 21, then 19, of a table that is known to hold a model.
pub fn check_entry(t: &[u64], x: State) -> Result<(), Refusal>
    requires { Image t.now }
    ensures { Says result (entry_fault x (model_of t.now)) }
{
    admit::check_confluent(t)?;
    check_state(t, x)
}

// What the confluence check refuses, 20 first, then 21, then 19.
pub fn may_settle(table: &[u64], x: State) -> Result<(), Refusal>
    ensures { says_checked result ≡ some (check_on table.now (entry_fault x)) }
{
    admit::check_image(table)?;
    check_entry(table, x)
}
