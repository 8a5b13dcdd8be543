// The call `start`: where the system of a table begins.
#![tactic(auto)]

ghost use Rattle.std.specs.Prelude.{◌≡◌, ℕ, ◌<◌, get_or};
ghost use Rattle.answer.specs.Limits.{max_components};
ghost use Rattle.iosa.specs.Start.{start_all};
ghost use Rattle.layout.specs.Image.{Image, model_of};
ghost use Rattle.words.specs.Bytes.{state_of};
ghost use Rattle.outset.specs.Start.{StartCall};

use answer::{Place, Refusal, State};
use std::array;

// Where a system begins: its state, and the clocks that are set there.
#[derive(Drop)]
pub struct Outset {
    pub started: u64,
    pub state: State,
}

// The start state of component i, and 0 where there is none.
fn start_at(t: &[u64], i: usize) -> u8
    requires { Image t.now × (i < max_components) }
    ensures { result ≡ get_or (start_all (model_of t.now)) i 0 }
{
    layout::block_word(t, i, layout::START) as u8
}

// The start state of the system.
pub fn start_state(t: &[u64]) -> State
    requires { Image t.now }
    ensures { result ≡ state_of (start_all (model_of t.now)) }
{
    State {
        count: layout::count_of(t) as usize,
        parts: array::from_fn(|i| start_at(t, i)),
    }
}

// The start state of the table's model and the clocks that are set there, whatever conditions the model meets; 20 where there is no model.
pub fn start(table: &[u64]) -> Result<Outset, Refusal>
    ensures { StartCall table.now result }
{
    if !table::recognise(table) {
        return Err(Refusal {
            number: 20,
            place: Place::Whole,
        });
    }
    Ok(Outset {
        started: layout::joined(table, layout::STARTED),
        state: start_state(table),
    })
}
