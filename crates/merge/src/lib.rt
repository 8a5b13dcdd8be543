// Merging.
#![tactic(auto)]

ghost use Rattle.std.specs.Prelude.{◌≡◌, Err};
ghost use Rattle.std.proofs.Math.Option.{none};
ghost use Rattle.iosa.specs.Checks.{accept_of};
ghost use Rattle.layout.specs.Image.{Image, model_of};
ghost use Rattle.merge.specs.Merging.{Merging};

use answer::{Place, Refusal};

// The bytes of an image: a word has 64 bits.
const NEEDED: usize = 8 * layout::WORDS;

fn refused(number: u8, place: Place) -> Result<(), Refusal>
    ensures { result ≡ Err (record { number = number; place = place }) }
{
    Err(Refusal { number, place })
}

// 24, 25, 26, and else the image, of an accepted table.
fn joined(t: &[u64], i: usize, into: &mut [u64]) -> Result<(), Refusal>
    requires { Image t.now × (accept_of (model_of t.now) ≡ none) }
    ensures { Merging t.now i into.old result into.new }
{
    let last = layout::count_of(t) as usize - 1;
    if into.len() < layout::WORDS {
        return refused(24, Place::Bytes(NEEDED));
    }
    if last <= i {
        return refused(25, Place::Whole);
    }
    let Some(new) = sizing::size_of(t, i, into) else {
        return refused(26, Place::Whole);
    };
    merging::put_merged(t, i, into, new);
    Ok(())
}

// Components i and i + 1 replaced by their product: as `accept`, then 24, 25 and 26. It writes a second lent table; the first stays as it is.
pub fn merge(table: &[u64], i: usize, into: &mut [u64]) -> Result<(), Refusal>
    ensures { Merging table.now i into.old result into.new }
{
    admit::accept(table)?;
    joined(table, i, into)
}
