// Why a model is not confluent (02, 5/13): what the program `why` prints for a text, and the same of the model in a lent table.
#![tactic(auto)]

ghost use Rattle.std.specs.Prelude.{◌≡◌, ◌≤◌, length, Err};
ghost use Rattle.std.proofs.Math.Option.{none};
ghost use Rattle.answer.specs.declared.Place.TheVariants as Place;
ghost use Rattle.iosa.specs.Checks.{accept_of};
ghost use Rattle.layout.specs.Image.{Image, model_of};
ghost use Rattle.print.specs.Put.{Put};
ghost use Rattle.whys.specs.Explanation.{explain_model, explanation_of};
ghost use Rattle.explaining.specs.Longest.{explanation_bytes};
ghost use Rattle.explain.specs.Explain.{Puts, in_room, ExplainCall, ExplainTableCall};

use answer::{Place, Refusal};

fn too_short() -> Result<usize, Refusal>
    ensures { result ≡ Err (record { number = 24; place = Place.Bytes explanation_bytes }) }
{
    Err(Refusal {
        number: 24,
        place: Place::Bytes(explaining::EXPLANATION),
    })
}

// 10 to 17 as a line, and else what is printed of an accepted model.
fn put_table(t: &[u64], out: &mut [u8]) -> usize
    requires { Image t.now × (explanation_bytes ≤ length out.old) }
    ensures { Put out.old 0 (explain_model (model_of t.now)) out.new result }
{
    match admit::accept(t) {
        Err(f) => tell::put_refused(out, 0, f),
        Ok(()) => clashing::put_model(t, out),
    }
}

// 1 to 8 as a line, and else what is printed of the model that was read.
fn put_text(text: &[u8], out: &mut [u8]) -> usize
    requires { explanation_bytes ≤ length out.old }
    ensures { Put out.old 0 (explanation_of text.now) out.new result }
{
    let mut table = [0u64; layout::WORDS];
    match text::read(text, &mut table) {
        Err(f) => tell::put_refused(out, 0, f),
        Ok(()) => put_table(&table, out),
    }
}

// Fills a lent buffer with what the program prints for this text.
pub fn explain(text: &[u8], out: &mut [u8]) -> Result<usize, Refusal>
    ensures { ExplainCall text.now out.old out.new result }
{
    if out.len() < explaining::EXPLANATION {
        return too_short();
    }
    Ok(put_text(text, out))
}

// 24, and else what is printed, of an accepted table.
fn explained(t: &[u64], out: &mut [u8]) -> Result<usize, Refusal>
    requires { Image t.now × (accept_of (model_of t.now) ≡ none) }
    ensures { Puts (in_room (length out.old) (explain_model (model_of t.now))) out.old out.new result }
{
    if out.len() < explaining::EXPLANATION {
        return too_short();
    }
    Ok(clashing::put_model(t, out))
}

// As `accept`, then 24; else `confluent`, or the clash that 18 names with the path to it and both orders.
pub fn explain_table(table: &[u64], out: &mut [u8]) -> Result<usize, Refusal>
    ensures { ExplainTableCall table.now out.old out.new result }
{
    admit::accept(table)?;
    explained(table, out)
}
