// What is printed of an accepted model (02, 5/13): `confluent`, or the clash that 18 names with the path to it and both orders.
#![tactic(auto)]

ghost use Rattle.std.specs.Prelude.{◌≡◌, ◌≤◌, length};
ghost use Rattle.std.proofs.Math.Option.{none};
ghost use Rattle.answer.specs.Told.{values_at};
ghost use Rattle.iosa.specs.Checks.{accept_of};
ghost use Rattle.layout.specs.Image.{Image, model_of};
ghost use Rattle.print.specs.Put.{Put};
ghost use Rattle.whys.specs.Explanation.{confluent_line, explain_at, explain_model};
ghost use Rattle.explaining.specs.Longest.{explanation_bytes};
ghost use Rattle.clashing.specs.Placed.{ClashPlace};

use answer::Place;
use fields::Sign;

fn put_confluent(out: &mut [u8]) -> usize
    requires { explanation_bytes ≤ length out.old }
    ensures { Put out.old 0 confluent_line out.new result }
{
    let end = print::put_word(out, 0, b"confluent");
    print::put_byte(out, end, Sign::LF)
}

// The clash at the place of 18, which is no other place.
fn put_place(t: &[u64], p: Place, out: &mut [u8]) -> usize
    requires { Image t.now × ClashPlace t.now p × (explanation_bytes ≤ length out.old) }
    ensures { Put out.old 0 (explain_at (model_of t.now) (values_at p)) out.new result }
{
    let Place::Clash {
        component,
        state,
        lower,
        higher,
    } = p
    else {
        unreachable!()
    };
    explaining::put_explanation(out, t, component, state, lower, higher)
}

// 18 is asked once, and its place is what is explained.
pub fn put_model(t: &[u64], out: &mut [u8]) -> usize
    requires { Image t.now × (accept_of (model_of t.now) ≡ none) × (explanation_bytes ≤ length out.old) }
    ensures { Put out.old 0 (explain_model (model_of t.now)) out.new result }
{
    match admit::check_meeting(t) {
        Err(f) => put_place(t, f.place, out),
        Ok(()) => put_confluent(out),
    }
}
