// What the programs `numbers` and `names` have in common: what a call that converts a text answered, printed.
#![tactic(auto)]

ghost use Rattle.std.specs.Prelude.{◌≡◌, List, ℕ, length};
ghost use Rattle.answer.specs.Told.{Answer};
ghost use Rattle.steplines.specs.Run.{most_bytes};
ghost use Rattle.printout.specs.Printed.{Printed};
ghost use Rattle.named.specs.Converted.{Converts};
ghost use Rattle.converting.specs.Converting.{converted_text};

use answer::Refusal;

// The text that the call wrote stands there already; of a refusal, its line.
pub fn put_converted(r: Result<usize, Refusal>, out: &mut [u8]) -> usize
    requires { most_bytes ≡ length out.old }
    ensures { (o : Answer (List ℕ)) (old : List ℕ) → most_bytes ≡ length old → Converts o old out.old r → Printed (converted_text o) old out.new result }
{
    match r {
        Ok(k) => k,
        Err(f) => printout::put_refusal(f, out),
    }
}
