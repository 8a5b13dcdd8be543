// What the programs have in common that read a text and print what a call answers: their buffers, and the answer at a buffer's front.
#![tactic(auto)]

ghost use Rattle.std.specs.Prelude.{◌≡◌, ◌+◌, ◌≤◌, length};
ghost use Rattle.answer.specs.Limits.{max_bytes};
ghost use Rattle.model.specs.Text.{text_of};
ghost use Rattle.layout.specs.Image.{Image, model_of};
ghost use Rattle.tell.specs.Tell.{refused_text};
ghost use Rattle.steplines.specs.Run.{most_bytes};
ghost use Rattle.printout.specs.Printed.{Printed};

use answer::{Model, Refusal};

// A text, and the byte that makes it too long: what is wrong with a longer one is told from no more than these.
pub const INPUT: usize = Model::BYTES + 1;

// Two empty buffers, of which only the lengths matter.
pub fn empty_input() -> [u8; INPUT]
    ensures { max_bytes + 1 ≡ length result }
{
    [0; INPUT]
}

// Longer than any text and any line of a refusal.
pub fn empty_out() -> [u8; steplines::REPORT]
    ensures { most_bytes ≡ length result }
{
    [0; steplines::REPORT]
}

// The line of a refusal.
pub fn put_refusal(f: Refusal, out: &mut [u8]) -> usize
    requires { most_bytes ≤ length out.old }
    ensures { Printed (refused_text f) out.old out.new result }
{
    tell::put_refused(out, 0, f)
}

// The text of a table's model.
pub fn put_model(t: &[u64], out: &mut [u8]) -> usize
    requires { Image t.now × (most_bytes ≤ length out.old) }
    ensures { Printed (text_of (model_of t.now)) out.old out.new result }
{
    writing::write_text(t, out)
}
