// The program `mend` (paper 02, 1/13): it reads a model text from standard input and writes the repaired text, or the line of a refusal.
// No answer without an input that was read to its end: where a read fails, nothing goes to standard output.
#![tactic(auto)]

ghost use Rattle.std.specs.Prelude.{◌≡◌, ◌*◌, ◌≤◌, length};
ghost use Rattle.layout.specs.Image.{Image, model_of};
ghost use Rattle.lacking.specs.Walk.{cell_bytes, most_cells};
ghost use Rattle.steplines.specs.Run.{most_bytes};
ghost use Rattle.printout.specs.Printed.{Printed, Filled};
ghost use Rattle.mend.specs.Mended.{repaired_text, mended_text};

use answer::Model;

// Three bytes for every state and action of the largest model, so that 24 never comes.
const LIST: usize = 3 * (Model::ACTIONS * Model::STATES * Model::COMPONENTS);

fn empty_list() -> [u8; LIST]
    ensures { cell_bytes * most_cells ≡ length result }
{
    [0; LIST]
}

// The text of the repaired model, or why it cannot be.
fn put_repaired(t: &mut [u64], out: &mut [u8]) -> usize
    requires { Image t.old × (most_bytes ≤ length out.old) }
    ensures { Printed (repaired_text (model_of t.old)) out.old out.new result }
{
    let mut list = empty_list();
    match repair::repair(t, &mut list) {
        Err(f) => printout::put_refusal(f, out),
        Ok(_) => printout::put_model(t, out),
    }
}

fn put_mended(input: &[u8], out: &mut [u8]) -> usize
    requires { most_bytes ≤ length out.old }
    ensures { Printed (mended_text input.now) out.old out.new result }
{
    let mut table = [0u64; layout::WORDS];
    match text::read(input, &mut table) {
        Err(f) => printout::put_refusal(f, out),
        Ok(()) => put_repaired(&mut table, out),
    }
}

fn filled(input: &[u8], out: &mut [u8]) -> usize
    requires { most_bytes ≡ length out.old }
    ensures { Filled (mended_text input.now) out.new result }
{
    put_mended(input, out)
}

// Writes the answer to an input, or says that it could not.
fn answer(rt: &HostRuntime, input: &[u8]) {
    let mut out = printout::empty_out();
    let k = filled(input, &mut out);
    if let Err(e) = stream::write(rt, &mut rt.stdout(), &out[..k]) {
        failing::say(rt, b"mend: the text could not be written whole", e);
    }
}

fn main(rt: HostRuntime) {
    let mut input = printout::empty_input();
    match stream::read(&rt, &mut rt.stdin(), &mut input) {
        Ok(n) => answer(&rt, &input[..n]),
        Err(e) => failing::say(&rt, b"mend: standard input could not be read", e),
    }
}
