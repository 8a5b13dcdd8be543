// The program `tree` (paper 02, 9/13): it reads the text of a repairable fault tree from standard input and writes the text of its model, or the line of a refusal.
// No answer without an input that was read to its end: where a read fails, nothing goes to standard output.
#![tactic(auto)]

ghost use Rattle.std.specs.Prelude.{◌≡◌, ◌≤◌, length};
ghost use Rattle.steplines.specs.Run.{most_bytes};
ghost use Rattle.printout.specs.Printed.{Printed, Filled};
ghost use Rattle.tree.specs.Modelled.{model_text};

fn put_tree(input: &[u8], out: &mut [u8]) -> usize
    requires { most_bytes ≤ length out.old }
    ensures { Printed (model_text input.now) out.old out.new result }
{
    let mut table = [0u64; layout::WORDS];
    let checked = plant::read_tree(input, &mut table);
    match checked {
        Err(f) => printout::put_refusal(f, out),
        Ok(()) => printout::put_model(&table, out),
    }
}

fn filled(input: &[u8], out: &mut [u8]) -> usize
    requires { most_bytes ≡ length out.old }
    ensures { Filled (model_text input.now) out.new result }
{
    put_tree(input, out)
}

// Writes the answer to an input, or says that it could not.
fn answer(rt: &HostRuntime, input: &[u8]) {
    let mut out = printout::empty_out();
    let k = filled(input, &mut out);
    if let Err(e) = stream::write(rt, &mut rt.stdout(), &out[..k]) {
        failing::say(rt, b"tree: the text could not be written whole", e);
    }
}

// A tree's text is judged no later than in its 65th line, so what does not fit is not needed.
fn main(rt: HostRuntime) {
    let mut input = printout::empty_input();
    match stream::read(&rt, &mut rt.stdin(), &mut input) {
        Ok(n) => answer(&rt, &input[..n]),
        Err(e) => failing::say(&rt, b"tree: standard input could not be read", e),
    }
}
