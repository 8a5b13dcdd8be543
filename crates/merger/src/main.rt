// The program `merge` (paper 01, composition): it reads a model text from standard input and writes the text of the model in which the component that its
// argument names and the next one are their product, or the line of a refusal.
// No answer without an input that was read to its end: where a read fails, nothing goes to standard output.
#![tactic(auto)]

ghost use Rattle.std.specs.Prelude.{◌≡◌, ◌≤◌, length};
ghost use Rattle.layout.specs.Image.{Image, model_of};
ghost use Rattle.steplines.specs.Run.{most_bytes};
ghost use Rattle.printout.specs.Printed.{Printed, Filled};
ghost use Rattle.merger.specs.Merged.{joined_text, merged_text};

fn put_joined(t: &[u64], i: usize, out: &mut [u8]) -> usize
    requires { Image t.now × (most_bytes ≤ length out.old) }
    ensures { Printed (joined_text i (model_of t.now)) out.old out.new result }
{
    let mut into = [0u64; layout::WORDS];
    match merge::merge(t, i, &mut into) {
        Err(f) => printout::put_refusal(f, out),
        Ok(()) => printout::put_model(&into, out),
    }
}

fn put_merged(input: &[u8], i: usize, out: &mut [u8]) -> usize
    requires { most_bytes ≤ length out.old }
    ensures { Printed (merged_text i input.now) out.old out.new result }
{
    let mut table = [0u64; layout::WORDS];
    match text::read(input, &mut table) {
        Err(f) => printout::put_refusal(f, out),
        Ok(()) => put_joined(&table, i, out),
    }
}

fn filled(input: &[u8], i: usize, out: &mut [u8]) -> usize
    requires { most_bytes ≡ length out.old }
    ensures { Filled (merged_text i input.now) out.new result }
{
    put_merged(input, i, out)
}

// Writes the answer to an input, or says that it could not.
fn answer(rt: &HostRuntime, input: &[u8], i: usize) {
    let mut out = printout::empty_out();
    let k = filled(input, i, &mut out);
    if let Err(e) = stream::write(rt, &mut rt.stdout(), &out[..k]) {
        failing::say(rt, b"merge: the text could not be written whole", e);
    }
}

fn with_model(rt: &HostRuntime, i: usize) {
    let mut input = printout::empty_input();
    match stream::read(rt, &mut rt.stdin(), &mut input) {
        Ok(n) => answer(rt, &input[..n], i),
        Err(e) => failing::say(rt, b"merge: standard input could not be read", e),
    }
}

fn usage(rt: &HostRuntime) {
    let _ = stream::write(rt, &mut rt.stderr(), b"usage: ./merge COMPONENT < MODEL\n");
}

fn main(rt: HostRuntime) {
    match arguments::only_number(&rt) {
        Some(i) => with_model(&rt, i),
        None => usage(&rt),
    }
}
