// The program `check` (paper 01, conditions and confluence; paper 02, 8/13): it reads a model text from standard input and writes the test that the model passes,
// `confluent` or else `orderly`, or the line of a refusal.
// No answer without an input that was read to its end: where a read fails, nothing goes to standard output.
#![tactic(auto)]

ghost use Rattle.std.specs.Prelude.{◌≡◌, ◌≤◌, length};
ghost use Rattle.layout.specs.Image.{Image, model_of};
ghost use Rattle.steplines.specs.Run.{most_bytes};
ghost use Rattle.printout.specs.Printed.{Printed, Filled};
ghost use Rattle.checker.specs.Tested.{else_text, tested_text, checked_text};

// The second test, of a model that is not confluent alone.
fn put_else(t: &[u64], out: &mut [u8]) -> usize
    requires { Image t.now × (most_bytes ≤ length out.old) }
    ensures { Printed (else_text (model_of t.now)) out.old out.new result }
{
    match orderly::orderly(t) {
        Err(f) => printout::put_refusal(f, out),
        Ok(()) => print::put_word(out, 0, b"orderly\n"),
    }
}

fn put_tested(t: &[u64], out: &mut [u8]) -> usize
    requires { Image t.now × (most_bytes ≤ length out.old) }
    ensures { Printed (tested_text (model_of t.now)) out.old out.new result }
{
    match admit::confluent(t) {
        Err(_) => put_else(t, out),
        Ok(()) => print::put_word(out, 0, b"confluent\n"),
    }
}

fn put_checked(input: &[u8], out: &mut [u8]) -> usize
    requires { most_bytes ≤ length out.old }
    ensures { Printed (checked_text input.now) out.old out.new result }
{
    let mut table = [0u64; layout::WORDS];
    match text::read(input, &mut table) {
        Err(f) => printout::put_refusal(f, out),
        Ok(()) => put_tested(&table, out),
    }
}

fn filled(input: &[u8], out: &mut [u8]) -> usize
    requires { most_bytes ≡ length out.old }
    ensures { Filled (checked_text input.now) out.new result }
{
    put_checked(input, out)
}

// Writes the answer to an input, or says that it could not.
fn answer(rt: &HostRuntime, input: &[u8]) {
    let mut out = printout::empty_out();
    let k = filled(input, &mut out);
    if let Err(e) = stream::write(rt, &mut rt.stdout(), &out[..k]) {
        failing::say(rt, b"check: the answer could not be written whole", e);
    }
}

fn main(rt: HostRuntime) {
    let mut input = printout::empty_input();
    match stream::read(&rt, &mut rt.stdin(), &mut input) {
        Ok(n) => answer(&rt, &input[..n]),
        Err(e) => failing::say(&rt, b"check: standard input could not be read", e),
    }
}
