// The program `numbers` (paper 02, 7/13): it reads a text of the second form from standard input and writes the old text, or the line of a refusal.
// No answer without an input that was read to its end: where a read fails, nothing goes to standard output.
#![tactic(auto)]

ghost use Rattle.std.specs.Prelude.{◌≡◌, length};
ghost use Rattle.steplines.specs.Run.{most_bytes};
ghost use Rattle.printout.specs.Printed.{Printed, Filled};
ghost use Rattle.numbers.specs.Numbered.{numbered_text};

fn put_numbers(input: &[u8], out: &mut [u8]) -> usize
    requires { most_bytes ≡ length out.old }
    ensures { Printed (numbered_text input.now) out.old out.new result }
{
    let r = names::to_numbers(input, out);
    converting::put_converted(r, out)
}

fn filled(input: &[u8], out: &mut [u8]) -> usize
    requires { most_bytes ≡ length out.old }
    ensures { Filled (numbered_text input.now) out.new result }
{
    put_numbers(input, out)
}

// Writes the answer to an input, or says that it could not.
fn answer(rt: &HostRuntime, input: &[u8]) {
    let mut out = printout::empty_out();
    let k = filled(input, &mut out);
    if let Err(e) = stream::write(rt, &mut rt.stdout(), &out[..k]) {
        failing::say(rt, b"numbers: the text could not be written whole", e);
    }
}

// A text over 32,768 bytes is 1, whatever it holds, so what does not fit is not needed.
fn main(rt: HostRuntime) {
    let mut input = printout::empty_input();
    match stream::read(&rt, &mut rt.stdin(), &mut input) {
        Ok(n) => answer(&rt, &input[..n]),
        Err(e) => failing::say(&rt, b"numbers: standard input could not be read", e),
    }
}
