// The program `why` (paper 02, 5/13): it reads a model text from standard input and writes why it is not confluent, or `confluent`, or the line of a refusal.
// No answer without an input that was read to its end: where a read fails, nothing goes to standard output.
#![tactic(auto)]

ghost use Rattle.std.specs.Prelude.{◌≡◌, length};
ghost use Rattle.whys.specs.Explanation.{explanation_of};
ghost use Rattle.explaining.specs.Longest.{explanation_bytes};
ghost use Rattle.printout.specs.Printed.{Filled};

fn empty_out() -> [u8; explaining::EXPLANATION]
    ensures { explanation_bytes ≡ length result }
{
    [0; explaining::EXPLANATION]
}

// Fills a buffer with what is printed, and answers how long it is. The buffer is long enough, so nothing is refused.
fn filled(input: &[u8], out: &mut [u8]) -> usize
    requires { explanation_bytes ≡ length out.old }
    ensures { Filled (explanation_of input.now) out.new result }
{
    explain::explain(input, out).unwrap()
}

// Writes the answer to an input, or says that it could not.
fn answer(rt: &HostRuntime, input: &[u8]) {
    let mut out = empty_out();
    let k = filled(input, &mut out);
    if let Err(e) = stream::write(rt, &mut rt.stdout(), &out[..k]) {
        failing::say(rt, b"why: the answer could not be written whole", e);
    }
}

fn main(rt: HostRuntime) {
    let mut input = printout::empty_input();
    match stream::read(&rt, &mut rt.stdin(), &mut input) {
        Ok(n) => answer(&rt, &input[..n]),
        Err(e) => failing::say(&rt, b"why: standard input could not be read", e),
    }
}
