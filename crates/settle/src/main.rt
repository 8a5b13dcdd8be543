// The program `settle` (paper 01, "The program and its example"): it reads standard input, calls `report`, and writes what that filled.
// No answer without an input that was read to its end: where a read fails, nothing goes to standard output.
#![tactic(auto)]

ghost use Rattle.std.specs.Prelude.{◌≡◌, ◌+◌, length};
ghost use Rattle.answer.specs.Limits.{max_request, max_bytes};
ghost use Rattle.steplines.specs.Run.{most_bytes};
ghost use Rattle.settle.specs.Filled.{Filled};

use answer::Model;

// A request line, a text, and the byte that makes it too long: 9 and 1 are told from no more than these.
const INPUT: usize = Model::REQUEST + Model::BYTES + 1;

// Two empty buffers, of which only the lengths matter.
fn empty_input() -> [u8; INPUT]
    ensures { max_request + max_bytes + 1 ≡ length result }
{
    [0; INPUT]
}

fn empty_report() -> [u8; steplines::REPORT]
    ensures { most_bytes ≡ length result }
{
    [0; steplines::REPORT]
}

// Fills a buffer with the report on an input, and answers how long it is. The buffer is long enough, so nothing is refused.
fn filled(input: &[u8], out: &mut [u8]) -> usize
    requires { most_bytes ≡ length out.old }
    ensures { Filled input.now out.new result }
{
    match report::report(input, out) {
        Ok(k) => k,
        Err(_) => 0,
    }
}

// Writes the report on an input, or says that it could not.
fn answer(rt: &HostRuntime, input: &[u8]) {
    let mut out = empty_report();
    let k = filled(input, &mut out);
    if let Err(e) = stream::write(rt, &mut rt.stdout(), &out[..k]) {
        failing::say(rt, b"settle: the report could not be written whole", e);
    }
}

fn main(rt: HostRuntime) {
    let mut input = empty_input();
    match stream::read(&rt, &mut rt.stdin(), &mut input) {
        Ok(n) => answer(&rt, &input[..n]),
        Err(e) => failing::say(&rt, b"settle: standard input could not be read", e),
    }
}
