// The program `simulate` (paper 02, 4/13): it reads a file of samples and, from standard input, a model text, simulates so many later rounds, and writes
// how that ended, or the line of a refusal; where it is asked to, a line for each round as the round ends.
// No answer without samples and a model that were read to their ends: where a read fails, nothing goes to standard output.
#![tactic(auto)]

ghost use Rattle.std.specs.Prelude.{◌≡◌, ◌≤◌, length};
ghost use Rattle.layout.specs.Image.{Image, model_of};
ghost use Rattle.rounds.specs.Rounds.{Runnable};
ghost use Rattle.steplines.specs.Run.{most_bytes};
ghost use Rattle.printout.specs.Printed.{Printed, Filled};
ghost use Rattle.simulator.specs.Simulated.{ends_text, simulated_text};

use answer::{Model, State};
use feed::Source;
use fields::Cursor;
use rounds::Plan;
use std::fs::File;
use std::rt::Env;

// 64 lines of 4,097 samples have at most 3,671,488 bytes: whatever a simulation can use is shorter than this. What fills it is told, and never cut.
const SAMPLES: usize = 4194304;

// The system's numbers of the errors that are spoken of here: a file that is too large, and a name that is no text.
const EFBIG: i32 = 27;

const EILSEQ: i32 = 84;

// ---- how it ended
fn put_ends(t: &[u64], samples: &[u8], rounds: usize, out: &mut [u8]) -> usize
    requires { Image t.now × (most_bytes ≤ length out.old) }
    ensures { Printed (ends_text (model_of t.now) samples.now rounds) out.old out.new result }
{
    let mut values = [0i64; Model::CLOCKS];
    match simulate::simulate(t, samples, rounds, &mut values) {
        Err(f) => printout::put_refusal(f, out),
        Ok(d) => roundlines::put_ended(out, d.rounds, d.state, enabling::declared(t), &values),
    }
}

fn put_simulated(input: &[u8], samples: &[u8], rounds: usize, out: &mut [u8]) -> usize
    requires { most_bytes ≤ length out.old }
    ensures { Printed (simulated_text input.now samples.now rounds) out.old out.new result }
{
    let mut table = [0u64; layout::WORDS];
    match text::read(input, &mut table) {
        Err(f) => printout::put_refusal(f, out),
        Ok(()) => put_ends(&table, samples, rounds, out),
    }
}

fn filled(input: &[u8], samples: &[u8], rounds: usize, out: &mut [u8]) -> usize
    requires { most_bytes ≡ length out.old }
    ensures { Filled (simulated_text input.now samples.now rounds) out.new result }
{
    put_simulated(input, samples, rounds, out)
}

// Writes how it ended, or says that it could not.
fn answer(rt: &HostRuntime, input: &[u8], samples: &[u8], rounds: usize) {
    let mut out = printout::empty_out();
    let k = filled(input, samples, rounds, &mut out);
    if let Err(e) = stream::write(rt, &mut rt.stdout(), &out[..k]) {
        failing::say(rt, b"simulate: the answer could not be written whole", e);
    }
}

// ---- the lines of the rounds: false says that one was not written. Whatever is refused before round 0 has no line: it is told as the end.
fn lines_of(rt: &HostRuntime, t: &[u64], recorded: &[u8], rounds: usize) -> bool
    requires { Runnable t.now }
{
    if State::BUDGET < rounds {
        return true;
    }
    let mut at = [0usize; Model::CLOCKS];
    match samples::scan(recorded, enabling::declared(t), &mut at) {
        Ok(()) => {
            let plan = Plan {
                from: Source::Lists,
                rounds,
            };
            lining::lines(rt, t, plan, recorded, &[], &mut at)
        }
        Err(_) => true,
    }
}

fn lines_on(rt: &HostRuntime, t: &[u64], recorded: &[u8], rounds: usize) -> bool {
    match orderly::may_walk(t) {
        Ok(()) => lines_of(rt, t, recorded, rounds),
        Err(_) => true,
    }
}

fn lines(rt: &HostRuntime, input: &[u8], recorded: &[u8], rounds: usize) -> bool {
    let mut table = [0u64; layout::WORDS];
    match text::read(input, &mut table) {
        Ok(()) => lines_on(rt, &table, recorded, rounds),
        Err(_) => true,
    }
}

// The rounds are gone through twice: for their lines, as they come, and by the call, whose answer the last lines are.
fn tell(rt: &HostRuntime, input: &[u8], recorded: &[u8], rounds: usize, show: bool) {
    if show && !lines(rt, input, recorded, rounds) {
        return;
    }
    answer(rt, input, recorded, rounds)
}

// ---- the arguments and the two inputs
fn usage(rt: &HostRuntime) {
    let _ = stream::write(
        rt,
        &mut rt.stderr(),
        b"usage: ./simulate [--lines] ROUNDS SAMPLES < MODEL\n",
    );
}

fn with_model(rt: &HostRuntime, samples: &[u8], rounds: usize, show: bool) {
    let mut input = printout::empty_input();
    match stream::read(rt, &mut rt.stdin(), &mut input) {
        Ok(n) => tell(rt, &input[..n], samples, rounds, show),
        Err(e) => failing::say(rt, b"simulate: standard input could not be read", e),
    }
}

// The samples are read into a space that is lent, to the end of the file.
fn read_samples(rt: &HostRuntime, file: &mut File, rounds: usize, show: bool, space: &mut [u8]) {
    match stream::read(rt, file, space) {
        Ok(n) => {
            if n == space.len() {
                failing::say(
                    rt,
                    b"simulate: the file of samples has 4194304 bytes or more",
                    EFBIG,
                );
                return;
            }
            with_model(rt, &space[..n], rounds, show)
        }
        Err(e) => failing::say(rt, b"simulate: the file of samples could not be read", e),
    }
}

// The space stands on the stack once: returned from a function it would stand there twice in a program that is compiled without optimization.
fn with_samples(rt: &HostRuntime, file: &mut File, rounds: usize, show: bool) {
    let mut space = [0u8; SAMPLES];
    read_samples(rt, file, rounds, show, &mut space)
}

// The file of this name.
fn with_name(rt: &HostRuntime, name: &str, rounds: usize, show: bool) {
    match File::open(rt, name) {
        Ok(file) => {
            let mut file = file;
            with_samples(rt, &mut file, rounds, show)
        }
        Err(e) => failing::say(
            rt,
            b"simulate: the file of samples could not be opened",
            stream::number(&e),
        ),
    }
}

// Argument i at a buffer's front, and its length: 0 where it is missing or longer than the buffer.
fn word_at(env: &impl Env, i: usize, word: &mut [u8]) -> usize
    ensures { result ≤ length word.new }
{
    env.arg(i, word).unwrap_or(0)
}

// The file that argument i names.
fn with_file(rt: &HostRuntime, i: usize, rounds: usize, show: bool) {
    let mut path = io::buffer();
    let n = word_at(rt, i, &mut path);
    match str::from_utf8(&path[..n]) {
        Ok(name) => with_name(rt, name, rounds, show),
        Err(_) => failing::say(
            rt,
            b"simulate: the file of samples could not be opened",
            EILSEQ,
        ),
    }
}

// The number that the whole of a word is.
fn rounds_in(word: &[u8]) -> Option<usize> {
    match fields::number(word, Cursor { at: 0 }) {
        Ok((c, n)) if c.at == word.len() => Some(n as usize),
        _ => None,
    }
}

// ROUNDS is argument i, and SAMPLES argument j.
fn from_arguments(rt: &HostRuntime, i: usize, j: usize, show: bool) {
    let mut word = io::buffer();
    let n = word_at(rt, i, &mut word);
    match rounds_in(&word[..n]) {
        Some(k) => with_file(rt, j, k, show),
        None => usage(rt),
    }
}

// `./simulate` sees to it that the first of three arguments is `--lines`.
fn main(rt: HostRuntime) {
    if arguments::count(&rt) == 3 {
        from_arguments(&rt, 1, 2, false);
    } else if arguments::count(&rt) == 4 {
        from_arguments(&rt, 2, 3, true);
    } else {
        usage(&rt);
    }
}
