// The line that a program writes to standard error where the system fails it.
#![tactic(auto)]

ghost use Rattle.std.specs.Prelude.{◌≡◌, ◌+◌, ◌≤◌, length};
ghost use Rattle.print.specs.Put.{Put};
ghost use Rattle.failing.specs.Line.{error_number, failure_line, longest_what};

const LINE: usize = 128;

fn number(error: i32) -> u64
    ensures { result ≡ error_number error }
{
    if error < 0 { 0 } else { error as u64 }
}

fn put_failure(line: &mut [u8], what: &[u8], error: i32) -> usize
    requires { length what.now + 15 ≤ length line.old }
    ensures { Put line.old 0 (failure_line what.now error) line.new result }
{
    let word = print::put_word(line, 0, what);
    let digits = print::put_word(line, word, b" (error ");
    let close = print::put_decimal(line, digits, number(error));
    print::put_word(line, close, b")\n")
}

// Says on standard error what could not be done, and the number of the error.
pub fn say(rt: &HostRuntime, what: &[u8], error: i32)
    requires { length what.now ≤ longest_what }
{
    let mut line = [0u8; LINE];
    let end = put_failure(&mut line, what, error);
    let _ = stream::write(rt, &mut rt.stderr(), &line[..end]);
}
