// What a reader gives, read to its end, and bytes written to one whole. What the system fails at is told apart from what ends.
// No contract can say what the system reads or writes: what its answers mean is said by `meant`, and all else follows that.
#![tactic(auto)]

ghost use Rattle.std.specs.Prelude.{◌≡◌, ◌-◌, ◌≤◌, IfSome, length};
ghost use Rattle.std.specs.IoError.{raw_os_error};
ghost use Rattle.stream.specs.Stream.{tried_of, Tries, Gets, AtMost, Within, Whole};

use std::io::{ErrorKind, Read, Write};
use std::time::{Clock, Duration};
use std::{io, thread};

// How often a call that is to be tried again is tried: no run uses them up, and a proved loop ends.
const TRIES: u64 = u64::MAX;

// How much is read behind a full buffer.
const BEHIND: usize = 1 << 30;

// The system's numbers of the errors that are spoken of here.
const EINTR: i32 = 4;

const EIO: i32 = 5;

const EAGAIN: i32 = 11;

// What one call of the system's came to: so many bytes, of which none is the end of an input; nothing, where it was interrupted or
// would have had to wait; or the number of the error.
type Tried = Result<Option<usize>, i32>;

// Only an answer below zero is a failure, and only these two errors pass by themselves.
fn meant(got: isize, error: i32) -> Tried
    ensures { result ≡ tried_of got error }
{
    if got >= 0 {
        return Ok(Some(got as usize));
    }
    if error == EINTR {
        return Ok(None);
    }
    if error == EAGAIN {
        return Ok(None);
    }
    Err(error)
}

// The number of an error, the system's own where it has one.
pub fn number(error: &io::Error) -> i32
    ensures { IfSome (raw_os_error error.now) (λ code. result ≡ code) }
{
    match error.raw_os_error() {
        Some(code) => code,
        None => match error.kind() {
            ErrorKind::Interrupted => EINTR,
            ErrorKind::WouldBlock => EAGAIN,
            _ => EIO,
        },
    }
}

// Waits a hundredth of a second.
fn pause(clock: &impl Clock) {
    thread::sleep(clock, Duration::from_millis(10));
}

// One read into a buffer from a place on: what stands before the place stays.
fn try_read<R: Read>(input: &mut R, buf: &mut [u8], from: usize) -> Tried
    requires { from ≤ length buf.old }
    ensures { Tries buf.old from buf.new result }
{
    match input.read(&mut buf[from..]) {
        Ok(n) => meant(n as isize, 0),
        Err(e) => meant(-1, number(&e)),
    }
}

// Reads until something comes of it.
fn read_some<R: Read>(
    clock: &impl Clock,
    input: &mut R,
    buf: &mut [u8],
    from: usize,
) -> Result<usize, i32>
    requires { from ≤ length buf.old }
    ensures { Gets buf.old from buf.new result }
{
    for _ in 0..TRIES {
        if let Some(n) = try_read(input, buf, from)? {
            return Ok(n);
        }
        pause(clock);
    }
    Err(EAGAIN)
}

// Reads until a buffer is full or the input ends.
fn fill<R: Read>(clock: &impl Clock, input: &mut R, buf: &mut [u8]) -> Result<usize, i32>
    ensures { Within (length buf.new) result }
{
    let mut done = 0;
    while done < buf.len() {
        let n = read_some(clock, input, buf, done)?;
        if n == 0 {
            break;
        }
        done += n;
    }
    Ok(done)
}

// Reads on to the end of the input, or for so many bytes, and keeps none.
fn skip<R: Read>(clock: &impl Clock, input: &mut R, most: usize) -> Result<(), i32> {
    let mut space = [0u8; 65536];
    let chunk: &mut [u8] = &mut space;
    let mut left = most;
    while left > 0 {
        let n = read_some(clock, input, chunk, 0)?;
        if n == 0 {
            break;
        }
        left = left.saturating_sub(n);
    }
    Ok(())
}

// Reads the input to its end, and answers how many of its bytes stand at the front of a buffer, or the error at which it stopped.
// What no longer fits is read too, so that whoever sends it can end: up to BEHIND bytes, since not every input ends.
pub fn read<R: Read>(clock: &impl Clock, input: &mut R, buf: &mut [u8]) -> Result<usize, i32>
    ensures { Within (length buf.new) result }
{
    let n = fill(clock, input, buf)?;
    if n == buf.len() {
        skip(clock, input, BEHIND)?;
    }
    Ok(n)
}

// One write of a buffer from a place on.
fn try_write<W: Write>(output: &mut W, buf: &[u8], from: usize) -> Tried
    requires { from ≤ length buf.now }
    ensures { AtMost (length buf.now - from) result }
{
    match output.write(&buf[from..]) {
        Ok(n) => meant(n as isize, 0),
        Err(e) => meant(-1, number(&e)),
    }
}

// Writes until something comes of it.
fn write_some<W: Write>(
    clock: &impl Clock,
    output: &mut W,
    buf: &[u8],
    from: usize,
) -> Result<usize, i32>
    requires { from ≤ length buf.now }
    ensures { Within (length buf.now - from) result }
{
    for _ in 0..TRIES {
        if let Some(n) = try_write(output, buf, from)? {
            return Ok(n);
        }
        pause(clock);
    }
    Err(EAGAIN)
}

// Writes a buffer whole, and answers its length, or the error at which it stopped.
pub fn write<W: Write>(clock: &impl Clock, output: &mut W, buf: &[u8]) -> Result<usize, i32>
    ensures { Whole (length buf.now) result }
{
    let mut done = 0;
    while done < buf.len() {
        let n = write_some(clock, output, buf, done)?;
        if n == 0 {
            return Err(EIO);
        }
        done += n;
    }
    Ok(done)
}
