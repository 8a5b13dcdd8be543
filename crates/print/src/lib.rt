// Fields of a text, put into a lent buffer at a place. Each function answers the place behind what it put, and leaves every other byte.
#![tactic(auto)]

ghost use Rattle.std.specs.Prelude.{[], ◌∷◌, ◌≤◌, ◌<◌, length};
ghost use Rattle.answer.specs.Limits.{max_components};
ghost use Rattle.answer.specs.State.{parts_of};
ghost use Rattle.model.specs.Text.{decimal, joined, guard_field, set_field};
ghost use Rattle.print.specs.Put.{Room, Put, leading};

use answer::State;
use fields::Sign;

pub fn put_byte(out: &mut [u8], at: usize, b: u8) -> usize
    requires { at < length out.old }
    ensures { Put out.old at (b ∷ []) out.new result }
{
    out[at] = b;
    at + 1
}

pub fn put_word(out: &mut [u8], at: usize, w: &[u8]) -> usize
    requires { Room out.old at w.now }
    ensures { Put out.old at w.now out.new result }
{
    for i in 0..w.len() {
        out[at + i] = w[i];
    }
    at + w.len()
}

// The digit of a scale, unless the number is below it.
fn put_leading(out: &mut [u8], at: usize, n: u64, scale: u64) -> usize
    requires { (0 < scale) × Room out.old at (leading n scale) }
    ensures { Put out.old at (leading n scale) out.new result }
{
    if n < scale {
        return at;
    }
    put_byte(out, at, Sign::ZERO + (n / scale % 10) as u8)
}

// A number of at most five digits; of a greater one the last five.
pub fn put_decimal(out: &mut [u8], at: usize, n: u64) -> usize
    requires { Room out.old at (decimal n) }
    ensures { Put out.old at (decimal n) out.new result }
{
    let a = put_leading(out, at, n, 10000);
    let b = put_leading(out, a, n, 1000);
    let c = put_leading(out, b, n, 100);
    let d = put_leading(out, c, n, 10);
    put_byte(out, d, Sign::ZERO + (n % 10) as u8)
}

// A number behind a tab or a comma.
pub fn put_behind(out: &mut [u8], at: usize, sign: u8, n: u64) -> usize
    requires { Room out.old at (sign ∷ decimal n) }
    ensures { Put out.old at (sign ∷ decimal n) out.new result }
{
    let next = put_byte(out, at, sign);
    put_decimal(out, next, n)
}

pub fn put_guard(out: &mut [u8], at: usize, g: u64) -> usize
    requires { Room out.old at (guard_field g) }
    ensures { Put out.old at (guard_field g) out.new result }
{
    if g == 0 {
        return put_byte(out, at, Sign::DASH);
    }
    put_decimal(out, at, g - 1)
}

// The members from the lowest on: as many turns as there are members.
pub fn put_set(out: &mut [u8], at: usize, s: u64) -> usize
    requires { Room out.old at (set_field s) }
    ensures { Put out.old at (set_field s) out.new result }
{
    if s == 0 {
        return put_byte(out, at, Sign::DASH);
    }
    let first = sets::lowest(s);
    let mut next = put_decimal(out, at, first);
    let mut left = sets::minus(s, sets::single(first));
    while left != 0 {
        let x = sets::lowest(left);
        next = put_behind(out, next, Sign::COMMA, x);
        left = sets::minus(left, sets::single(x));
    }
    next
}

// "a composed state is one number per component".
pub fn put_state(out: &mut [u8], at: usize, x: State) -> usize
    requires { (x.count ≤ max_components) × Room out.old at (joined (parts_of x)) }
    ensures { Put out.old at (joined (parts_of x)) out.new result }
{
    let n = x.count;
    if n == 0 {
        return at;
    }
    let mut next = put_decimal(out, at, x.parts[0] as u64);
    for i in 1..n {
        next = put_behind(out, next, Sign::COMMA, x.parts[i] as u64);
    }
    next
}
