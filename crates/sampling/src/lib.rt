// A draw as a round ends: from the distribution at a clock's place in the file, by the clock's next lent numbers.
#![tactic(auto)]

ghost use Rattle.std.specs.Prelude.{◌≡◌, ℕ, ◌<◌, T};
ghost use Rattle.std.proofs.Math.Option.{some};
ghost use Rattle.answer.specs.Limits.{max_clocks};
ghost use Rattle.draw.specs.Draw.{lawful};
ghost use Rattle.drawing.specs.Draws.{lent};
ghost use Rattle.distributions.specs.Found.{law_in};
ghost use Rattle.sampling.specs.Sampling.{number_in, OneNumber, TwoNumbers, DrawGives};

use answer::Model;
use draw::Law;
use fields::Cursor;

// Number k of clock x: word 64 k + x of the lent numbers, if there is one.
fn number_at(numbers: &[u64], x: u64, k: usize) -> Option<u64>
    requires { x < max_clocks }
    ensures { number_in result ≡ lent numbers.now x k }
{
    if numbers.len() / Model::CLOCKS < k {
        return None;
    }
    let row = k * Model::CLOCKS;
    let i = x as usize;
    if numbers.len() - row <= i {
        return None;
    }
    Some(numbers[row + i])
}

// A range takes one number: the ticks, and how many numbers the clock has taken then; or there are not enough.
fn by_one(law: Law, numbers: &[u64], x: u64, used: usize) -> Option<(u64, usize)>
    requires { (x < max_clocks) × T (lawful law) × OneNumber law }
    ensures { DrawGives (some law) (lent numbers.now x) used result }
{
    let n = number_at(numbers, x, used)?;
    Some((draw::draw(law, n, n), used + 1))
}

// A mixture takes two.
fn by_two(law: Law, numbers: &[u64], x: u64, used: usize) -> Option<(u64, usize)>
    requires { (x < max_clocks) × T (lawful law) × TwoNumbers law }
    ensures { DrawGives (some law) (lent numbers.now x) used result }
{
    let m = number_at(numbers, x, used)?;
    let n = number_at(numbers, x, used + 1)?;
    Some((draw::draw(law, m, n), used + 2))
}

fn by_law(law: Law, numbers: &[u64], x: u64, used: usize) -> Option<(u64, usize)>
    requires { (x < max_clocks) × T (lawful law) }
    ensures { DrawGives (some law) (lent numbers.now x) used result }
{
    match law {
        Law::Uniform(_, _) => by_one(law, numbers, x, used),
        Law::Mixture(_, _, _, _, _) => by_two(law, numbers, x, used),
    }
}

// A draw of clock x from the distribution that stands at a place of the file, if one does, after so many numbers.
pub fn draw_at(text: &[u8], numbers: &[u64], x: u64, at: usize, used: usize) -> Option<(u64, usize)>
    requires { x < max_clocks }
    ensures { DrawGives (law_in text.now at) (lent numbers.now x) used result }
{
    match distributions::law_at(text, Cursor { at }) {
        Ok((_, law)) => by_law(law, numbers, x, used),
        Err(_) => None,
    }
}
