// Clocks drawn from distributions: the rule of a draw, and the tests of the numbers that a distribution is given by.
#![tactic(auto)]

ghost use Rattle.std.specs.Prelude.{◌≡◌, T};
ghost use Rattle.draw.specs.Draw.{unit, ticks, drawn, end_of, within, ranged, weighed, lawful, Between};

// A distribution: a range by its lower and its upper end; or a weight and two ranges.
#[derive(Clone, Copy)]
pub enum Law {
    Uniform(f64, f64),
    Mixture(f64, f64, f64, f64, f64),
}

// The top 53 bits of n, divided by 2^53.
fn unit_of(n: u64) -> f64
    ensures { result ≡ unit n }
{
    let top = n / 2048;
    (top as f64) / 9007199254740992.0
}

// A draw from a range: three operations, each rounded once, and held within the two ends.
fn ticks_of(lower: f64, upper: f64, n: u64) -> u64
    requires { T (ranged lower upper) }
    ensures { result ≡ ticks lower upper n }
{
    let u = unit_of(n);
    let width = upper - lower;
    let part = u * width;
    let v = lower + part;
    let h = v.clamp(lower, upper);
    std::num::truncating_f64_to_u64(h)
}

// A draw: a range takes the first number; a mixture picks by the first, and the second is for the range picked.
pub fn draw(law: Law, first: u64, second: u64) -> u64
    requires { T (lawful law) }
    ensures { (result ≡ drawn law first second) × Between (end_of law first) result }
{
    match law {
        Law::Uniform(a, b) => ticks_of(a, b, first),
        Law::Mixture(w, a, b, c, d) => {
            let u = unit_of(first);
            if u < w {
                ticks_of(a, b, second)
            } else {
                ticks_of(c, d, second)
            }
        }
    }
}

fn is_within(x: f64) -> bool
    ensures { result ≡ within x }
{
    1.0 <= x && x <= 1099511627776.0
}

#[tactic(auto, unfolding(crate::specs::Draw::ranged))]
fn is_ranged(lower: f64, upper: f64) -> bool
    ensures { result ≡ ranged lower upper }
{
    is_within(lower) && is_within(upper) && lower <= upper
}

#[tactic(auto, unfolding(crate::specs::Draw::weighed))]
fn is_weight(w: f64) -> bool
    ensures { result ≡ weighed w }
{
    0.0 <= w && w <= 1.0
}

// Whether every end is within 1 to 2^40, the ends are in order, and the weight is within 0 to 1.
#[tactic(auto, unfolding(crate::specs::Draw::lawful))]
pub fn is_lawful(law: Law) -> bool
    ensures { result ≡ lawful law }
{
    match law {
        Law::Uniform(a, b) => is_ranged(a, b),
        Law::Mixture(w, a, b, c, d) => is_weight(w) && is_ranged(a, b) && is_ranged(c, d),
    }
}
