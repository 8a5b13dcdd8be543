// Clock values in signed ticks: the range of 28, the tests of 29 and 30, the least value, and the fall.
#![tactic(auto)]

ghost use Rattle.std.specs.Prelude.{◌≡◌, ℕ, ◌<◌, length, IfSome};
ghost use Rattle.answer.specs.Limits.{max_clocks};
ghost use Rattle.laws.specs.Sets.{◌∈◌};
ghost use Rattle.laws.specs.Search.{any, least};
ghost use Rattle.timing.specs.Timed.{fallen, aged_from, check29, is_least};
ghost use Rattle.iosa.specs.TimedExactly.{value_of};
ghost use Rattle.ticks.specs.Ticks.{Tick, Ticking, outside, negative, rivals, aged_one, better_of, by_value, clock_of};

use answer::{Model, State};

// Where a clock that runs on stops.
const FLOOR: i64 = -State::TICKS;

// A value less v, and no less than the floor.
#[tactic(auto, unfolding(timing::specs::Timed::fallen))]
pub fn fall(z: i64, v: i64) -> i64
    requires { Tick z × Tick v }
    ensures { result ≡ fallen v z }
{
    (z - v).max(FLOOR)
}

// One clock's value after v ticks: it falls where the clock is declared.
#[tactic(auto, unfolding(crate::specs::Ticks::aged_one))]
pub fn aged_one(d: u64, v: i64, k: u64, z: i64) -> i64
    requires { (k < max_clocks) × Tick v × (k ∈ d → Tick z) }
    ensures { result ≡ aged_one d v k z }
{
    if sets::has(d, k) { fall(z, v) } else { z }
}

// Every declared clock falls by v.
pub fn age(values: &mut [i64], d: u64, v: i64)
    requires { Ticking d values.old × Tick v }
    ensures { values.new ≡ aged_from d v 0 values.old }
{
    let mut left = d;
    while left != 0 {
        let k = sets::lowest(left);
        let z = values[k as usize];
        values[k as usize] = aged_one(d, v, k, z);
        left = sets::minus(left, sets::single(k));
    }
}

// A declared clock outside its range.
#[tactic(auto, unfolding(crate::specs::Ticks::outside))]
pub fn is_outside(d: u64, k: u64, z: i64) -> bool
    requires { k < max_clocks }
    ensures { result ≡ outside d k z }
{
    sets::has(d, k) && (z < FLOOR || State::TICKS < z)
}

pub fn any_outside(values: &[i64], d: u64) -> bool
    requires { length values.now ≡ max_clocks }
    ensures { result ≡ any (by_value (outside d) values.now) max_clocks }
{
    for k in 0..Model::CLOCKS {
        let z = values[k];
        if is_outside(d, k as u64, z) {
            return true;
        }
    }
    false
}

// An enabling clock below zero.
#[tactic(auto, unfolding(crate::specs::Ticks::negative))]
pub fn is_negative(e: u64, k: u64, z: i64) -> bool
    requires { k < max_clocks }
    ensures { result ≡ negative e k z }
{
    sets::has(e, k) && z < 0
}

// The lowest enabling clock below zero.
pub fn below_zero(values: &[i64], e: u64) -> Option<u64>
    requires { length values.now ≡ max_clocks }
    ensures { result ≡ clock_of (check29 e values.now) }
{
    let mut left = e;
    while left != 0 {
        let k = sets::lowest(left);
        let z = values[k as usize];
        if is_negative(e, k, z) {
            return Some(k);
        }
        left = sets::minus(left, sets::single(k));
    }
    None
}

// Of the clock found so far and the next, the one with the lesser value.
#[tactic(auto, unfolding(crate::specs::Ticks::better_of))]
pub fn better(values: &[i64], e: u64, b: Option<u64>, k: u64) -> Option<u64>
    requires { (length values.now ≡ max_clocks) × IfSome b (λ x. x < max_clocks) × (k < max_clocks) }
    ensures { result ≡ better_of e values.now b k }
{
    let lesser = match b {
        Some(at) => values[k as usize] < values[at as usize],
        None => true,
    };
    if sets::has(e, k) && lesser {
        Some(k)
    } else {
        b
    }
}

// The lowest enabling clock with the least value.
pub fn least(values: &[i64], e: u64) -> Option<u64>
    requires { length values.now ≡ max_clocks }
    ensures { result ≡ clock_of (least (is_least e values.now) max_clocks) }
{
    let mut best = None;
    let mut left = e;
    while left != 0 {
        let k = sets::lowest(left);
        best = better(values, e, best, k);
        left = sets::minus(left, sets::single(k));
    }
    best
}

// Another enabling clock than x whose value is not above v.
#[tactic(auto, unfolding(crate::specs::Ticks::rivals))]
pub fn is_rival(e: u64, x: u64, v: i64, k: u64, z: i64) -> bool
    requires { k < max_clocks }
    ensures { result ≡ rivals e x v k z }
{
    sets::has(e, k) && k != x && z <= v
}

pub fn has_rival(values: &[i64], e: u64, x: u64) -> bool
    requires { (length values.now ≡ max_clocks) × (x < max_clocks) }
    ensures { result ≡ any (by_value (rivals e x (value_of values.now x)) values.now) max_clocks }
{
    let v = values[x as usize];
    let mut left = e;
    while left != 0 {
        let k = sets::lowest(left);
        let z = values[k as usize];
        if is_rival(e, x, v, k, z) {
            return true;
        }
        left = sets::minus(left, sets::single(k));
    }
    false
}
