// A round's end: every clock of a set takes its next sample, from wherever the samples come.
#![tactic(auto)]

ghost use Rattle.std.specs.Prelude.{◌≡◌, ℕ, ◌<◌, length};
ghost use Rattle.answer.specs.Limits.{max_clocks};
ghost use Rattle.feed.specs.Supply.{lent, ListTakes, DrawTakes, TakeCall, ran_out_of};
ghost use Rattle.feed.specs.Feeding.{FedCall};

use answer::Model;
use fields::Cursor;

// Where samples come from: the lists of a text, or draws from the distributions of a file by lent numbers.
#[derive(Clone, Copy)]
pub enum Source {
    Lists,
    Draws,
}

// What a clock takes, where its next sample stands then, and how many numbers it has used.
#[derive(Clone, Copy)]
pub struct Taken {
    pub ticks: u64,
    pub at: usize,
    pub used: usize,
}

// The number that says that samples ran out.
pub fn ran_out(from: Source) -> u8
    ensures { result ≡ ran_out_of from }
{
    match from {
        Source::Lists => 41,
        Source::Draws => 50,
    }
}

// The next sample of a list, if there is one left.
fn listed(text: &[u8], at: usize, used: usize) -> Option<Taken>
    ensures { ListTakes text.now at result }
{
    match samples::next(text, Cursor { at }) {
        Ok((d, ticks)) => Some(Taken {
            ticks,
            at: d.at,
            used,
        }),
        Err(_) => None,
    }
}

// The next draw of clock x: its distribution stays where it is.
fn drawn(text: &[u8], numbers: &[u64], x: u64, at: usize, used: usize) -> Option<Taken>
    requires { x < max_clocks }
    ensures { DrawTakes text.now numbers.now x at used result }
{
    let (ticks, used) = sampling::draw_at(text, numbers, x, at, used)?;
    Some(Taken { ticks, at, used })
}

// The next sample of clock x.
fn take(from: Source, text: &[u8], numbers: &[u64], x: u64, at: usize, used: usize) -> Option<Taken>
    requires { x < max_clocks }
    ensures { TakeCall (lent from text.now numbers.now) x at used result }
{
    match from {
        Source::Lists => listed(text, at, used),
        Source::Draws => drawn(text, numbers, x, at, used),
    }
}

// Each clock of w, from the lowest on, takes its next sample; the first that has none left.
pub fn fed(
    from: Source,
    text: &[u8],
    numbers: &[u64],
    at: &mut [usize; Model::CLOCKS],
    used: &mut [usize; Model::CLOCKS],
    w: u64,
    values: &mut [i64],
) -> Option<u64>
    requires { (length at.old ≡ max_clocks) × (length used.old ≡ max_clocks) × (length values.old ≡ max_clocks) }
    ensures { FedCall (lent from text.now numbers.now) w at.old used.old values.old result
        at.new used.new values.new }
{
    let mut left = w;
    while left != 0 {
        let x = sets::lowest(left);
        let i = x as usize;
        match take(from, text, numbers, x, at[i], used[i]) {
            Some(s) => {
                values[i] = s.ticks as i64;
                at[i] = s.at;
                used[i] = s.used;
            }
            None => {
                return Some(x);
            }
        }
        left = sets::minus(left, sets::single(x));
    }
    None
}
