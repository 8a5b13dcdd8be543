// Compatibility: 15, 16 and 17, each at the lowest action or clock, then at the lowest two components that clash.
#![tactic(auto)]

ghost use Rattle.std.specs.Prelude.{◌≡◌, Bool, true, false, [], ◌∷◌, ℕ, ◌+◌, ◌≤◌, ◌<◌, length};
ghost use Rattle.std.proofs.Math.Option.{some};
ghost use Rattle.laws.specs.Sets.{has};
ghost use Rattle.answer.specs.Told.{tell};
ghost use Rattle.sets.specs.Members.{word_bits};
ghost use Rattle.rows.specs.Ranges.{found_of};
ghost use Rattle.layout.specs.Layout.{count_of, block_word};
ghost use Rattle.layout.specs.Image.{Image, comp_of, model_of};
ghost use Rattle.parts.specs.Faults.{Says};
ghost use Rattle.pairs.specs.Clashes.{left_of, right_of, clash_of, clash_set, partner_of, number_of, shared_fault};

use answer::{Place, Refusal};

// What no two components may share: outputs, clocks, or an action that is urgent in one of them alone.
#[derive(Clone, Copy)]
pub enum Shared {
    Outputs,
    Clocks,
    Urgency,
}

// Two components clash where the left of one meets the right of the other.
#[derive(Drop)]
pub struct Sides {
    pub left: u64,
    pub right: u64,
}

fn sides_of(t: &[u64], i: usize, kind: Shared) -> Sides
    requires { Image t.now × (i < count_of t.now) }
    ensures { (result.left ≡ left_of kind (comp_of t.now i)) × (result.right ≡ right_of kind (comp_of t.now i)) }
{
    let ins = layout::block_word(t, i, layout::INS);
    let outs = layout::block_word(t, i, layout::OUTS);
    let uins = layout::block_word(t, i, layout::UINS);
    let uouts = layout::block_word(t, i, layout::UOUTS);
    let clocks = layout::block_word(t, i, layout::CLOCKS);
    match kind {
        Shared::Outputs => Sides {
            left: outs | uouts,
            right: outs | uouts,
        },
        Shared::Clocks => Sides {
            left: clocks,
            right: clocks,
        },
        Shared::Urgency => Sides {
            left: uins | uouts,
            right: ins | outs,
        },
    }
}

// Every action or clock by which some two components clash, by the sets of the components so far.
fn clash_set(t: &[u64], kind: Shared) -> u64
    requires { Image t.now }
    ensures { result ≡ clash_set kind t.now }
{
    let n = layout::count_of(t) as usize;
    let mut left = 0u64;
    let mut right = 0u64;
    let mut all = 0u64;
    for i in 0..n {
        let s = sides_of(t, i, kind);
        all = all | ((left & s.right) | (right & s.left));
        left = left | s.left;
        right = right | s.right;
    }
    all
}

// Whether components i and j clash by x.
fn clashes(t: &[u64], kind: Shared, x: u64, i: usize, j: usize) -> bool
    requires { Image t.now × (i < count_of t.now) × (j < count_of t.now) × (x < word_bits) }
    ensures { result ≡ has (clash_of kind (comp_of t.now i) (comp_of t.now j)) x }
{
    let a = sides_of(t, i, kind);
    let b = sides_of(t, j, kind);
    sets::has((a.left & b.right) | (a.right & b.left), x)
}

// The first component after i that clashes with it by x.
fn partner(t: &[u64], kind: Shared, x: u64, i: usize) -> Option<usize>
    requires { Image t.now × (i < count_of t.now) × (x < word_bits) }
    ensures { result ≡ found_of (partner_of kind t.now x i) }
{
    let n = layout::count_of(t) as usize;
    (i + 1..n).find(|j| clashes(t, kind, x, i, *j))
}

fn refusal(kind: Shared, x: u64, i: usize, j: usize) -> Result<(), Refusal>
    ensures { Says result (some (tell (number_of kind) (x ∷ i ∷ j ∷ []))) }
{
    match kind {
        Shared::Outputs => Err(Refusal {
            number: 15,
            place: Place::SharedAction {
                action: x,
                first: i,
                second: j,
            },
        }),
        Shared::Clocks => Err(Refusal {
            number: 16,
            place: Place::SharedClock {
                clock: x,
                first: i,
                second: j,
            },
        }),
        Shared::Urgency => Err(Refusal {
            number: 17,
            place: Place::SharedAction {
                action: x,
                first: i,
                second: j,
            },
        }),
    }
}

// 15, 16 or 17.
pub fn check_shared(t: &[u64], kind: Shared) -> Result<(), Refusal>
    requires { Image t.now }
    ensures { Says result (shared_fault kind (model_of t.now)) }
{
    let all = clash_set(t, kind);
    if all == 0 {
        return Ok(());
    }
    let x = sets::lowest(all);
    let n = layout::count_of(t) as usize;
    for i in 0..n {
        if let Some(j) = partner(t, kind, x, i) {
            return refusal(kind, x, i, j);
        }
    }
    Ok(())
}
