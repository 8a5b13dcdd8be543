// The clocks of a system: those that are declared, and those that guard rows leaving a composed state.
#![tactic(auto)]

ghost use Rattle.std.specs.Prelude.{◌≡◌, ℕ};
ghost use Rattle.answer.specs.State.{parts_of};
ghost use Rattle.layout.specs.Image.{Image, model_of};
ghost use Rattle.model.specs.Model.{declared};
ghost use Rattle.timing.specs.Timed.{enabling_all};
ghost use Rattle.moves.specs.Standing.{Standing};

use answer::State;

// The enabling clocks of a composed state.
pub fn enabling_all(t: &[u64], x: State) -> u64
    requires { Standing t.now x }
    ensures { result ≡ enabling_all (model_of t.now) (parts_of x) }
{
    let n = x.count;
    let mut set = 0u64;
    for i in 0..n {
        set = sets::union(set, active::enabling(t, i, x.parts[i] as usize));
    }
    set
}

// The clocks declared in the system.
pub fn declared(t: &[u64]) -> u64
    requires { Image t.now }
    ensures { result ≡ declared (model_of t.now) }
{
    layout::joined(t, layout::CLOCKS)
}
