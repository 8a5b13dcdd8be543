// The rows that leave a state: a walk over their range and over nothing else.
#![tactic(auto)]

ghost use Rattle.std.specs.Prelude.{◌≡◌, ℕ, ◌+◌, ◌≤◌, ◌<◌, length};
ghost use Rattle.answer.specs.Limits.{max_rows};
ghost use Rattle.layout.specs.Layout.{image_words};
ghost use Rattle.rows.specs.Ranges.{found_of, by_action, by_guard, by_set, LowActions};

// The first row of lo .. hi with the action.
pub fn find_action(t: &[u64], lo: usize, hi: usize, a: u64) -> Option<usize>
    requires { (image_words ≤ length t.now) × (hi ≤ max_rows) }
    ensures { result ≡ found_of (by_action t.now a lo hi) }
{
    for k in lo..hi {
        if layout::action_at(t, k) == a {
            return Some(k);
        }
    }
    None
}

// The first row of lo .. hi with the guard.
pub fn find_guard(t: &[u64], lo: usize, hi: usize, g: u64) -> Option<usize>
    requires { (image_words ≤ length t.now) × (hi ≤ max_rows) }
    ensures { result ≡ found_of (by_guard t.now g lo hi) }
{
    for k in lo..hi {
        if layout::guard_at(t, k) == g {
            return Some(k);
        }
    }
    None
}

// The first row of lo .. hi whose action is in the set.
pub fn find_in(t: &[u64], lo: usize, hi: usize, set: u64) -> Option<usize>
    requires { (image_words ≤ length t.now) × (hi ≤ max_rows) × LowActions t.now lo hi }
    ensures { result ≡ found_of (by_set t.now set lo hi) }
{
    for k in lo..hi {
        if sets::has(set, layout::action_at(t, k)) {
            return Some(k);
        }
    }
    None
}
