// Words written one after the other into a lent buffer.
#![tactic(auto)]

ghost use Rattle.std.specs.Prelude.{◌≡◌, ℕ, ◌+◌, ◌≤◌, length};
ghost use Rattle.std.proofs.lemmas.List.Edits.{sets};
ghost use Rattle.fill.specs.Words.{most_words, words_from, zeros_of};

// n words of one buffer, from a place on.
pub fn copy_words(t: &[u64], from: usize, into: &mut [u64], at: usize, n: usize)
    requires { (from + n ≤ length t.now) × (from + n ≤ most_words) × (at + n ≤ length into.old) × (at + n ≤ most_words) }
    ensures { into.new ≡ sets into.old at (words_from t.now from n) }
{
    for k in 0..n {
        into[at + k] = t[from + k];
    }
}

// n zeros.
pub fn zero_words(into: &mut [u64], at: usize, n: usize)
    requires { (at + n ≤ length into.old) × (at + n ≤ most_words) }
    ensures { into.new ≡ sets into.old at (zeros_of n) }
{
    into[at..at + n].fill(0);
}
