// Sets of clocks or of actions: one 64-bit number, bit x for member x.
#![tactic(auto)]

ghost use Rattle.std.specs.Prelude.{◌≡◌, ℕ, ◌<◌};
ghost use Rattle.laws.specs.Sets.{has, ◌∪◌, ◌∖◌, within, only};
ghost use Rattle.sets.specs.Members.{word_bits, lowest_of, size_of};

pub fn has(s: u64, x: u64) -> bool
    requires { x < word_bits }
    ensures { result ≡ has s x }
{
    (s >> x) % 2 == 1
}

pub fn union(s: u64, t: u64) -> u64
    ensures { result ≡ s ∪ t }
{
    s | t
}

pub fn minus(s: u64, t: u64) -> u64
    ensures { result ≡ s ∖ t }
{
    s & (s ^ t)
}

pub fn lies_in(s: u64, t: u64) -> bool
    ensures { result ≡ within s t }
{
    (s & t) == s
}

pub fn single(x: u64) -> u64
    requires { x < word_bits }
    ensures { result ≡ only x }
{
    1u64 << x
}

pub fn lowest(s: u64) -> u64
    ensures { result ≡ lowest_of s }
{
    u64::trailing_zeros(s) as u64
}

pub fn count(s: u64) -> u64
    ensures { result ≡ size_of s }
{
    u64::count_ones(s) as u64
}
