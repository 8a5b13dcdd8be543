// Numbers by the bits of their binary64.
#![tactic(auto)]

ghost use Rattle.std.specs.Prelude.{◌≡◌};
ghost use Rattle.bits.specs.Bits.{real_of};

// The bits of an infinity and the weight of the sign: the bits of a NaN, the sign left out, are those above an infinity's.
const INFINITE: u64 = 9218868437227405312;

const SIGN: u64 = 9223372036854775808;

// The number that 64 bits stand for, an infinity counted in; a NaN is none.
pub fn real_of(n: u64) -> Option<f64>
    ensures { result ≡ real_of n }
{
    if INFINITE < n % SIGN {
        None
    } else {
        Some(f64::from_bits(n))
    }
}
