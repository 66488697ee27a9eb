// A decoded scalar: a truth, a signed number or a double. In the prover's logic there is one NaN, with no payload, so a NaN's 64 bits are carried
// beside the doubles.
#![tactic(auto)]

ghost use Rattle.std.specs.Prelude.{◌≡◌};
ghost use Rattle.std.specs.Float.{binary64};
ghost use Rattle.std.specs.Float.Ieee.{to_bits};
ghost use Rattle.scalars.specs.Scalars.{scalar_of, bits_of};

#[derive(Clone, Copy, Debug, PartialEq)]
pub enum Scalar {
    Bool(bool),
    Int(i64),
    Double(f64),
    NotANumber(u64),
}

// Any 64 bits: a double, or a NaN's pattern, kept whole.
#[tactic(auto, using(crate::proofs::Patterns::pattern_cases))]
pub fn of_bits(n: u64) -> Scalar
    ensures { result ≡ scalar_of n }
{
    if 0x7ff0_0000_0000_0000 < n % 0x8000_0000_0000_0000 {
        Scalar::NotANumber(n)
    } else {
        Scalar::Double(f64::from_bits(n))
    }
}

// The bits of a double or of a NaN's pattern; a truth is 1 or 0, and a number, which is not kept as bits, 0. Nothing is asked: a Double that is a
// NaN has the one pattern that the logic gives it.
pub fn to_bits(v: Scalar) -> u64
    ensures { result ≡ bits_of v }
{
    match v {
        Scalar::Bool(b) => u64::from(b),
        Scalar::Int(_) => 0,
        Scalar::Double(x) => double_bits(x),
        Scalar::NotANumber(n) => n,
    }
}

#[tactic(auto, using(crate::proofs::Patterns::double_cases))]
fn double_bits(x: f64) -> u64
    ensures { result ≡ to_bits binary64 x }
{
    if x.is_nan() {
        0x7ff8_0000_0000_0000
    } else {
        x.to_bits()
    }
}

// Every pattern comes back, a NaN's too.
#[tactic(auto, using(crate::proofs::Patterns::comes_back))]
pub fn through(n: u64) -> u64
    ensures { result ≡ n }
{
    to_bits(of_bits(n))
}
