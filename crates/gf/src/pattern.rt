// A double taken apart into the fields of its bit pattern that stand behind the sign.

ghost use Rattle.std.specs.Prelude.{◌≡◌, ◌+◌, ◌*◌, ◌<◌, not, T, is_nan};
ghost use Rattle.gf.specs.Doubles.{fields_of};

// How far left the exponent stands, and the masks of the two fields behind the sign.
const EXPONENT_AT: u64 = 52;

const EXPONENT_MASK: u64 = 0x7ff;

const FRACTION_MASK: u64 = 0xf_ffff_ffff_ffff;

#[derive(Clone, Copy)]
pub struct Fields {
    pub exponent: u64,
    pub fraction: u64,
}

impl Fields {
    // The pattern with the sign cleared. It grows with the magnitude.
    pub fn rank(self) -> u64
        requires { (self.exponent < 0x800) × (self.fraction < 0x10_0000_0000_0000) }
        ensures { result ≡ self.exponent * 0x10_0000_0000_0000 + self.fraction }
    {
        (self.exponent << EXPONENT_AT) + self.fraction
    }
}

// A NaN has no bit pattern of its own.
pub fn fields_of(x: f64) -> Fields
    requires { T (not (is_nan x)) }
    ensures { result ≡ fields_of x }
{
    let bits = x.to_bits();
    Fields {
        exponent: (bits >> EXPONENT_AT) & EXPONENT_MASK,
        fraction: bits & FRACTION_MASK,
    }
}
