// The reduced form of decimals.
ghost use Rattle.std.specs.Prelude.{◌≡◌, ◌<◌, ◌≤ℤ◌, pos, IfSome};
ghost use Rattle.fix_values.specs.Decimals.{dec};
ghost use Rattle.fix_values.specs.Numerals.{signed};
ghost use Rattle.reduced_decimals.specs.Forms.{form_of, IsFormOf};

/// The largest exponent of a decimal that is reduced here. The least one is its negative.
const MOST_EXPONENT: i128 = 18;

/// How many zeros are looked for at the end of a mantissa: one more than a number of 64 bits has digits.
const MOST_ZEROS: usize = 21;

/// A decimal whose mantissa isn't a multiple of ten, or 0 with the exponent 0: its sign, the mantissa's size, and the exponent.
#[derive(Clone, Copy)]
pub struct Reduced {
    pub negative: bool,
    pub size: u64,
    pub exponent: i128,
}

impl Reduced {
    /// The mantissa.
    pub fn mantissa(&self) -> i128
        ensures { result ≡ (form_of self.now).mantissa }
    {
        if self.negative {
            -(self.size as i128)
        } else {
            self.size as i128
        }
    }
}

/// The reduced form of a decimal. `None` if the mantissa has more than 64 bits, or the exponent is above 18 or below -18.
pub fn reduced_of(mantissa: i128, exponent: i128) -> Option<Reduced>
    ensures { IfSome result (λ d. IsFormOf d (dec mantissa exponent)) }
{
    if exponent < -MOST_EXPONENT || exponent > MOST_EXPONENT {
        return None;
    }
    let Ok(size) = u64::try_from(mantissa.unsigned_abs()) else {
        return None;
    };
    if size == 0 {
        return Some(Reduced {
            negative: false,
            size: 0,
            exponent: 0,
        });
    }
    without_zeros(mantissa < 0, size, exponent)
}

/// The reduced form of a decimal that isn't zero.
fn without_zeros(negative: bool, size: u64, exponent: i128) -> Option<Reduced>
    requires some { 0 < size }
    requires high { exponent ≤ℤ pos 18 }
    ensures { IfSome result (λ d. IsFormOf d (dec (signed negative size) exponent)) }
{
    let mut left = size;
    let mut moved = exponent;
    for done in 0..MOST_ZEROS {
        if left % 10 != 0 {
            return Some(Reduced {
                negative,
                size: left,
                exponent: moved,
            });
        }
        left /= 10;
        moved += 1;
    }
    None
}
