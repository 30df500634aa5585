// What a count of steps of 0.02 Hz says in hertz, or that there is no reading. No reading is not 0 Hz.
ghost use Rattle.std.specs.Prelude.{◌≡◌};
ghost use Rattle.offset.specs.Hertz.{reading_of, is_reading, pattern_of};
ghost use Rattle.offset.specs.Requires.{NoNan};

// The count −512 says that the offset could not be measured. Every other one is divided once by 50.
#[tactic(auto, using(crate::proofs::Worked::fifty, crate::proofs::Readings::hertz_unless), unfolding(crate::specs::Hertz::hertz_of))]
pub fn reading_of(count: i32) -> Option<f64>
    ensures { result ≡ reading_of count }
{
    if count == -512 {
        return None;
    }
    Some(f64::from(count) / 50.0)
}

// 1 for hertz, 0 for none: a number, since that is what the answer to C holds.
pub fn is_reading(reading: Option<f64>) -> u64
    ensures { result ≡ is_reading reading }
{
    u64::from(reading.is_some())
}

// The bit pattern of the hertz, and 0 for none.
pub fn pattern_of(reading: Option<f64>) -> u64
    requires { NoNan reading }
    ensures { result ≡ pattern_of reading }
{
    match reading {
        Some(hertz) => f64::to_bits(hertz),
        None => 0,
    }
}
