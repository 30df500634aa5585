// Whole numbers in two's complement. `half` is the weight of the highest bit, which counts negative: 512 for ten bits.
ghost use Rattle.std.specs.Prelude.{◌≡◌, ◌+◌, ◌≤◌, ◌<◌};
ghost use Rattle.offset.specs.Signed.{signed, unsigned};

// The number that some bits are.
pub fn signed(bits: u64, half: u64) -> i32
    requires { (half ≤ 2147483648) × (bits < half + half) }
    ensures { result ≡ signed half bits }
{
    if bits < half {
        bits as i32
    } else {
        -1 - (half + half - 1 - bits) as i32
    }
}

// The bits of a number. Where they can't hold it, a number that they can't hold either. That is no `None`: it goes to the range test of the
// sequence's table like any field's number, and is refused there in its turn.
pub fn unsigned(count: i32, half: u64) -> u64
    requires { half ≤ 2147483648 }
    ensures { result ≡ unsigned half count }
{
    let size = u64::from(count.unsigned_abs());
    if count < 0 && size <= half {
        half + half - size
    } else if count >= 0 && size < half {
        size
    } else {
        half + half
    }
}
