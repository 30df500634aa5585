// One line for each set of fields that is to be written: the fields, the count of the offset, how many bytes are lent, the refusal number,
// and the bytes after it.
ghost use Rattle.std.specs.Prelude.{◌≤◌, ◌<◌};

use crate::show::{Named, sequence};
use info::info1c::{Info1c, write};
use refusals::code;
use std::io;

// The fields of the mixed sequence.
pub const MIXED: [u64; 22] = [
    5, // power reduction
    2, // further reduction
    100, // MD
    1, // 2400: carrier
    3, // filter
    5, // rate
    0, // 2743: carrier
    10, // filter
    14, // rate
    1, // 2800: carrier
    0, // filter
    12, // rate
    0, // 3000: carrier
    7, // filter
    1, // rate
    1, // 3200: carrier
    5, // filter
    13, // rate
    0, // 3429: carrier
    2, // filter
    9, // rate
    0, // the count's, which is handed over apart
];

// The mixed fields with a number in the place of field k. The writer is lent the first bytes of 111 that hold 9, and all are shown after the
// call: a refusal leaves them as they were, and a success writes exactly 109.
fn writes(rt: &impl Print, k: usize, number: u64, count: i32, lent: usize) -> io::Result<()>
    requires { (k < 22) × (lent ≤ 111) }
{
    let mut numbers = MIXED;
    numbers[k] = number;
    let fields = Info1c::from_numbers(numbers);
    let mut space = [9u8; 111];
    let refusal = code(write(fields, count, &mut space[..lent]));
    println!(rt;
        "write{}, count {count}, lent {lent}: {refusal},{}",
        Named(fields),
        sequence(&space)
    )
}

// One above the range of field k. From field 3 on they are carrier, filter and rate, six times. A field is its place in Table 15, as in
// `MIXED`: by names, the loop over them would be a list of twenty-one.
fn above(k: usize) -> u64 {
    match k {
        0 | 1 => 8,
        2 => 128,
        _ => match k % 3 {
            0 => 2,
            1 => 11,
            _ => 15,
        },
    }
}

// Each field above its range, and a number that a cast to 32 bits would take for 1.
fn all_above(rt: &impl Print) -> io::Result<()> {
    for k in 0..21 {
        writes(rt, k, above(k), -37, 109)?;
        writes(rt, k, 4294967297, -37, 109)?;
    }
    Ok(())
}

// Field 4 is the filter at 2400, 3 in the mixed fields and 10 at most. In the last line of 8 it is out of its range too.
pub fn cases(rt: &impl Print) -> io::Result<()> {
    println!(rt; "\nINFO1c written")?;
    for count in [-37, -512, 511] {
        writes(rt, 4, 3, count, 109)?;
    }
    println!(rt; "\n8: not 109 bytes")?;
    writes(rt, 4, 3, -37, 0)?;
    writes(rt, 4, 3, -37, 108)?;
    writes(rt, 4, 3, -37, 110)?;
    writes(rt, 4, 11, -37, 108)?;
    println!(rt; "\n18: a field out of its range")?;
    for count in [-513, 512, i32::MIN, i32::MAX] {
        writes(rt, 4, 3, count, 109)?;
    }
    all_above(rt)
}
