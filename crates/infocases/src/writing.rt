// One line for each set of fields that is to be written: the fields, how many bytes are lent, the refusal number, and the bytes after it.
ghost use Rattle.std.specs.Prelude.{◌≤◌, ◌<◌};

use crate::reading::STARTS;
use info::info0::{Info0, write};
use refusals::code;
use spelling::show::{Parts, Spaced};
use std::io;

// In the order of V.34's Table 14. The writer takes all fourteen numbers of `MIXED` at once, and of `ABOVE` one at a time: pairs of the two
// would first be taken apart again.
const MIXED: [u64; 14] = [1, 0, 1, 1, 0, 0, 1, 1, 0, 3, 0, 1, 1, 0];

const ABOVE: [u64; 14] = [2, 2, 2, 2, 2, 2, 2, 2, 2, 6, 2, 2, 3, 2];

// The mixed fields with a number in the place of field k: with names for the fields, the loop of `above` would be fourteen calls. The writer is
// lent the first bytes of 51 that hold 9, and all are shown after the call: a refusal leaves them as they were, and a success writes exactly
// 49.
fn writes(rt: &impl Print, k: usize, number: u64, lent: usize) -> io::Result<()>
    requires { (k < 14) × (lent ≤ 51) }
{
    let mut numbers = MIXED;
    numbers[k] = number;
    let mut space = [9u8; 51];
    let refusal = code(write(Info0::from(numbers), &mut space[..lent]));
    let parts = Parts {
        bytes: &space,
        starts: &STARTS,
    };
    println!(rt; "write{}, lent {lent}: {refusal},{parts}", Spaced(&numbers))
}

// One above the range of each field, and two numbers that a cast to fewer bits would take for 1 and 0.
fn above(rt: &impl Print) -> io::Result<()> {
    for (k, above) in ABOVE.iter().enumerate() {
        for number in [*above, 4294967297, 9223372036854775808] {
            writes(rt, k, number, 49)?;
        }
    }
    Ok(())
}

// Field 9 is the difference, 3 in the mixed fields and 5 at most.
pub fn cases(rt: &impl Print) -> io::Result<()> {
    println!(rt; "\nINFO0 written")?;
    writes(rt, 9, 3, 49)?;
    println!(rt; "\n8: not 49 bytes lent; in the two last lines a field is out of its range too")?;
    writes(rt, 9, 3, 0)?;
    writes(rt, 9, 3, 48)?;
    writes(rt, 9, 3, 50)?;
    writes(rt, 9, 6, 48)?;
    writes(rt, 9, 6, 50)?;
    println!(rt; "\n18: a field out of its range")?;
    above(rt)
}
