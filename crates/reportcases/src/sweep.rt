// All filters and rates that four bits hold, and fields there and back.
ghost use Rattle.std.specs.Prelude.{◌+◌, ◌≤◌, ◌<◌};

use crate::writing::MIXED;
use bits::put_digits;
use fields::check::put_crc;
use info::info1c::{Info1c, read, write};
use refusals::Refusal;
use spelling::check::tested_crc;
use std::io;

// The mixed fields with a count, written.
pub fn written(count: i32) -> [u8; 109] {
    let mut bits = [9u8; 109];
    let _ = write(Info1c::from_numbers(MIXED), count, &mut bits);
    bits
}

// The mixed fields with a number in four bits, and their own check.
fn sequence_of(at: usize, number: u64) -> Option<[u8; 109]>
    requires { at + 4 ≤ 109 }
{
    let mut bits = written(-37);
    put_digits(number, 4, &mut bits, at);
    let check = tested_crc(&bits[12..89])?;
    put_crc(check, &mut bits[89..105]);
    Some(bits)
}

// How many of six times sixteen the reader refuses so, or does not refuse: number i is i % 16 in block i / 16. In the block of
// 2400 its bits begin at `from`. The remainder of 6 is the block itself: within the closure nothing is known of i. One range for the two is a
// chain that counts. A sequence with no check would be dropped, but all are bits; the two numbers that are printed make 96, so that one
// dropped would be seen.
fn answered(from: usize, refusal: Option<Refusal>) -> usize
    requires { from ≤ 30 }
{
    (0..96)
        .filter_map(|i| sequence_of(from + i / 16 % 6 * 9, i as u64 % 16))
        .filter(|bits| read(bits).err() == refusal)
        .count()
}

// Number i of 8,192 sets: each power reduction, further reduction and MD once, and every carrier, filter and rate in every block.
// The remainders are a counter of mixed radix, in place of three loops, one in another, with the blocks going round beside them.
fn permitted(i: u64) -> [u64; 22] {
    let j = i % 8192;
    let a = i % 2;
    let b = i % 11;
    let c = i % 15;
    [
        j % 8,
        j / 8 % 8,
        j / 64,
        a,
        b,
        c,
        1 - a,
        10 - b,
        14 - c,
        a,
        b,
        c,
        1 - a,
        10 - b,
        14 - c,
        a,
        b,
        c,
        1 - a,
        10 - b,
        14 - c,
        0,
    ]
}

// Is set i written with a count, and are both read back as they were? The set before it has another count.
fn comes_back(i: u64) -> bool {
    let mut bits = [9u8; 109];
    let fields = Info1c::from_numbers(permitted(i));
    let count = (i % 1024) as i32 - 512;
    write(fields, count, &mut bits).is_ok()
        && read(&bits).is_ok_and(|report| report.fields == fields && report.count == count)
}

// The filter at 2400 begins at bit 26, the rate at bit 30.
pub fn sweeps(rt: &impl Print) -> io::Result<()> {
    for (words, from) in [("filters", 26), ("rates", 30)] {
        let read = answered(from, None);
        let refused = answered(from, Some(Refusal::FieldOutOfRange));
        println!(rt;
            "{words} 0 to 15 in each block, with their check: read with 0 {read}, refused with 18 {refused}"
        )?;
    }
    let back = (0..8192).filter(|i| comes_back(*i)).count();
    println!(rt;
        "of 8192 power reductions, further reductions and MDs, read back as written: {back}"
    )
}
