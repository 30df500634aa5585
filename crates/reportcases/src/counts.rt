// All 1,024 counts of the offset.
use crate::reading::report_of;
use crate::sweep::written;
use offset::reading::{is_reading, pattern_of};
use std::io;

// How many counts come back, how many have a reading, the sum of the bits of their doubles, and the sum of these, each times its count +
// 513, in which an exchange of two would be seen. All is modulo 2^64. It goes from the last count down, so that number k is in k + 1
// of the sums that are added up.
pub fn sweeps(rt: &impl Print) -> io::Result<()> {
    let mut back = 0u64;
    let mut readings = 0u64;
    let mut sum = 0u64;
    let mut weighted = 0u64;
    for count in (-512..512).rev() {
        if let Ok(report) = report_of(&written(count)) {
            back = back.wrapping_add(u64::from(report.count == count));
            readings = readings.wrapping_add(is_reading(report.reading));
            sum = sum.wrapping_add(pattern_of(report.reading));
        }
        weighted = weighted.wrapping_add(sum);
    }
    println!(rt;
        "\nsweeps\nof 1024 counts, read back as written: {back}, with a reading: {readings}"
    )?;
    println!(rt;
        "sum of the doubles' bits: {sum:016x}, of each times its count + 513: {weighted:016x}"
    )
}
