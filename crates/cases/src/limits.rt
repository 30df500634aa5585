// Each refusal on both sides of its limit, and calls that more than one refusal fits. The huge numbers are those that a cast to
// fewer bits, or a shift that wraps, would take for legal ones. Every M above 1 gives the rings 1 0 0 0 0 0 0 0 the number 8.
use crate::show::{map, map_lent, rank};
use std::io;

pub fn k_limit(rt: &impl Print) -> io::Result<()> {
    println!(rt; "\n13: K above 31")?;
    for (k, m, s) in [
        (31, 18, 8),
        (32, 18, 8),
        (64, 2, 0),
        (4294967304, 2, 8),
        (18446744073709551615, 18, 8),
    ] {
        map(rt, k, m, s)?;
    }
    for (k, m, set) in [
        (31, 18, [1, 0, 0, 0, 0, 0, 0, 0]),
        (32, 18, [1, 0, 0, 0, 0, 0, 0, 0]),
        (64, 2, [0, 0, 0, 0, 0, 0, 0, 0]),
        (4294967304, 2, [1, 0, 0, 0, 0, 0, 0, 0]),
        (18446744073709551615, 18, [1, 0, 0, 0, 0, 0, 0, 0]),
    ] {
        rank(rt, k, m, &set)?;
    }
    Ok(())
}

pub fn m_limit(rt: &impl Print) -> io::Result<()> {
    println!(rt; "\n13: M not 1 to 18")?;
    for (k, m, s) in [
        (0, 0, 0),
        (0, 1, 0),
        (8, 18, 8),
        (8, 19, 8),
        (8, 258, 8),
        (8, 4294967298, 8),
        (8, 18446744073709551615, 8),
    ] {
        map(rt, k, m, s)?;
    }
    for (k, m, set) in [
        (0, 0, [0, 0, 0, 0, 0, 0, 0, 0]),
        (0, 1, [0, 0, 0, 0, 0, 0, 0, 0]),
        (8, 18, [1, 0, 0, 0, 0, 0, 0, 0]),
        (8, 19, [1, 0, 0, 0, 0, 0, 0, 0]),
        (8, 258, [1, 0, 0, 0, 0, 0, 0, 0]),
        (8, 4294967298, [1, 0, 0, 0, 0, 0, 0, 0]),
        (8, 18446744073709551615, [1, 0, 0, 0, 0, 0, 0, 0]),
    ] {
        rank(rt, k, m, &set)?;
    }
    Ok(())
}

pub fn powers(rt: &impl Print) -> io::Result<()> {
    println!(rt; "\n13: 2^K above M^8")?;
    for (k, m, s) in [
        (0, 1, 0),
        (1, 1, 0),
        (8, 2, 8),
        (9, 2, 8),
        (12, 3, 8),
        (13, 3, 8),
        (24, 8, 8),
        (25, 8, 8),
        (31, 15, 8),
        (31, 14, 8),
    ] {
        map(rt, k, m, s)?;
    }
    for (k, m, set) in [
        (8, 2, [1, 0, 0, 0, 0, 0, 0, 0]),
        (9, 2, [1, 0, 0, 0, 0, 0, 0, 0]),
        (31, 15, [1, 0, 0, 0, 0, 0, 0, 0]),
        (31, 14, [1, 0, 0, 0, 0, 0, 0, 0]),
    ] {
        rank(rt, k, m, &set)?;
    }
    Ok(())
}

pub fn lengths(rt: &impl Print) -> io::Result<()> {
    println!(rt; "\n8: not eight bytes lent")?;
    map_lent(rt, 8, 2, 8, 0)?;
    map_lent(rt, 8, 2, 8, 7)?;
    map_lent(rt, 8, 2, 8, 8)?;
    map_lent(rt, 8, 2, 8, 9)?;
    rank(rt, 8, 2, &[])?;
    rank(rt, 8, 2, &[1, 0, 0, 0, 0, 0, 0])?;
    rank(rt, 8, 2, &[1, 0, 0, 0, 0, 0, 0, 0])?;
    rank(rt, 8, 2, &[1, 0, 0, 0, 0, 0, 0, 0, 0])
}

pub fn s_limit(rt: &impl Print) -> io::Result<()> {
    println!(rt; "\n14: S not below 2^K")?;
    for (k, m, s) in [
        (0, 1, 0),
        (0, 1, 1),
        (0, 18, 1),
        (12, 3, 4095),
        (12, 3, 4096),
        (31, 15, 2147483647),
        (31, 15, 2147483648),
        (31, 18, 2147483647),
        (31, 18, 2147483648),
        (8, 2, 4294967304),
        (8, 2, 18446744073709551615),
    ] {
        map(rt, k, m, s)?;
    }
    Ok(())
}

pub fn ring_limit(rt: &impl Print) -> io::Result<()> {
    println!(rt; "\n10: a ring not below M")?;
    for (k, m, set) in [
        (0, 1, [0, 0, 0, 0, 0, 0, 0, 1]),
        (12, 3, [2, 0, 0, 0, 0, 0, 0, 0]),
        (12, 3, [3, 0, 0, 0, 0, 0, 0, 0]),
        (12, 3, [0, 0, 0, 0, 0, 0, 0, 2]),
        (12, 3, [0, 0, 0, 0, 0, 0, 0, 3]),
        (31, 18, [17, 0, 0, 0, 0, 0, 0, 0]),
        (31, 18, [18, 0, 0, 0, 0, 0, 0, 0]),
        (31, 18, [0, 0, 0, 0, 0, 0, 0, 17]),
        (31, 18, [0, 0, 0, 0, 0, 0, 0, 18]),
        (31, 18, [0, 0, 0, 255, 0, 0, 0, 0]),
    ] {
        rank(rt, k, m, &set)?;
    }
    Ok(())
}

// The sets of M 15 and M 18 are those numbered 2^31 - 1 and 2^31; then 2^32, whose lower half is 0, and 18^8 - 1.
pub fn rank_limit(rt: &impl Print) -> io::Result<()> {
    println!(rt; "\n11: a number not below 2^K")?;
    for (k, m, set) in [
        (0, 2, [0, 0, 0, 0, 0, 0, 0, 0]),
        (0, 2, [0, 0, 0, 0, 0, 0, 0, 1]),
        (8, 2, [1, 1, 1, 1, 1, 1, 1, 1]),
        (7, 2, [1, 1, 1, 1, 1, 1, 1, 1]),
        (12, 3, [0, 0, 2, 2, 1, 1, 1, 2]),
        (12, 3, [0, 1, 1, 2, 1, 1, 1, 2]),
        (31, 15, [5, 10, 11, 12, 2, 2, 12, 14]),
        (31, 15, [6, 9, 11, 12, 2, 2, 12, 14]),
        (31, 18, [16, 9, 5, 1, 9, 7, 5, 3]),
        (31, 18, [17, 8, 5, 1, 9, 7, 5, 3]),
        (31, 18, [11, 9, 6, 2, 7, 14, 10, 5]),
        (31, 18, [17, 17, 17, 17, 17, 17, 17, 17]),
    ] {
        rank(rt, k, m, &set)?;
    }
    Ok(())
}

pub fn ties(rt: &impl Print) -> io::Result<()> {
    println!(rt; "\nseveral at once: the first of 13, 8, then 14 or 10, then 11")?;
    map_lent(rt, 32, 18, 8, 7)?;
    map(rt, 9, 2, 512)?;
    map_lent(rt, 9, 2, 18446744073709551615, 0)?;
    map_lent(rt, 8, 2, 256, 7)?;
    map_lent(rt, 8, 2, 256, 9)?;
    rank(rt, 13, 3, &[2, 2, 2, 2, 2, 2, 2])?;
    rank(rt, 13, 3, &[3, 0, 0, 0, 0, 0, 0, 0])?;
    rank(rt, 13, 3, &[2, 2, 2, 2, 2, 2, 2, 2])?;
    rank(rt, 12, 3, &[3, 0, 0, 0, 0, 0, 0])?;
    rank(rt, 12, 3, &[2, 2, 2, 2, 2, 2, 2, 2, 2])?;
    rank(rt, 12, 3, &[3, 2, 2, 2, 2, 2, 2, 2])?;
    rank(rt, 12, 3, &[2, 2, 2, 2, 2, 2, 2, 3])
}
