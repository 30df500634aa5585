// The worked cases of document 01 that are about rings, in its order.
use crate::show::{map, rank};
use std::io;

pub fn cases(rt: &impl Print) -> io::Result<()> {
    println!(rt; "worked cases")?;
    map(rt, 0, 1, 0)?;
    for s in [1, 2, 5, 8, 9, 10, 11, 254, 255] {
        map(rt, 8, 2, s)?;
    }
    map(rt, 12, 3, 9)?;
    map(rt, 8, 2, 256)?;
    map(rt, 13, 3, 0)?;
    rank(rt, 13, 3, &[0, 0, 0, 0, 0, 0, 0, 0])?;
    rank(rt, 12, 3, &[2, 2, 2, 2, 2, 2, 2, 2])
}
