// The listing order of document 01 by its eight keys, with no counts. What the ranker says of a set is held to how many sets stand before it
// in this order.

// The keys in their order: the total; m1+m2+m3+m4; m5+m6; m7; m5; m1+m2; m3; m1.
fn keys(rings: &[u8; 8]) -> [u16; 8] {
    let [m1, m2, m3, m4, m5, m6, m7, m8] = *rings;
    let first = u16::from(m1) + u16::from(m2);
    let front = first + u16::from(m3) + u16::from(m4);
    let third = u16::from(m5) + u16::from(m6);
    let back = third + u16::from(m7) + u16::from(m8);
    [
        front + back,
        front,
        third,
        u16::from(m7),
        u16::from(m5),
        first,
        u16::from(m3),
        u16::from(m1),
    ]
}

// Whether x stands before y: the first key that differs is smaller.
pub fn stands_before(x: &[u8; 8], y: &[u8; 8]) -> bool {
    keys(x) < keys(y)
}
