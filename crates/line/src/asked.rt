// The settings as they are asked for (document 01, "Settings"): numbers of which nothing is known yet. They stay together, so that
// whoever only passes them on names none of them. Role, shaping and mark stay numbers, and wide ones: a setting that is not stated is seen
// and refused by its number, and C hands over 64 bits.
#[derive(Clone, Copy, PartialEq, Eq)]
pub struct Asked {
    // the sending end: 0 call modem, 1 answer modem
    pub role: u64,
    // the symbol rate: 0 to 5
    pub s: u64,
    // the data rate, in steps of 2,400 bit/s
    pub n: u64,
    // 0 minimum, 1 expanded
    pub shaping: u64,
    // 0 where the far end has no large constellation, 1 where it has
    pub mark: u64,
}
