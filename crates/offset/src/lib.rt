// Workerwax, crate `offset`: the frequency offset that an INFO1c sequence carries (V.34, Table 15, bits 79 to 88).
//
// What does it do? The offset is sent as a count of steps of 0.02 Hz, with a sign. `signed` makes the count of its bits, and `reading` says
// what it is in hertz, or that there is no reading.
// How does it work? The count is the measure, and it alone is ever sent again: hertz are one division away and are only shown.
#![tactic(auto)]

pub mod reading;
pub mod signed;
