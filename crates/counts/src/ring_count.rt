// The M of the counts.
ghost use Rattle.counts.specs.Rows.{Known};

// How many rings there are: 1 to 18.
#[derive(Clone, Copy)]
pub struct RingCount {
    pub m: u64,
    ghost known: { Known m },
}
