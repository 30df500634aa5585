// The counts of an M, as they are kept.
ghost use Rattle.counts.specs.Rows.{Rows};

// How many pairs and fours of rings below m have each sum, and how many eights are lighter than each weight. The rows of pairs and
// fours end in zeros, so that a sum that is too large counts nothing and no index leaves them. Of `lighter` nothing is said beyond
// 8(M − 1), the largest weight, and nothing there is read. Whoever wants counts of their own may copy them; here they are lent, since they have
// 2.7 KB.
#[derive(Clone, Copy)]
pub struct Counts {
    pub m: u64,
    pub pairs: [u64; 69],
    pub fours: [u64; 137],
    pub lighter: [u64; 137],
    pub ghost rows: { Rows m pairs fours lighter },
}
