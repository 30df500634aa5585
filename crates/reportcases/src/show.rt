// How a sequence and its fields are printed.
use info::info1c::{Block, Info1c};
use spelling::show::Parts;
use std::fmt;

// Where the parts of a sequence begin: fill, sync, the two reductions, MD, six blocks, the offset, the check, fill, and what stands behind.
const STARTS: [usize; 15] = [0, 4, 12, 15, 18, 25, 34, 43, 52, 61, 70, 79, 89, 105, 109];

pub fn sequence(bytes: &[u8]) -> Parts<'_> {
    Parts {
        bytes,
        starts: &STARTS,
    }
}

// Fields, each behind a space.
#[derive(Drop)]
pub struct Named(pub Info1c);

// Each by its name, so that a name which stands for another field is seen.
impl fmt::Display for Named {
    fn fmt<W: fmt::Write>(&self, f: &mut fmt::Formatter<W>) -> fmt::Result {
        let fields = self.0;
        let Info1c {
            power,
            extra,
            md,
            ..
        } = fields;
        write!(f, " {power} {extra} {md}")?;
        for block in [
            fields.at_2400,
            fields.at_2743,
            fields.at_2800,
            fields.at_3000,
            fields.at_3200,
            fields.at_3429,
        ] {
            let Block {
                carrier,
                filter,
                rate,
            } = block;
            write!(f, " {carrier} {filter} {rate}")?;
        }
        Ok(())
    }
}
