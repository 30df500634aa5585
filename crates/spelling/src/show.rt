// How lists are printed.
use std::fmt;

// Numbers, each behind a space.
#[derive(Drop)]
pub struct Spaced<'a, T>(pub &'a [T]);

impl<T: fmt::Display> fmt::Display for Spaced<'_, T> {
    fn fmt<W: fmt::Write>(&self, f: &mut fmt::Formatter<W>) -> fmt::Result {
        for number in self.0 {
            write!(f, " {number}")?;
        }
        Ok(())
    }
}

// Bytes below ten, a digit to each, with a space before each part. `starts` has the first place of each part.
#[derive(Drop)]
pub struct Parts<'a> {
    pub bytes: &'a [u8],
    pub starts: &'a [usize],
}

impl fmt::Display for Parts<'_> {
    fn fmt<W: fmt::Write>(&self, f: &mut fmt::Formatter<W>) -> fmt::Result {
        for (place, byte) in self.bytes.iter().enumerate() {
            if self.starts.contains(&place) {
                f.write_str(" ")?;
            }
            write!(f, "{byte}")?;
        }
        Ok(())
    }
}
