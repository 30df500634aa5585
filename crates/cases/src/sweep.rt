// Sweeps over the first numbers, or plain sets, of a K and an M: what is asked of each, and how many of them agree.
ghost use Rattle.std.specs.Prelude.{◌≤◌};

use crate::order::stands_before;
use refusals::Refusal;
use std::fmt;

// A K, an M, and how many are swept.
#[derive(Drop)]
pub struct Sweep {
    pub k: u64,
    pub m: u64,
    pub swept: u64,
    pub ghost known: { (1 ≤ m) × (m ≤ 18) },
}

impl fmt::Display for Sweep {
    fn fmt<W: fmt::Write>(&self, f: &mut fmt::Formatter<W>) -> fmt::Result {
        let Sweep { k, m, swept } = self;
        write!(f, "M {m} K {k}, {swept}")
    }
}

impl Sweep {
    // The set whose rings are the digits of a number in base M, lowest first: over the numbers below M^8 each set comes once.
    fn plain_set(&self, number: u64) -> [u8; 8] {
        let mut set = [0u8; 8];
        let mut rest = number;
        for ring in &mut set {
            *ring = (rest % self.m) as u8;
            rest /= self.m;
        }
        set
    }

    // How many of the plain sets stand before x.
    pub fn standing(&self, x: &[u8; 8]) -> usize {
        (0..self.swept)
            .filter(|i| stands_before(&self.plain_set(*i), x))
            .count()
    }

    // Is the number mapped to rings that are ranked to it?
    pub fn comes_back(&self, s: u64) -> bool {
        let mut set = [9u8; 8];
        rings::map(self.k, self.m, s, &mut set).is_ok()
            && rings::rank(self.k, self.m, &set) == Ok(s)
    }

    // What the ranker answers to plain set i.
    pub fn rank_of(&self, i: u64) -> Result<u64, Refusal> {
        rings::rank(self.k, self.m, &self.plain_set(i))
    }

    // Is plain set i ranked by how many stand before it?
    pub fn in_order(&self, i: u64) -> bool {
        self.rank_of(i) == Ok(self.standing(&self.plain_set(i)) as u64)
    }

    // How many of those swept answer yes.
    pub fn agreed<F: Fn(u64) -> bool>(&self, asked: F) -> usize
        requires { F.IsAlwaysCallable asked }
    {
        (0..self.swept).filter(|i| asked(*i)).count()
    }
}
