// Numbers and labels in bytes, lowest first.
ghost use Rattle.std.specs.Prelude.{ℕ, List, [], ◌∷◌, ◌++◌, ◌≡◌, ◌*◌, length};
ghost use Rattle.workerwax.specs.Layout.{halves};

// A number that is laid out in WIDTH bytes, the lowest first.
pub trait LowestFirst<const WIDTH: usize>: Copy {
    // The bytes of one, and of several, one after the other with nothing between.
    ghost bytes_of: { Self → List ℕ };

    ghost laid: { List Self → List ℕ };

    // The number that WIDTH bytes hold, and those that any bytes hold.
    ghost number_in: { List ℕ → Self };

    ghost held: { List ℕ → List Self };

    fn to_bytes(self) -> [u8; WIDTH]
        ensures { result ≡ bytes_of self };

    fn from_bytes(bytes: &[u8; WIDTH]) -> Self
        ensures { result ≡ number_in bytes.now };

    ghost laid_none: { laid [] ≡ [] };

    ghost laid_more: { (n : Self) (others : List Self) → laid (n ∷ others) ≡ bytes_of n ++ laid others };

    ghost held_none: { held [] ≡ [] };

    ghost held_more: { (front rest : List ℕ) → length front ≡ WIDTH → held (front ++ rest) ≡ number_in front ∷ held rest };
}

// Numbers into a slice that has just their bytes. They go in by place: of a slice that is lent in parts, as `chunks_exact_mut` and
// `split_first_chunk_mut` do in a loop, a proof knows no element afterwards.
pub fn put_numbers<const WIDTH: usize, N: LowestFirst<WIDTH>>(out: &mut [u8], numbers: &[N])
    requires { length out.old ≡ WIDTH * length numbers.now }
    ensures { out.new ≡ N.laid numbers.now }
{
    for (i, number) in numbers.iter().enumerate() {
        let at = WIDTH * i;
        out[at..at + WIDTH].copy_from_slice(&number.to_bytes());
    }
}

// Numbers out of a slice that has just their bytes: WIDTH are left for each number that is still to come, so that there is always a chunk.
// With `as_chunks` no branch would have to say so. But it asks that WIDTH is not 0, and that an array of WIDTH bytes is no larger than memory:
// a law more in the trait and in both impls, which is no plainer.
pub fn take_numbers<const WIDTH: usize, N: LowestFirst<WIDTH>>(bytes: &[u8], numbers: &mut [N])
    requires { length bytes.now ≡ WIDTH * length numbers.old }
    ensures { numbers.new ≡ N.held bytes.now }
{
    let mut left = bytes;
    for number in numbers.iter_mut() {
        let Some((front, rest)) = left.split_first_chunk() else {
            unreachable!()
        };
        *number = N::from_bytes(front);
        left = rest;
    }
}

// A number: four bytes, of its 32 lowest bits.
impl LowestFirst<4> for u64 {
    ghost use Rattle.std.specs.Int.{w32, from_le_bytes};
    ghost use Rattle.workerwax.specs.Layout.{word, words, numbers_in};
    ghost use Rattle.workerwax.specs.Laws.{words_none, words_more, no_numbers, numbers_more};

    ghost bytes_of = { word };

    ghost laid = { words };

    ghost number_in = { from_le_bytes w32 };

    ghost held = { numbers_in };

    ghost laid_none = { words_none };

    ghost laid_more = { words_more };

    ghost held_none = { no_numbers };

    ghost held_more = { numbers_more };

    #[tactic(auto, unfolding(crate::specs::Layout::word))]
    fn to_bytes(self) -> [u8; 4] {
        let [a, b, c, d, ..] = self.to_le_bytes();
        [a, b, c, d]
    }

    fn from_bytes(bytes: &[u8; 4]) -> u64 {
        u64::from(u32::from_le_bytes(*bytes))
    }
}

// A label: two bytes.
impl LowestFirst<2> for u16 {
    ghost use Rattle.std.specs.Int.{w16, to_le_bytes, from_le_bytes};
    ghost use Rattle.workerwax.specs.Layout.{label_bytes, labels_in};
    ghost use Rattle.workerwax.specs.Laws.{no_label_bytes, label_bytes_more, no_labels, labels_more};

    ghost bytes_of = { to_le_bytes w16 };

    ghost laid = { label_bytes };

    ghost number_in = { from_le_bytes w16 };

    ghost held = { labels_in };

    ghost laid_none = { no_label_bytes };

    ghost laid_more = { label_bytes_more };

    ghost held_none = { no_labels };

    ghost held_more = { labels_more };

    fn to_bytes(self) -> [u8; 2] {
        self.to_le_bytes()
    }

    fn from_bytes(bytes: &[u8; 2]) -> u16 {
        u16::from_le_bytes(*bytes)
    }
}

// A number of 64 bits as two of 32, the lower half first. An answer is numbers of four bytes from end to end (docs/INTERFACE.md), so that the
// eight bytes of `to_le_bytes` would have to be put behind them by themselves.
pub fn halves_of(n: u64) -> [u64; 2]
    ensures { result ≡ halves n }
{
    [n % 4294967296, n / 4294967296]
}
