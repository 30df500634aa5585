// The text of a line, put together piece by piece in fixed memory.
ghost use Rattle.std.specs.Prelude.{[], ◌∷◌, ◌++◌, ◌≡◌, ◌+◌, ◌<◌, ◌≤◌, length};
ghost use Rattle.settings.specs.Decimal.{decimal};
ghost use Rattle.settings.specs.Lines.{spaced, joined};

use std::marker::Model;

// How many bytes are enough for every line: no value of accepted settings has more than four digits, and each of the eight has a space or
// the line feed behind it.
pub const ROOM: usize = 40;

// The bytes put so far. The crates stand on no library but std, and std has no text in fixed memory.
#[derive(Drop)]
pub struct Text {
    bytes: [u8; ROOM],
    count: usize,
}

impl Model for Text {
    ghost use Rattle.std.specs.Prelude.{◌≤◌, List, ℕ, take};
    ghost use Rattle.settings.specs.declared.text.TheConstants.{ROOM};

    ghost Value = { List ℕ };

    ghost view = { λ t. take t.count t.bytes };

    ghost invariant = { λ t. t.count ≤ ROOM };
}

impl Text {
    pub fn new() -> Text
        ensures { result ≡ [] }
    {
        Text {
            bytes: [0; ROOM],
            count: 0,
        }
    }

    pub fn as_bytes(&self) -> &[u8]
        ensures { result.now ≡ self.now }
    {
        &self.bytes[..self.count]
    }

    // One byte.
    pub fn put_byte(&mut self, byte: u8)
        requires { length self.old < ROOM }
        ensures { self.new ≡ self.old ++ byte ∷ [] }
    {
        self.bytes[self.count] = byte;
        self.count += 1;
    }

    // Bytes one after the other.
    pub fn put_bytes(&mut self, bytes: &[u8])
        requires { length self.old + length bytes.now ≤ ROOM }
        ensures { self.new ≡ self.old ++ bytes.now }
    {
        let end = self.count + bytes.len();
        self.bytes[self.count..end].copy_from_slice(bytes);
        self.count = end;
    }

    // A number in decimal: the digits of a tenth of it, and then the last digit. std's printing says what is written where the write
    // succeeds, and not that it does, so that no contract here could rest on it.
    #[tactic(auto, using(crate::proofs::Decimals::steps))]
    pub fn put_number(&mut self, n: u64)
        requires { length self.old + length (decimal n) ≤ ROOM }
        ensures { self.new ≡ self.old ++ decimal n }
    {
        if n >= 10 {
            self.put_number(n / 10);
        }
        self.put_byte(b'0' + (n % 10) as u8);
    }

    // A number in decimal, with a space before it.
    #[tactic(auto, using(crate::proofs::Joins::pieces))]
    pub fn put_spaced(&mut self, n: u64)
        requires { length self.old + length (spaced (n ∷ [])) ≤ ROOM }
        ensures { self.new ≡ self.old ++ spaced (n ∷ []) }
    {
        self.put_byte(b' ');
        self.put_number(n);
    }

    // Numbers in decimal, with one space between.
    #[tactic(auto, using(crate::proofs::Joins::pieces))]
    pub fn put_joined(&mut self, numbers: &[u64])
        requires { length self.old + length (joined numbers.now) ≤ ROOM }
        ensures { self.new ≡ self.old ++ joined numbers.now }
    {
        let Some((first, rest)) = numbers.split_first() else {
            return;
        };
        self.put_number(*first);
        for number in rest {
            self.put_spaced(*number);
        }
    }
}
