// A text of at most N bytes in the making.
ghost use Rattle.std.specs.Prelude.{ℕ, ◌≡◌, ◌+◌, ◌≤◌, List, [], ◌∷◌, ◌++◌, length, take};
ghost use Rattle.texts.specs.Decimal.{decimal, spaced};
ghost use Rattle.texts.specs.Buffer.{Room, Wrote};

use std::marker::Model;

#[derive(Drop)]
pub struct Line<const N: usize> {
    bytes: [u8; N],
    len: usize,
}

// Clauses see the bytes said so far.
impl<const N: usize> Model for Line<N> {
    ghost Value = { List ℕ };

    ghost view = { λ l. take l.len l.bytes };

    ghost invariant = { λ l. l.len ≤ N };
}

impl<const N: usize> Line<N> {
    pub fn new() -> Self
        ensures { result ≡ [] }
    {
        Line {
            bytes: [0; N],
            len: 0,
        }
    }

    // A text.
    pub fn say(&mut self, text: &[u8])
        requires { length self.old + length text.now ≤ N }
        ensures { self.new ≡ self.old ++ text.now }
    {
        let (at, end) = (self.len, self.len + text.len());
        let all = &mut self.bytes[..];
        all[at..end].copy_from_slice(text);
        self.len = end;
    }

    // A byte.
    pub fn byte(&mut self, b: u8)
        requires { length self.old + 1 ≤ N }
        ensures { self.new ≡ self.old ++ b ∷ [] }
    {
        self.bytes[self.len] = b;
        self.len += 1;
    }

    // The number n in decimal.
    pub fn number(&mut self, n: u64)
        requires { length self.old + length (decimal n) ≤ N }
        ensures { self.new ≡ self.old ++ decimal n }
    {
        let at = self.len;
        let all = &mut self.bytes[..];
        self.len = crate::printing::number(all, at, n);
    }

    // A number and the space after it.
    #[tactic(auto, using(crate::proofs::Digits::length_spaced), unfolding(crate::specs::Decimal::spaced))]
    pub fn field(&mut self, n: u64)
        requires { length self.old + length (spaced n) ≤ N }
        ensures { self.new ≡ self.old ++ spaced n }
    {
        self.number(n);
        self.byte(b' ');
    }

    fn text(&self) -> &[u8]
        ensures { result.now ≡ self.now }
    {
        &self.bytes[..self.len]
    }

    // The line at a place of the buffer; the next place.
    pub fn put(&self, out: &mut [u8], at: usize) -> usize
        requires { Room out.old at self.now }
        ensures { Wrote out.old at self.now result out.new }
    {
        let text = self.text();
        crate::printing::say(out, at, text)
    }
}
