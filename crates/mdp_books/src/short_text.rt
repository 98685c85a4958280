//! Short texts, put together on the stack.

ghost use Rattle.std.specs.Prelude.{◌≡◌, ◌+◌, ◌<◌, ◌≤◌, ◌++◌, ◌∷◌, [], length, decimal};
ghost use Rattle.std.specs.Fmt.{signed_decimal};
ghost use Rattle.mdp_books.specs.Levels.{quote_text};

use itoa::write_digits;
use std::marker::Model;

/// A text of at most 64 bytes.
pub type ShortText = TextFromEnd<64>;

/// A text of at most `MOST` bytes that grows at its front, since digits come from the last to the first. It takes no
/// memory.
#[derive(Drop)]
pub struct TextFromEnd<const MOST: usize> {
    bytes: [u8; MOST],
    start: usize,
}

impl<const MOST: usize> Model for TextFromEnd<MOST> {
    ghost use Rattle.std.specs.Prelude.{◌≤◌, ℕ, List, drop};

    ghost Value = { List ℕ };

    ghost view = { λ t. drop t.start t.bytes };

    ghost invariant = { λ t. t.start ≤ MOST };
}

impl<const MOST: usize> TextFromEnd<MOST> {
    /// Makes a text with no byte yet.
    #[inline]
    pub fn new() -> TextFromEnd<MOST>
        ensures { result ≡ [] }
    {
        TextFromEnd {
            bytes: [0; MOST],
            start: MOST,
        }
    }

    /// Lends the text.
    #[inline]
    pub fn as_slice(&self) -> &[u8]
        ensures { result.now ≡ self.now }
    {
        let all = &self.bytes[..];
        &all[self.start..]
    }

    /// Puts a byte in front.
    #[inline]
    pub fn put_byte(&mut self, byte: u8)
        requires { 1 + length self.old ≤ MOST }
        ensures text { self.new ≡ byte ∷ self.old }
        ensures size { length self.new ≡ 1 + length self.old }
    {
        self.start -= 1;
        self.bytes[self.start] = byte;
    }

    /// Puts bytes in front.
    #[inline]
    pub fn put_bytes(&mut self, bytes: &[u8])
        requires { length bytes.now + length self.old ≤ MOST }
        ensures text { self.new ≡ bytes.now ++ self.old }
        ensures size { length self.new ≡ length bytes.now + length self.old }
    {
        let end = self.start;
        self.start -= bytes.len();
        let all = &mut self.bytes[..];
        all[self.start..end].copy_from_slice(bytes);
    }

    /// Puts a number in front, in decimal.
    #[inline]
    pub fn put_number(&mut self, number: u64)
        requires { 20 + length self.old ≤ MOST }
        ensures text { self.new ≡ decimal number ++ self.old }
        ensures size { length self.new ≤ 20 + length self.old }
    {
        if number < 10_000 {
            self.put_small(number);
        } else {
            self.start = write_digits(number, &mut self.bytes, self.start);
        }
    }

    // Puts a number in front as the last digits of 10,000 and the number: in the same steps, however many digits it
    // has.
    #[inline]
    fn put_small(&mut self, number: u64)
        requires below { number < 10_000 }
        requires room { 5 + length self.old ≤ MOST }
        ensures text { self.new ≡ decimal number ++ self.old }
        ensures size { length self.new ≤ 4 + length self.old }
    {
        let one = write_digits(10_000 + number, &mut self.bytes, self.start);
        let zeros = usize::from(number < 1_000)
            + usize::from(number < 100)
            + usize::from(number < 10);
        self.start = one + 1 + zeros;
    }

    /// Puts a number in front, in decimal, with `-` where it is negative.
    #[inline]
    pub fn put_signed(&mut self, number: i64)
        requires { 21 + length self.old ≤ MOST }
        ensures text { self.new ≡ signed_decimal number ++ self.old }
        ensures size { length self.new ≤ 21 + length self.old }
    {
        self.put_number(number.unsigned_abs());
        if number < 0 {
            self.put_byte(b'-');
        }
    }

    /// Puts a level in front: a space, the price, `x` and the size.
    #[inline]
    #[tactic(auto, unfolding(crate::specs::Levels::quote_text))]
    pub fn put_quote(&mut self, price: i64, size: i64)
        requires { 44 + length self.old ≤ MOST }
        ensures text { self.new ≡ quote_text price size ++ self.old }
        ensures size { length self.new ≤ 44 + length self.old }
    {
        self.put_signed(size);
        self.put_byte(b'x');
        self.put_signed(price);
        self.put_byte(b' ');
    }
}
