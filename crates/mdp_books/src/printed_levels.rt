//! Levels and their printed text.

ghost use Rattle.std.specs.Prelude.{◌≡◌, ◌≤◌, ◌<◌, ◌+◌, ◌-◌, [], ◌++◌, length, map, take, drop, insert, remove, slice_set};
ghost use Rattle.std.specs.List.{All};
ghost use Rattle.mdp_books.specs.Levels.{levels_text};

use crate::short_text::TextFromEnd;
use crate::text::Text;
use arrayvec::ArrayVec;
use mdp_templates::Level;
use std::marker::Model;

/// The text of one level: a space, a price of at most 20 bytes, `x`, and a size of at most 11.
type LevelText = TextFromEnd<44>;

/// At most `CAPACITY` levels, the best first, and beside them the text that they are printed as, and where each one's
/// ends in it. A level that comes, changes or goes moves the text behind it and puts together no other level's. It
/// takes no memory.
#[derive(Drop)]
pub struct PrintedLevels<const CAPACITY: usize> {
    levels: ArrayVec<Level, CAPACITY>,
    ends: ArrayVec<u16, CAPACITY>,
    text: Text<440>,
}

impl<const CAPACITY: usize> Model for PrintedLevels<CAPACITY> {
    ghost use Rattle.std.specs.Prelude.{List};
    ghost use Rattle.mdp_templates.specs.declared.entry.Level.{Level};
    ghost use Rattle.mdp_books.specs.Levels.{ArePrinted};

    ghost Value = { List Level };

    ghost view = { λ p. p.levels.items };

    ghost invariant = { λ p. ArePrinted CAPACITY p.levels.items p.ends.items p.text };
}

// Moves the ends from a place on: by `less` down, and by `more` up.
#[inline]
fn move_ends<const CAPACITY: usize>(
    ends: &mut ArrayVec<u16, CAPACITY>,
    from: usize,
    less: u16,
    more: u16,
)
    requires inside { from ≤ length ends.old.items }
    requires enough { All (λ end. less ≤ end) (drop from ends.old.items) }
    requires room { All (λ end. end + more < 65536) (drop from ends.old.items) }
    ensures { ends.new.items ≡ take from ends.old.items
        ++ map (λ end. end - less + more) (drop from ends.old.items) }
{
    if less == more {
        return;
    }
    let all = ends.as_mut_slice();
    for n in from..all.len() {
        all[n] = all[n] - less + more;
    }
}

// Puts an item in the place of another.
#[inline]
fn put_at<T: Copy, const CAPACITY: usize>(items: &mut ArrayVec<T, CAPACITY>, at: usize, item: T)
    requires { at < length items.old.items }
    ensures { items.new.items ≡ slice_set items.old.items at item }
{
    items[at] = item;
}

impl<const CAPACITY: usize> PrintedLevels<CAPACITY> {
    /// Makes an empty list of at most ten levels.
    pub fn new() -> PrintedLevels<CAPACITY>
        requires { CAPACITY ≤ 10 }
        ensures { result ≡ [] }
    {
        PrintedLevels {
            levels: ArrayVec::new(),
            ends: ArrayVec::new(),
            text: Text::new(),
        }
    }

    // Gives where the text of the level at a place begins: where that of the level before it ends.
    #[inline]
    fn start_of(&self, at: usize) -> usize
        requires { at ≤ length self.now }
        ensures value { result ≡ length (levels_text (take at self.now)) }
        ensures small { result ≤ 440 }
    {
        if at == 0 {
            return 0;
        }
        usize::from(self.ends[at - 1])
    }

    /// Lends the levels, the best first.
    #[inline]
    pub fn levels(&self) -> &[Level]
        ensures items { result.now ≡ self.now }
        ensures few { length self.now ≤ CAPACITY }
    {
        self.levels.as_slice()
    }

    /// Returns how many levels there are.
    #[inline]
    pub fn len(&self) -> usize
        ensures value { result ≡ length self.now }
        ensures few { result ≤ CAPACITY }
    {
        self.levels.len()
    }

    /// Lends the text of the levels, one after another.
    #[inline]
    pub fn text(&self) -> &[u8]
        ensures { result.now ≡ levels_text self.now }
    {
        self.text.as_slice()
    }

    /// Lends the text of the levels from `from` on and below `to`, counted from 0.
    #[inline]
    pub fn text_of(&self, from: usize, to: usize) -> &[u8]
        requires order { from ≤ to }
        requires inside { to ≤ length self.now }
        ensures { result.now ≡ levels_text (take (to - from) (drop from self.now)) }
    {
        let start = self.start_of(from);
        let end = self.start_of(to);
        self.text.part(start, end)
    }

    /// Puts a level at a place, counted from 0; those from there on move back by one.
    pub fn insert(&mut self, at: usize, level: Level)
        requires inside { at ≤ length self.old }
        requires room { length self.old < CAPACITY }
        ensures { self.new ≡ insert self.old at level }
    {
        let mut text = LevelText::new();
        text.put_quote(level.price, i64::from(level.size));
        let size = text.as_slice().len() as u16;
        let start = self.start_of(at);
        self.text.splice(start, start, text.as_slice());
        self.ends.insert(at, start as u16);
        move_ends(&mut self.ends, at, 0, size);
        self.levels.insert(at, level);
    }

    /// Puts a level in the place of another, counted from 0.
    pub fn set(&mut self, at: usize, level: Level)
        requires { at < length self.old }
        ensures { self.new ≡ slice_set self.old at level }
    {
        let mut text = LevelText::new();
        text.put_quote(level.price, i64::from(level.size));
        let size = text.as_slice().len() as u16;
        let start = self.start_of(at);
        let end = self.start_of(at + 1);
        self.text.splice(start, end, text.as_slice());
        move_ends(&mut self.ends, at, (end - start) as u16, size);
        put_at(&mut self.levels, at, level);
    }

    /// Takes the level at a place, counted from 0, out; those behind it move up.
    pub fn remove(&mut self, at: usize)
        requires { at < length self.old }
        ensures { self.new ≡ remove self.old at }
    {
        let start = self.start_of(at);
        let end = self.start_of(at + 1);
        self.text.splice(start, end, b"");
        self.ends.remove(at);
        move_ends(&mut self.ends, at, (end - start) as u16, 0);
        self.levels.remove(at);
    }

    /// Keeps the first levels, this many where there are so many.
    pub fn truncate(&mut self, count: usize)
        ensures { self.new ≡ take count self.old }
    {
        let all = self.levels.len();
        if count < all {
            let start = self.start_of(count);
            let end = self.start_of(all);
            self.text.splice(start, end, b"");
            self.ends.truncate(count);
            self.levels.truncate(count);
        }
    }
}
