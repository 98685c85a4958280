//! The lines of a text.

ghost use Rattle.std.specs.Prelude.{◌≡◌};
ghost use Rattle.std.specs.Iterator.{YieldsFirstRef, item_count};
ghost use Rattle.std.specs.Str.Lines.{lines};

use memchr::memchr;

/// The lines of a text that are left, each without its line feed and one carriage return before that.
/// What stands behind the last line feed is a line as it is, unless it is empty.
#[derive(Drop)]
pub(crate) struct Lines<'a> {
    rest: &'a [u8],
}

impl<'a> Lines<'a> {
    /// Goes over the lines of a text from its first.
    pub(crate) fn new(text: &'a [u8]) -> Lines<'a>
        ensures { result.rest.now ≡ text.now }
    {
        Lines { rest: text }
    }
}

impl<'a> Iterator for Lines<'a> {
    type Item = &'a [u8];

    ghost next_gives = { YieldsFirstRef (λ s. lines s.rest.now) };

    ghost remaining = { item_count (λ s. lines s.rest.now) };

    fn next(&mut self) -> Option<&'a [u8]> {
        let text = self.rest;
        if text.is_empty() {
            return None;
        }
        let Some(end) = memchr(b'\n', text) else {
            self.rest = &text[text.len()..];
            return Some(text);
        };
        self.rest = &text[end + 1..];
        let line = &text[..end];
        Some(line.strip_suffix(b"\r").unwrap_or(line))
    }
}
