//! The printed text of levels, written out.

use crate::{PrintedLevels, ShortText};
use mdp_templates::Level;

fn level(price: i64, size: i32) -> Level {
    Level { price, size }
}

#[test]
fn the_text_follows_the_levels(rt: HostRuntime) {
    let mut side = PrintedLevels::<10>::new();
    assert_eq!(rt; side.text(), b"".as_slice());
    side.insert(0, level(99, 6));
    side.insert(0, level(100, 5));
    side.insert(2, level(-25_000_000, -7));
    assert_eq!(rt; side.text(), b" 100x5 99x6 -25000000x-7".as_slice());
    assert_eq!(rt; side.text_of(1, 3), b" 99x6 -25000000x-7".as_slice());
    assert_eq!(rt; side.text_of(2, 2), b"".as_slice());
    side.set(1, level(i64::MIN, i32::MIN));
    assert_eq!(rt;
        side.text(),
        b" 100x5 -9223372036854775808x-2147483648 -25000000x-7".as_slice()
    );
    side.remove(0);
    assert_eq!(rt;
        side.text(),
        b" -9223372036854775808x-2147483648 -25000000x-7".as_slice()
    );
    side.truncate(1);
    assert_eq!(rt;
        side.text(),
        b" -9223372036854775808x-2147483648".as_slice()
    );
    side.truncate(4);
    assert_eq!(rt; side.len(), 1);
    assert_eq!(rt; side.levels(), [level(i64::MIN, i32::MIN)].as_slice());
}

#[test]
fn ten_of_the_longest_texts_fit(rt: HostRuntime) {
    let mut side = PrintedLevels::<10>::new();
    for _ in 0..10 {
        if side.len() < 10 {
            side.insert(0, level(i64::MIN, i32::MIN));
        }
    }
    assert_eq!(rt; side.len(), 10);
    assert_eq!(rt; side.text().len(), 330);
}

#[test]
fn a_short_text_grows_at_its_front(rt: HostRuntime) {
    let mut text = ShortText::new();
    text.put_byte(b'\n');
    text.put_signed(-12_345);
    text.put_bytes(b" and ");
    text.put_number(907);
    assert_eq!(rt; text.as_slice(), b"907 and -12345\n".as_slice());
    let mut level = ShortText::new();
    level.put_quote(1_000, -5);
    assert_eq!(rt; level.as_slice(), b" 1000x-5".as_slice());
}
