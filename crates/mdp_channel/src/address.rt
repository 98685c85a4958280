//! The line of a feed's address.

ghost use Rattle.std.specs.Prelude.{◌≡◌};
ghost use Rattle.mdp_channel.specs.Address.{address_of, feed_of, group_of};

use crate::field::{byte_of, cut_at, port_of};
use mdp_pcap::FeedAddress;
use mdp_templates::Feed;

/// Gives the address that a line says, as `F A 224.0.31.1 14310`, if it says one.
pub(crate) fn address_of(line: &[u8]) -> Option<FeedAddress>
    ensures { result ≡ address_of line.now }
{
    let (letter, rest) = cut_at(b' ', line);
    if letter != b"F".as_slice() {
        return None;
    }
    let (feed, rest) = cut_at(b' ', rest?);
    let (group, rest) = cut_at(b' ', rest?);
    let (port, rest) = cut_at(b' ', rest?);
    if rest.is_some() {
        return None;
    }
    let feed = feed_of(feed)?;
    let group = group_of(group)?;
    let port = port_of(port)?;
    Some(FeedAddress { feed, group, port })
}

// Gives the feed that a field names by its letter.
fn feed_of(field: &[u8]) -> Option<Feed>
    ensures { result ≡ feed_of field.now }
{
    match field {
        [b'A'] => Some(Feed::A),
        [b'B'] => Some(Feed::B),
        [b'S'] => Some(Feed::S),
        _ => None,
    }
}

// Gives the IPv4 address that a field spells in dotted decimals, its first byte highest.
fn group_of(field: &[u8]) -> Option<u32>
    ensures { result ≡ group_of field.now }
{
    let (first, rest) = cut_at(b'.', field);
    let (second, rest) = cut_at(b'.', rest?);
    let (third, rest) = cut_at(b'.', rest?);
    let (fourth, rest) = cut_at(b'.', rest?);
    if rest.is_some() {
        return None;
    }
    let first = byte_of(first)?;
    let second = byte_of(second)?;
    let third = byte_of(third)?;
    let fourth = byte_of(fourth)?;
    Some(u32::from_be_bytes([first, second, third, fourth]))
}
