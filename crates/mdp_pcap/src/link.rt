//! The link layer of a frame.

ghost use Rattle.std.specs.Prelude.{◌≡◌, ◌≤◌, ◌+◌};
ghost use Rattle.mdp_pcap.specs.Link.{link_of, network_of, network_content, plain, tagged, tagged_once, linked, is_tag};

use crate::number::big16;

/// The link layers that are read, by their numbers in the list of link-layer header types of tcpdump.org.
#[derive(Clone, Copy, Debug, PartialEq, Eq)]
pub enum Link {
    /// Ethernet, link type 1.
    Ethernet,
    /// IP with no link header, link type 101.
    RawIp,
    /// Linux "cooked" capture, link type 113.
    LinuxCooked,
    /// Linux "cooked" capture of version 2, link type 276.
    LinuxCooked2,
}

/// Gives the link layer of a number, if it is read.
pub(crate) fn link_of(number: u16) -> Option<Link>
    ensures { result ≡ link_of number }
{
    match number {
        1 => Some(Link::Ethernet),
        101 => Some(Link::RawIp),
        113 => Some(Link::LinuxCooked),
        276 => Some(Link::LinuxCooked2),
        _ => None,
    }
}

/// What stands behind the link layer of a frame.
#[derive(Clone, Copy)]
pub(crate) enum Network<'a> {
    /// Something else than IPv4.
    NotIp,
    /// The captured bytes end before it is told.
    Ends,
    /// An IPv4 packet.
    Ip(&'a [u8]),
}

/// The EtherType of IPv4.
const IPV4: u16 = 0x800;

/// The EtherType of an IEEE 802.1Q tag.
const CUSTOMER_TAG: u16 = 0x8100;

/// The EtherType of an IEEE 802.1ad tag.
const SERVICE_TAG: u16 = 0x88a8;

/// Gives what stands behind the link layer of a frame.
pub(crate) fn network_of<'a>(link: Link, bytes: &'a [u8]) -> Network<'a>
    ensures { network_content result ≡ network_of link bytes.now }
{
    match link {
        Link::Ethernet => linked(14, 12, bytes),
        Link::RawIp => Network::Ip(bytes),
        Link::LinuxCooked => linked(16, 14, bytes),
        Link::LinuxCooked2 => linked(20, 0, bytes),
    }
}

// Gives what stands behind a link header of so many bytes, which has the EtherType at an offset.
fn linked<'a>(header: usize, offset: usize, bytes: &'a [u8]) -> Network<'a>
    requires inside { offset + 2 ≤ header }
    requires few { header ≤ 20 }
    ensures { network_content result ≡ linked header offset bytes.now }
{
    if bytes.len() < header {
        return Network::Ends;
    }
    tagged(big16(bytes, offset), &bytes[header..])
}

fn is_tag(kind: u16) -> bool
    ensures { result ≡ is_tag kind }
{
    kind == CUSTOMER_TAG || kind == SERVICE_TAG
}

// Gives what stands behind an EtherType, with at most two tags.
fn tagged<'a>(kind: u16, rest: &'a [u8]) -> Network<'a>
    ensures { network_content result ≡ tagged kind rest.now }
{
    if !is_tag(kind) {
        return plain(kind, rest);
    }
    if rest.len() < 4 {
        return Network::Ends;
    }
    tagged_once(big16(rest, 2), &rest[4..])
}

// Gives what stands behind an EtherType, with at most one tag.
fn tagged_once<'a>(kind: u16, rest: &'a [u8]) -> Network<'a>
    ensures { network_content result ≡ tagged_once kind rest.now }
{
    if !is_tag(kind) {
        return plain(kind, rest);
    }
    if rest.len() < 4 {
        return Network::Ends;
    }
    plain(big16(rest, 2), &rest[4..])
}

// Gives what stands behind an EtherType that is no tag.
fn plain<'a>(kind: u16, rest: &'a [u8]) -> Network<'a>
    ensures { network_content result ≡ plain kind rest.now }
{
    if kind == IPV4 {
        return Network::Ip(rest);
    }
    Network::NotIp
}
