//! The datagram of a frame.

ghost use Rattle.std.specs.Prelude.{◌≡◌, ◌≤◌, length, drop};
ghost use Rattle.mdp_pcap.specs.Frame.{captured_content, frame_of, frame_content, is_cut, over_network};
ghost use Rattle.mdp_pcap.specs.Frame.{ip_of, udp_of, sized, unread, unended, header_length, is_udp, is_fragment};
ghost use Rattle.mdp_pcap.specs.Link.{network_content};

use crate::link::{Link, Network, network_of};
use crate::number::{big16, big32};

/// A frame as it was captured.
#[derive(Clone, Copy)]
pub struct CapturedFrame<'a> {
    /// What its bytes begin with.
    pub link: Link,
    /// The bytes that were captured.
    pub bytes: &'a [u8],
    /// How many bytes the frame had on the wire.
    pub original: u32,
}

/// What a captured frame carries. A group is an IPv4 address, its first byte highest.
#[derive(Clone, Copy)]
pub enum Frame<'a> {
    /// No UDP datagram over IPv4.
    Other,
    /// The rest was not captured, the group neither.
    CutBeforeGroup,
    /// An unfragmented UDP datagram to a group, of which the rest was not captured, the port neither.
    CutBeforePort(u32),
    /// A datagram to a group and a port of which not all bytes were captured.
    Cut(u32, u16),
    /// A fragment of a UDP datagram to a group.
    Fragment(u32),
    /// A datagram to a group and a port whose lengths contradict one another, or its frame's.
    Broken(u32, u16),
    /// A datagram to a group and a port, and its payload.
    Datagram(u32, u16, &'a [u8]),
}

/// The least length of an IPv4 header in bytes.
const IP_LENGTH: usize = 20;

/// The length of a UDP header in bytes.
const UDP_LENGTH: usize = 8;

/// Gives what a captured frame carries: its link layer with at most two tags (IEEE 802.1Q), IPv4 (RFC 791), UDP
/// (RFC 768). The payload is lent from the frame.
pub fn frame_of<'a>(captured: CapturedFrame<'a>) -> Frame<'a>
    ensures { frame_content result ≡ frame_of (captured_content captured.entry) }
{
    let cut = captured.bytes.len() < captured.original as usize;
    over_network(cut, network_of(captured.link, captured.bytes))
}

// Gives what stands behind a link layer.
fn over_network<'a>(cut: bool, network: Network<'a>) -> Frame<'a>
    ensures { frame_content result ≡ over_network cut (network_content network.entry) }
{
    match network {
        Network::NotIp => Frame::Other,
        Network::Ends => unread(cut),
        Network::Ip(ip) => ip_of(cut, ip),
    }
}

// Gives what a frame is whose bytes end before its group.
fn unread<'a>(cut: bool) -> Frame<'a>
    ensures { frame_content result ≡ unread cut }
{
    if cut {
        Frame::CutBeforeGroup
    } else {
        Frame::Other
    }
}

// Gives what a datagram is whose bytes end before it does.
fn unended<'a>(cut: bool, group: u32, port: u16) -> Frame<'a>
    ensures { frame_content result ≡ unended cut group port }
{
    if cut {
        return Frame::Cut(group, port);
    }
    Frame::Broken(group, port)
}

// Gives what an IPv4 packet carries.
fn ip_of<'a>(cut: bool, ip: &'a [u8]) -> Frame<'a>
    ensures { frame_content result ≡ ip_of cut ip.now }
{
    if ip.len() < IP_LENGTH {
        return unread(cut);
    }
    if !is_udp(ip) {
        return Frame::Other;
    }
    let group = big32(ip, 16);
    if is_fragment(ip) {
        return Frame::Fragment(group);
    }
    let header = header_length(ip);
    let room = (big16(ip, 2) as usize).saturating_sub(header);
    udp_of(cut, group, room, behind(ip, header))
}

// Gives what stands behind so many bytes, which is nothing where there are fewer.
fn behind<'a>(text: &'a [u8], count: usize) -> &'a [u8]
    ensures { result.now ≡ drop count text.now }
{
    if count > text.len() {
        return &[];
    }
    &text[count..]
}

fn header_length(ip: &[u8]) -> usize
    requires { 20 ≤ length ip.now }
    ensures { result ≡ header_length ip.now }
{
    (ip[0] % 16 * 4) as usize
}

fn is_udp(ip: &[u8]) -> bool
    requires { 20 ≤ length ip.now }
    ensures { result ≡ is_udp ip.now }
{
    ip[0] / 16 == 4 && header_length(ip) >= IP_LENGTH && ip[9] == 17
}

fn is_fragment(ip: &[u8]) -> bool
    requires { 20 ≤ length ip.now }
    ensures { result ≡ is_fragment ip.now }
{
    big16(ip, 6) % 16384 > 0
}

// Gives what a UDP datagram to a group is, where its IPv4 packet has room for so many bytes.
fn udp_of<'a>(cut: bool, group: u32, room: usize, udp: &'a [u8]) -> Frame<'a>
    ensures { frame_content result ≡ udp_of cut group room udp.now }
{
    if udp.len() < 4 {
        if cut {
            return Frame::CutBeforePort(group);
        }
        return Frame::Other;
    }
    let port = big16(udp, 2);
    if udp.len() < UDP_LENGTH {
        return unended(cut, group, port);
    }
    let size = big16(udp, 4) as usize;
    if size < UDP_LENGTH {
        return Frame::Broken(group, port);
    }
    if room < size {
        return Frame::Broken(group, port);
    }
    if udp.len() < size {
        return unended(cut, group, port);
    }
    Frame::Datagram(group, port, &udp[UDP_LENGTH..size])
}
