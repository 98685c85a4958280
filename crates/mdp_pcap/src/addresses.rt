//! The multicast groups and ports of a channel's feeds.

ghost use Rattle.std.specs.Prelude.{◌≡◌, ◌==◌, ◌++◌, ◌∷◌, [], None, length, OnOk, OnErr};
ghost use Rattle.mdp_pcap.specs.Address.{feed_at, has_group, has_feed, sole_feed};

use mdp_templates::Feed;
use std::alloc::{AllocError, Allocator};
use std::marker::Model;

/// A multicast group and a port on which a feed comes.
#[derive(Clone, Copy, Debug, PartialEq, Eq)]
pub struct FeedAddress {
    /// The feed.
    pub feed: Feed,
    /// The multicast group, its first byte highest.
    pub group: u32,
    /// The port.
    pub port: u16,
}

/// The addresses of a channel's feeds, seen as their list: no two have one group and port.
#[derive(Drop)]
pub struct FeedAddresses<A: Allocator> {
    addresses: Vec<FeedAddress, A>,
}

impl<A: Allocator> Model for FeedAddresses<A> {
    ghost use Rattle.std.specs.Prelude.{List};
    ghost use Rattle.mdp_pcap.specs.Address.{AreApart};
    ghost use Rattle.mdp_pcap.specs.declared.addresses.FeedAddress.{FeedAddress};

    ghost Value = { List FeedAddress };

    ghost view = { λ a. a.addresses.items };

    ghost invariant = { λ a. AreApart a.addresses.items };
}

impl<A: Allocator> FeedAddresses<A> {
    /// Makes a list of no address.
    pub fn new(alloc: A) -> FeedAddresses<A>
        ensures { result ≡ [] }
    {
        FeedAddresses {
            addresses: Vec::new(alloc),
        }
    }

    /// Answers whether there is no address.
    pub fn is_empty(&self) -> bool
        ensures { result ≡ (length self.now == 0) }
    {
        self.addresses.is_empty()
    }

    /// Adds an address. `feed_at` tells whether its group and port are some feed's already.
    ///
    /// # Errors
    ///
    /// Where memory ran out; then the list is as it was.
    pub fn add(&mut self, address: FeedAddress) -> Result<(), AllocError>
        requires { feed_at address.group address.port self.old ≡ None }
        ensures ok { OnOk result (self.new ≡ address ∷ self.old) }
        ensures err { OnErr result (self.new ≡ self.old) }
    {
        self.addresses.insert(0, address)?;
        Ok(())
    }

    /// Gives the feed of a group and a port, if they are some feed's.
    pub fn feed_at(&self, group: u32, port: u16) -> Option<Feed>
        ensures { result ≡ feed_at group port self.now }
    {
        find_feed(&self.addresses, group, port)
    }

    /// Answers whether a group is some feed's.
    pub(crate) fn has_group(&self, group: u32) -> bool
        ensures { result ≡ has_group group self.now }
    {
        any_of_group(&self.addresses, group)
    }

    /// Gives the feed of a group, if it is one feed's alone.
    pub(crate) fn sole_feed(&self, group: u32) -> Option<Feed>
        ensures { result ≡ sole_feed group self.now }
    {
        let addresses = self.addresses.as_slice();
        let a = any_of_feed(addresses, group, Feed::A);
        let b = any_of_feed(addresses, group, Feed::B);
        let s = any_of_feed(addresses, group, Feed::S);
        only_one(a, b, s)
    }
}

fn find_feed(addresses: &[FeedAddress], group: u32, port: u16) -> Option<Feed>
    ensures { result ≡ feed_at group port addresses.now }
{
    for address in addresses {
        if address.group == group {
            if address.port == port {
                return Some(address.feed);
            }
        }
    }
    None
}

fn any_of_group(addresses: &[FeedAddress], group: u32) -> bool
    ensures { result ≡ has_group group addresses.now }
{
    addresses.iter().any(|address| address.group == group)
}

fn any_of_feed(addresses: &[FeedAddress], group: u32, feed: Feed) -> bool
    ensures { result ≡ has_feed feed group addresses.now }
{
    let letter = feed.letter();
    addresses.iter().any(|address| address.group == group && address.feed.letter() == letter)
}

ghost use Rattle.mdp_pcap.specs.Address.{only_one};

// Gives the one of the three feeds that is there, if just one is.
fn only_one(a: bool, b: bool, s: bool) -> Option<Feed>
    ensures { result ≡ only_one a b s }
{
    match (a, b, s) {
        (true, false, false) => Some(Feed::A),
        (false, true, false) => Some(Feed::B),
        (false, false, true) => Some(Feed::S),
        _ => None,
    }
}
