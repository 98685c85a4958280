//! The notation of packets and snapshots in the rows.

use mdp_templates::{Action, Entry, Kind, Level, Message, Packet, Snapshot};
use std::alloc::{AllocError, Global};

// Returns the word of a side.
fn kind_word(kind: Kind) -> &'static str {
    match kind {
        Kind::Bid => "bid",
        Kind::Offer => "offer",
        Kind::ImpliedBid => "ibid",
        Kind::ImpliedOffer => "ioffer",
    }
}

// Writes an entry as ` [security kind action level pricexsize]`; of a delete there is neither price nor size.
fn push_entry(text: &mut String, entry: &Entry) -> Result<(), AllocError> {
    let kind = kind_word(entry.kind);
    let security = entry.security;
    let level = entry.level;
    let price = entry.price;
    let size = entry.size;
    match entry.action {
        Action::New => write!(text, " [{security} {kind} new {level} {price}x{size}]"),
        Action::Change => write!(text, " [{security} {kind} chg {level} {price}x{size}]"),
        Action::Delete => write!(text, " [{security} {kind} del {level}]"),
    }
}

// Writes a message as ` (end entries)` or ` (more entries)`.
fn push_message(text: &mut String, message: &Message<'_>) -> Result<(), AllocError> {
    text.push_str(if message.is_end() { " (end" } else { " (more" })?;
    for entry in message.entries() {
        push_entry(text, entry)?;
    }
    text.push_str(")")
}

/// Writes a packet as `ok packet NUMBER` and its messages.
pub fn packet_text(alloc: Global, packet: &Packet<Global>) -> Result<String, AllocError> {
    let number = packet.number();
    let mut text = format!(in alloc; "ok packet {number}")?;
    for n in 0..packet.len() {
        push_message(&mut text, &packet.message(n))?;
    }
    Ok(text)
}

// Writes a side as its word and its levels.
fn push_side(text: &mut String, word: &str, levels: &[Level]) -> Result<(), AllocError> {
    write!(text, " {word}")?;
    for level in levels {
        let price = level.price;
        let size = level.size;
        write!(text, " {price}x{size}")?;
    }
    Ok(())
}

/// Snapshots as `ok snapshots COUNT`, and each as its security, its last packet and its four sides.
pub fn snapshots_text(alloc: Global, snapshots: &[Snapshot]) -> Result<String, AllocError> {
    let count = snapshots.len();
    let mut text = format!(in alloc; "ok snapshots {count}")?;
    for snapshot in snapshots {
        let security = snapshot.security();
        let last = snapshot.last();
        write!(text, " ({security} {last}")?;
        push_side(&mut text, "bid", snapshot.bids())?;
        push_side(&mut text, "offer", snapshot.offers())?;
        push_side(&mut text, "ibid", snapshot.implied_bids())?;
        push_side(&mut text, "ioffer", snapshot.implied_offers())?;
        text.push_str(")")?;
    }
    Ok(text)
}
