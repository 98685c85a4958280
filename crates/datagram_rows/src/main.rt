//! Reads rows of a feed and a datagram in hexadecimal, and prints what each datagram says: the packet or the
//! snapshots that it is, or the number and the name of its refusal.
#![tactic(auto)]

mod notation;
#[cfg(test)]
mod tests;

use mdp_templates::{Fault, Packet, read_packet, read_packet_into, read_snapshots};
use notation::{packet_text, snapshots_text};
use std::alloc::{AllocError, Global};
use std::io;
use std::io::{BufRead, BufReader};

// Returns what a fault says.
fn fault_text(alloc: Global, fault: Fault) -> Result<String, AllocError> {
    match fault {
        Fault::Refused(refusal) => {
            let number = refusal.number();
            let name = refusal.name();
            format!(in alloc; "{number} {name}")
        }
        Fault::Memory => String::from_str(alloc, "no memory"),
    }
}

// Returns what a datagram of an incremental feed says, read by itself.
fn packet_answer(alloc: Global, bytes: &[u8]) -> Result<String, AllocError> {
    match read_packet(alloc, bytes) {
        Ok(packet) => packet_text(alloc, &packet),
        Err(fault) => fault_text(alloc, fault),
    }
}

// Returns what a datagram of an incremental feed says, read into the room of the packets before.
fn kept_answer(
    alloc: Global,
    bytes: &[u8],
    room: &mut Packet<Global>,
) -> Result<String, AllocError> {
    match read_packet_into(alloc, bytes, room) {
        Ok(()) => packet_text(alloc, room),
        Err(fault) => fault_text(alloc, fault),
    }
}

// Returns what a datagram of the snapshot feed says.
fn snapshots_answer(alloc: Global, bytes: &[u8]) -> Result<String, AllocError> {
    match read_snapshots(alloc, bytes) {
        Ok(snapshots) => snapshots_text(alloc, &snapshots),
        Err(fault) => fault_text(alloc, fault),
    }
}

// Returns what a datagram of a feed says. A packet is read twice, and both answers have to be the same.
fn answer(
    alloc: Global,
    feed: &str,
    bytes: &[u8],
    room: &mut Packet<Global>,
) -> io::Result<String> {
    if feed != "packet" {
        return Ok(snapshots_answer(alloc, bytes)?);
    }
    let alone = packet_answer(alloc, bytes)?;
    let kept = kept_answer(alloc, bytes, room)?;
    if alone.as_str() != kept.as_str() {
        return Err(io::Error::from(io::ErrorKind::InvalidData));
    }
    Ok(alone)
}

// Gives the answer of one row: feed, datagram, and columns that are not looked at.
fn row_text(alloc: Global, row: &str, room: &mut Packet<Global>) -> io::Result<String> {
    let Some((feed, rest)) = row.split_once('\t') else {
        return Ok(String::from_str(alloc, "no feed")?);
    };
    let Some((digits, _)) = rest.split_once('\t') else {
        return Ok(String::from_str(alloc, "no datagram")?);
    };
    match hex::decode(alloc, digits) {
        Ok(bytes) => answer(alloc, feed, &bytes, room),
        Err(_) => Ok(String::from_str(alloc, "no hexadecimal digits")?),
    }
}

fn main(rt: HostRuntime) -> io::Result<()> {
    let alloc = rt.alloc();
    let mut room = Packet::new(alloc, 0);
    let mut header = true;
    for line in BufReader::new(alloc, rt.reader())?.lines(alloc) {
        let line = line?;
        if !header {
            let text = row_text(alloc, line.as_str(), &mut room)?;
            println!(rt; "{text}")?;
        }
        header = false;
    }
    Ok(())
}
