//! What the command line asks for.

ghost use Rattle.std.specs.Prelude.{◌≡◌, ◌≤◌, IfOk, IfSome, None, Some, codes, false, map, unwrap_or};
ghost use Rattle.clap.specs.declared.builder.value_parser.ValueParser.TheVariants as parsers;
ghost use Rattle.clap.specs.Words.{FailsBy, app_of, fault_of, rule_of};
ghost use Rattle.mdp_handler.specs.CommandLine.{AreLawful, AreSettings, AreWorkers, flag, option, options, start_asked, up_to, with_default};

use clap::builder::ValueParser;
use clap::{Arg, ArgAction, Command, Error, value_parser};
use mdp_arbiter::Start;
use std::alloc::{AllocError, Global};

/// What the command line asks for.
#[derive(Clone, Copy, Debug, PartialEq, Eq)]
pub struct Settings<'a> {
    /// A packet this many numbers or more ahead of the next one gives the next one up, from 1 to 65536.
    pub window: u32,
    /// How many threads keep books, from 1 to 16, where the words say so.
    pub workers: Option<u8>,
    /// Whether one thread takes the records of all feeds in the order of their lines.
    pub in_order: bool,
    /// Whether what the capture's lines show goes out as they come.
    pub live: bool,
    /// Whether packet 1 is the first to pass, or the run joins a running channel by a jump.
    pub start: Start,
    /// The file of the channel of which the input is a recording, where the words name one.
    pub channel: Option<&'a str>,
}

impl<'a> Settings<'a> {
    /// Returns how many threads keep books: 2 where the words don't say.
    pub fn worker_count(self) -> u8
        ensures { result ≡ unwrap_or self.entry.workers 2 }
    {
        self.workers.unwrap_or(2)
    }
}

const ABOUT: &str =
    "Reads a capture of one CME MDP 3.0 channel on standard input, and prints its books.";

const MORE: &str = "\
The capture is text, one record a line:
  I ID NAME O            an outright with a direct book of ten levels
  I ID NAME O DEPTH      the same with 1 to 10 levels
  I ID NAME C LEG1 LEG2  a calendar spread, leg 1 minus leg 2
  A HEX, B HEX           a datagram of incremental feed A or B
  S HEX                  a datagram of the snapshot feed
  X                      the channel is closed
Instruments come first. A datagram has at most 2,048 bytes. Each feed is read in a
thread of its own, and of the two copies of a packet the one that comes first is
used; with --in-order one thread takes all records in the order of their lines.
With --live it also prints what they show as they come, before the next read.
The books are kept in --workers threads; how many changes no line. With --join the
capture may begin in the middle of a day: no packet is taken before snapshots of all
securities have come.

With --channel the input is a pcap or pcapng, and is handled as it comes. FILE has
instruments as a capture has them, and:
  F FEED GROUP PORT      an address of feed A, B or S

At each event end these lines are printed for each security that it names, and after
a jump for each security at the first event end past its snapshot. K.J is the
packet's number and the message's place in it:
  D K.J NAME B QUOTES O QUOTES  direct book, QUOTES being PRICExSIZE, best first
  I K.J NAME B QUOTES O QUOTES  implied book
  C K.J NAME B QUOTES O QUOTES  both, added up by price
  F K.J NAME PLACE              no book: the first entry that had no place in it
and then, for each calendar spread of which the spread or a leg was printed, if all
three are past their snapshots and none has a fault:
  A K.J NAME bid VERDICT offer VERDICT
                                its implied quotes against what its legs make
Where packets are lost and snapshots of all securities make up for them, and where
--join takes the first snapshots, J OLD NEW is printed: packet OLD would have come
next, and now it is packet NEW.
After these comes X FEED LINE NUMBER NAME for each refused datagram, and at the
end Z NEXT live, or Z NEXT lost where a packet came --window or more ahead of NEXT,
which is the number of the packet that would come next, or where --join still waits.
Prices are in units of 10^-9.

Example, which begins with a bid of 5 at a price of 100:
  $ mdp_handler --in-order < examples/plain.capture
  D 1.1 NEAR B 100x5 O
  I 1.1 NEAR B O
  C 1.1 NEAR B 100x5 O
  ..

Exit status, with the text on standard error:
  0  done; a line for each skipped line of the capture, as 'line 3: 22 Hex';
     with --live or --channel also where packets were lost and made up for, as
     'line 5: 51 Lost 1 5'
  1  out of memory (41 Memory), a failed write (42 Output after N bytes) or a
     failed read (43 Input); a pcap that ends early, as 'frame 9: 74 CutShort'
  2  a fault of the command line, or a capture, a channel file or a pcap that is
     refused, as 'line 2: 31 DuplicateId'";

// Makes an option with a number as its value.
fn number_arg<'a>(alloc: Global, name: &'a str, parser: ValueParser<'a>, help: &'a str) -> Arg<'a>
    ensures rule { rule_of result ≡ option name.entry.now parser.entry }
    ensures own { result.global ≡ false }
{
    Arg::new(alloc, name)
        .long(name)
        .value_name("N")
        .help(help)
        .value_parser(parser)
}

// Makes the option `--window`.
fn window_arg<'a>(alloc: Global) -> Arg<'a>
    ensures rule { rule_of result
        ≡ with_default (codes "1024") (option (codes "window") (up_to 65536)) }
    ensures own { result.global ≡ false }
{
    let range = value_parser!(u32).range(1..=65536);
    let help = "A packet N or more ahead of the next gives the next up, 1 to 65536";
    number_arg(alloc, "window", range, help).default_value("1024")
}

// Makes the option `--workers`.
fn workers_arg<'a>(alloc: Global) -> Arg<'a>
    ensures rule { rule_of result ≡ option (codes "workers") (up_to 16) }
    ensures own { result.global ≡ false }
{
    let range = value_parser!(u8).range(1..=16);
    let help = "Threads that keep books, 1 to 16, else 2";
    number_arg(alloc, "workers", range, help)
}

// Makes the flag `--in-order`.
fn in_order_arg<'a>(alloc: Global) -> Arg<'a>
    ensures rule { rule_of result ≡ flag (codes "in-order") }
    ensures own { result.global ≡ false }
{
    Arg::new(alloc, "in-order")
        .long("in-order")
        .help("Take all records in the order of their lines, on one thread")
        .action(ArgAction::SetTrue)
}

// Makes the flag `--live`.
fn live_arg<'a>(alloc: Global) -> Arg<'a>
    ensures rule { rule_of result ≡ flag (codes "live") }
    ensures own { result.global ≡ false }
{
    Arg::new(alloc, "live")
        .long("live")
        .help("Print as the capture comes, on one thread")
        .action(ArgAction::SetTrue)
}

// Makes the flag `--join`.
fn join_arg<'a>(alloc: Global) -> Arg<'a>
    ensures rule { rule_of result ≡ flag (codes "join") }
    ensures own { result.global ≡ false }
{
    Arg::new(alloc, "join")
        .long("join")
        .help("Join a running channel: take no packet before a first jump")
        .action(ArgAction::SetTrue)
}

// Makes the option `--channel`.
fn channel_arg<'a>(alloc: Global) -> Arg<'a>
    ensures rule { rule_of result ≡ option (codes "channel") parsers.String }
    ensures own { result.global ≡ false }
{
    Arg::new(alloc, "channel")
        .long("channel")
        .value_name("FILE")
        .help("Read a pcap or pcapng of the channel whose instruments and feeds are in FILE")
        .value_parser(ValueParser::String)
}

// Makes the command line that is understood.
fn command<'a>(alloc: Global) -> Result<Command<'a>, AllocError>
    ensures { IfOk result (λ command. app_of command ≡ options) }
{
    Command::new(alloc, "mdp_handler")
        .version("0.1.0")
        .about(ABOUT)
        .after_help(MORE)
        .arg(window_arg(alloc))?
        .arg(workers_arg(alloc))?
        .arg(in_order_arg(alloc))?
        .arg(live_arg(alloc))?
        .arg(join_arg(alloc))?
        .arg(channel_arg(alloc))
}

// Returns where a run starts that joins a running channel, or doesn't.
fn start_of(joins: bool) -> Start
    ensures { result ≡ start_asked joins }
{
    if joins { Start::Join } else { Start::FromOne }
}

// Brings a number of workers that was read into its range.
fn in_range(workers: Option<u8>) -> Option<u8>
    ensures range { IfSome result AreWorkers }
    ensures same { IfSome workers (λ n. 1 ≤ n → n ≤ 16 → result ≡ Some n) }
    ensures none { workers ≡ None → result ≡ None }
{
    match workers {
        Some(workers) => Some(workers.clamp(1, 16)),
        None => None,
    }
}

/// Reads the command line, of which the first word is the program's name.
///
/// # Errors
///
/// What is shown in place of a run: a fault of the command line, the help, the version, or want of memory.
pub fn read_settings<'a>(alloc: Global, words: &'a [&str]) -> Result<Settings<'a>, Error>
    ensures fault { FailsBy (fault_of options (map (λ word. word.now) words.now)) result }
    ensures settings { IfOk result (AreSettings (map (λ word. word.now) words.now)) }
    ensures lawful { IfOk result AreLawful }
{
    let matches = command(alloc)?.try_get_matches_from(words)?;
    // What `clap` lets through lies in these ranges already.
    let window = matches.get_one::<u32>("window").unwrap_or(1024);
    let workers = matches.get_one::<u8>("workers");
    Ok(Settings {
        window: window.clamp(1, 65536),
        workers: in_range(workers),
        in_order: matches.get_flag("in-order"),
        live: matches.get_flag("live"),
        start: start_of(matches.get_flag("join")),
        channel: matches.get_str("channel"),
    })
}
