//! Shows how a risk desk follows the best prices of a channel while the handler runs. A capture comes on standard
//! input, a run of
//! `mdp_pipeline` publishes on a board, and two threads look at the first two securities of it as often as they like.
//! No reader waits, neither for the run nor for the other, and what one read shows is all of one moment. What each saw
//! on the way goes to standard error, and differs from run to run; what both see in the end goes to standard output.
//! Prices are units of 10^-9. The first word is the window, 1 to 65536, and 1024 where none is given.
#![tactic(auto)]

ghost use Rattle.std.specs.Prelude.{◌≡◌, ◌≤◌, [], ◌∷◌, length, IfOk, IfSome};
ghost use Rattle.mdp_lanes.specs.Boards.{IsFreshReader};
ghost use Rattle.mdp_lanes.specs.Rows.{rows_after};
ghost use Rattle.mdp_templates.specs.Instrument.{AreFit};

use anyhow::bail;
use mdp_arbiter::Start;
use mdp_capture::{Capture, CountingReader, read_capture};
use mdp_crew::Open;
use mdp_lanes::{Board, Publisher, Reader, Row};
use mdp_pipeline::{Feeds, RunPlan, run_published};
use mdp_print::Counting;
use mdp_quotes::Total;
use mdp_templates::Instrument;
use std::alloc::{AllocError, Global};
use std::io::Write;
use std::snapshot::Snapshot;
use std::sync::Wait;
use std::sync::atomic::{AtomicBool, Ordering};
use std::thread::{Promise, PromisedHandle, Scope, Threads, yield_now};
use std::{env, io, thread};

/// The slots that are looked at. A security's slot is its place in the capture's list, from 0.
const WATCHED: [u16; 2] = [0, 1];

/// How many threads keep books.
const WORKERS: u16 = 2;

/// What a thread saw of a board, one line for each change that it met, and its end of the board.
#[derive(Drop)]
struct Seen {
    reader: Reader<Global>,
    lines: String,
}

/// A thread's promise: it hands back the reader that it was given.
#[derive(Drop)]
struct HandsBack {
    before: Snapshot<Reader<Global>>,
}

impl Promise<Seen> for HandsBack {
    ghost kept_by = { λ p seen. (seen.reader.board ≡ p.before.value.board)
        × (seen.reader.slots ≡ p.before.value.slots) };
}

/// A thread that watches, where it could be started.
type Started = Result<PromisedHandle<Seen, HandsBack>, AllocError>;

/// Makes a board with so many slots, and two readers of it.
fn board<R: Wait>(
    rt: &R,
    alloc: Global,
    slots: usize,
) -> Result<(Publisher<Global>, Reader<Global>, Reader<Global>), AllocError>
    requires { (2 ≤ slots) × (slots ≤ 512) }
    ensures { IfOk result (λ ends. IsFreshReader ends.0.board slots ends.1
        × IsFreshReader ends.0.board slots ends.2) }
{
    let Ok((publisher, mut readers)) = Board::new(alloc, rt, slots, 2) else {
        return Err(AllocError);
    };
    let second = readers.pop();
    let first = readers.pop();
    if let (Some(first), Some(second)) = (first, second) {
        return Ok((publisher, first, second));
    }
    publisher.end(rt);
    Err(AllocError)
}

// Appends a side's best price and its size.
fn push_level(text: &mut String, level: Option<Total>) -> Result<(), AllocError> {
    match level {
        Some(Total { price, size }) => write!(text, "{price}x{size}"),
        None => text.push_str("none"),
    }
}

// Appends a row: the best bid and the best offer, or why there are none.
fn push_row(text: &mut String, row: &Row) -> Result<(), AllocError> {
    match *row {
        Row::Never => text.push_str("nothing yet"),
        Row::Stale => text.push_str("stale"),
        Row::Fault { .. } => text.push_str("faulty"),
        Row::Top { bid, offer, .. } => {
            push_level(text, bid)?;
            text.push_str(" / ")?;
            push_level(text, offer)
        }
    }
}

/// Appends the line of what a reader sees after so many steps.
fn push_line(
    text: &mut String,
    number: u8,
    step: u64,
    instruments: &[Instrument],
    rows: &[Row; 2],
) -> Result<(), AllocError> {
    write!(text, "reader {number} at step {step}:")?;
    for (place, (instrument, row)) in instruments.iter().zip(rows).enumerate() {
        let name = instrument.name.as_str();
        let before = if place == 0 { " " } else { ", " };
        write!(text, "{before}{name} ")?;
        push_row(text, row)?;
    }
    text.push_str("\n")
}

/// Looks at the board until the run is over, and keeps a line of each change that it meets, as long as there is memory
/// for them. A read takes no lock and no memory: it copies the rows from the copy of the board that is shown, while the
/// run changes the other copy. Where it answers none, the rows stay as they were.
fn watch<R: Wait>(
    rt: &R,
    alloc: Global,
    number: u8,
    mut reader: Reader<Global>,
    instruments: &[Instrument],
    over: &AtomicBool,
) -> Seen
    requires { 2 ≤ reader.slots }
    ensures { (result.reader.board ≡ reader.board) × (result.reader.slots ≡ reader.slots) }
{
    let mut lines = String::new(alloc);
    let mut rows = [Row::Never; 2];
    for _ in rt.forever() {
        let before = rows;
        let step = reader.read(&WATCHED, &mut rows).unwrap_or(0);
        if rows != before && push_line(&mut lines, number, step, instruments, &rows).is_err() {
            break;
        }
        if over.load(Ordering::SeqCst) {
            break;
        }
        yield_now();
    }
    Seen { reader, lines }
}

/// Starts a thread that watches.
fn start<'s, E, R: Threads + Wait + Sync>(
    rt: &'s R,
    scope: &'s Scope<'s, E>,
    alloc: Global,
    number: u8,
    reader: Reader<Global>,
    instruments: &'s [Instrument],
    over: &'s AtomicBool,
) -> Started
    requires { 2 ≤ reader.slots }
    ensures { IfOk result (λ handle. handle.promise.before.value ≡ reader) }
{
    let promise = HandsBack {
        before: Snapshot::of(&reader),
    };
    scope
        .spawn_with(
            promise,
            move || watch(rt, alloc, number, reader, instruments, over),
        )
        .map_err(|_| AllocError)
}

/// Tells a reader of all that was published, and reads once more. Answers how many steps that are, and the rows as all
/// of them left them; none where the board was let go.
fn last_rows(
    publisher: &mut Publisher<Global>,
    reader: &mut Reader<Global>,
) -> Option<(u64, [Row; 2])>
    requires board { reader.old.board ≡ publisher.old.board }
    requires slots { 2 ≤ reader.old.slots }
    ensures publisher { publisher.new ≡ publisher.old }
    ensures step { IfSome result (λ last. last.0 ≡ length publisher.old.steps) }
    ensures rows { IfSome result (λ last. last.1 ≡ rows_after (0 ∷ 1 ∷ []) publisher.old.steps) }
{
    reader.learn(publisher.tell());
    let mut rows = [Row::Never; 2];
    let step = reader.read(&WATCHED, &mut rows)?;
    if !publisher.tell().covers(reader) {
        return None;
    }
    Some((step, rows))
}

/// Waits for a thread that watches, and reads once more. Answers what the thread saw on the way, and the line of the
/// end.
fn finish<R: Threads>(
    rt: &R,
    alloc: Global,
    number: u8,
    started: Started,
    publisher: &mut Publisher<Global>,
    instruments: &[Instrument],
) -> anyhow::Result<(String, String)>
    requires { IfOk started (λ handle. (handle.promise.before.value.board ≡ publisher.old.board)
        × (2 ≤ handle.promise.before.value.slots)) }
    ensures { publisher.new ≡ publisher.old }
{
    let Seen { mut reader, lines } = started?.join(rt);
    let Some(seen) = last_rows(publisher, &mut reader) else {
        bail!("the board was let go");
    };
    let step = seen.0;
    let rows = seen.1;
    let mut last = String::new(alloc);
    push_line(&mut last, number, step, instruments, &rows)?;
    Ok((lines, last))
}

/// Runs over the capture and publishes, while two threads watch. Answers what they saw on the way, and what they see in
/// the end. The text of the run goes nowhere.
fn run_watched<'s, E, R: Threads + Wait + Sync>(
    rt: &'s R,
    scope: &'s Scope<'s, E>,
    alloc: Global,
    capture: &'s Capture<Global>,
    window: u32,
    over: &'s AtomicBool,
) -> anyhow::Result<((String, String), (String, String))>
    requires window { (1 ≤ window) × (window ≤ 65536) }
    requires fit { AreFit capture.now.instruments }
{
    let instruments = capture.instruments();
    let (publisher, first, second) = board(rt, alloc, instruments.len().max(2))?;
    let first = start(rt, scope, alloc, 1, first, instruments, over);
    let second = start(rt, scope, alloc, 2, second, instruments, over);
    let plan = RunPlan {
        instruments,
        window,
        start: Start::FromOne,
        workers: WORKERS,
    };
    let mut nowhere = Counting::new(io::sink());
    let (mut publisher, outcome) = run_published(
        rt,
        alloc,
        plan,
        Feeds::of(capture),
        &Open,
        publisher,
        &mut nowhere,
    );
    over.store(true, Ordering::SeqCst);
    let first = finish(rt, alloc, 1, first, &mut publisher, instruments);
    let second = finish(rt, alloc, 2, second, &mut publisher, instruments);
    publisher.end(rt);
    let _summary = outcome?;
    Ok((first?, second?))
}

/// Returns the window that the words ask for.
fn window_asked(words: env::Args) -> u32
    ensures { (1 ≤ result) × (result ≤ 65536) }
{
    match words.skip(1).next() {
        Some(word) => word.parse::<u32>().unwrap_or(1024).clamp(1, 65536),
        None => 1024,
    }
}

fn main(rt: HostRuntime) -> anyhow::Result<()> {
    let alloc = rt.alloc();
    let window = window_asked(env::args(&rt)?);
    let capture = read_capture(alloc, &mut CountingReader::new(rt.reader()))?;
    let over = AtomicBool::new(false);
    let (first, second) = thread::scope(
        thread::scope_env(),
        &rt,
        |scope| run_watched(&rt, scope, alloc, &capture, window, &over),
    )?;
    eprint!(rt; "{}{}", first.0, second.0)?;
    print!(rt; "{}{}", first.1, second.1)?;
    Ok(())
}
