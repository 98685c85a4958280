//! What makes a board.

ghost use Rattle.std.specs.Prelude.{◌≡◌, ◌<◌, ◌≤◌, List, [], drop, length, replicate, vec_len, All, IfOk, IfSome, OnOk};
ghost use Rattle.left_right.specs.Sides.{view};
ghost use Rattle.mdp_lanes.specs.declared.row.Row.TheVariants.{Never};
ghost use Rattle.mdp_lanes.specs.declared.row.Row.{Row};
ghost use Rattle.mdp_lanes.specs.Updates.{changed_rows};
ghost use Rattle.mdp_lanes.specs.Boards.{Knows, IsFreshReader, IsSheet};

use crate::history::{self, Front};
use crate::publisher::{BoardWriter, Publisher};
use crate::reader::Reader;
use crate::row::Row;
use crate::sheet::Sheet;
use crate::shown::{Introduction, Look};
use crate::update::{Change, Update};
use mdp_templates::Memory;
use std::alloc::Allocator;
use std::sync::Wait;

/// Rows that one publisher publishes and several readers read.
pub struct Board;

impl Board {
    /// Makes a board of so many slots, 1 to 512, on which nothing was published, with its publisher and so many
    /// readers, 1 to 16.
    ///
    /// # Errors
    ///
    /// Memory ran out.
    pub fn new<R: Wait, A: Allocator + Copy>(
        alloc: A,
        rt: &R,
        slots: usize,
        readers: usize,
    ) -> Result<(Publisher<A>, Vec<Reader<A>, A>), Memory>
        requires slots { (1 ≤ slots) × (slots ≤ 512) }
        requires readers { (1 ≤ readers) × (readers ≤ 16) }
        ensures publisher { IfOk result (λ ends. ends.0.steps ≡ []) }
        ensures slots { IfOk result (λ ends. ends.0.slots ≡ slots) }
        ensures many { IfOk result (λ ends. vec_len ends.1 ≡ readers) }
        ensures readers { IfOk result (λ ends. All
            (IsFreshReader ends.0.board slots) ends.1.items) }
    {
        let (head, front) = history::open();
        let first = blank(alloc, slots, &front)?;
        let second = blank(alloc, slots, &front)?;
        let Ok(writer) = BoardWriter::new(alloc, first, second, readers) else {
            return Err(Memory);
        };
        let (mut writer, settled) = settle(alloc, writer, rt, &front, slots);
        let Ok(()) = settled else {
            drop(writer.take(rt));
            return Err(Memory);
        };
        let Ok(ends) = make_readers(alloc, &mut writer, &front, slots, readers) else {
            drop(writer.take(rt));
            return Err(Memory);
        };
        let publisher = Publisher {
            alloc,
            slots,
            head,
            count: 0,
            front,
            writer,
        };
        Ok((publisher, ends))
    }
}

// Makes a copy on which nothing was published.
fn blank<A: Allocator + Copy>(alloc: A, slots: usize, front: &Front) -> Result<Sheet<A>, Memory>
    ensures { IfOk result (λ sheet. (sheet.rows.items ≡ replicate slots Never) × (sheet.length ≡ 0)
        × (sheet.front ≡ front.now)) }
{
    let rows = Vec::from_elem(alloc, Row::Never, slots)?;
    Ok(Sheet {
        rows,
        length: 0,
        front: front.again(),
    })
}

// Makes an update that changes no row.
fn unchanged<A: Allocator + Copy>(alloc: A, front: &Front) -> Update<A>
    ensures rows { (rows : List Row) → changed_rows rows result.change ≡ rows }
    ensures none { (result.length ≡ 0) × (result.front ≡ front.now) }
{
    Update {
        change: Change::Give(Vec::new(alloc)),
        length: 0,
        front: front.again(),
    }
}

// Shows the same once more. From then on the writer knows its board, and its log has room for all later updates.
fn settle<R: Wait, A: Allocator + Copy>(
    alloc: A,
    writer: BoardWriter<A>,
    rt: &R,
    front: &Front,
    slots: usize,
) -> (BoardWriter<A>, Result<(), Memory>)
    requires front { (writer.desk.shown.value.front ≡ front.now) × (front.now.log ≡ []) }
    requires shown { (writer.desk.shown.value.length ≡ 0)
        × (length writer.desk.shown.value.rows.items ≡ slots) }
    requires pending { drop writer.behind writer.log.items ≡ [] }
    ensures { OnOk result.1 (
        (result.0.desk.shown.value.front ≡ front.now)
        × (drop result.0.behind result.0.log.items ≡ [])
        × Knows (view result.0.desk.place) front.now.book slots
        × (length result.0.desk.shown.value.rows.items ≡ slots)
        × IsSheet result.0.desk.shown.value) }
{
    let mut writer = writer;
    let update = unchanged(alloc, front);
    if writer.append(update).is_err() {
        return (writer, Err(Memory));
    }
    let (writer, shown) = writer.publish_as::<Look, R>(rt);
    let Ok(()) = shown else {
        return (writer, Err(Memory));
    };
    (writer, Ok(()))
}

// Makes so many readers.
fn make_readers<A: Allocator + Copy>(
    alloc: A,
    writer: &mut BoardWriter<A>,
    front: &Front,
    slots: usize,
    readers: usize,
) -> Result<Vec<Reader<A>, A>, Memory>
    requires slots { 0 < slots }
    requires front { front.now.log ≡ [] }
    requires known { Knows (view writer.old.desk.place) front.now.book slots }
    ensures same { (writer.new.desk.shown ≡ writer.old.desk.shown)
        × (writer.new.log ≡ writer.old.log)
        × (writer.new.behind ≡ writer.old.behind) }
    ensures many { IfOk result (λ ends. vec_len ends ≡ readers) }
    ensures ends { IfOk result (λ ends. All (IsFreshReader front.now.book slots) ends.items) }
{
    let mut ends = Vec::new(alloc);
    for made in 0..readers {
        let Some(end) = make_reader(writer, front, slots) else {
            return Err(Memory);
        };
        if ends.push(end).is_err() {
            return Err(Memory);
        }
    }
    Ok(ends)
}

// Makes a reader, and tells it what the writer knows. None where a count of owners is full.
fn make_reader<A: Allocator + Copy>(
    writer: &mut BoardWriter<A>,
    front: &Front,
    slots: usize,
) -> Option<Reader<A>>
    requires slots { 0 < slots }
    requires front { front.now.log ≡ [] }
    requires known { Knows (view writer.old.desk.place) front.now.book slots }
    ensures same { (writer.new.desk.shown ≡ writer.old.desk.shown)
        × (writer.new.log ≡ writer.old.log)
        × (writer.new.behind ≡ writer.old.behind) }
    ensures known { view writer.new.desk.place ≡ view writer.old.desk.place }
    ensures end { IfSome result (IsFreshReader front.now.book slots) }
{
    let Ok(mut side) = writer.factory().reader() else {
        return None;
    };
    side.learn::<Introduction>(writer.tell::<Introduction>());
    Some(Reader {
        slots,
        count: 0,
        front: front.again(),
        side: Some(side),
    })
}
