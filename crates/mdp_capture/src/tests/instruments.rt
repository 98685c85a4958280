//! Instruments that are listed line by line.

use crate::tests::are_listed;
use crate::{CaptureRefusal, InstrumentList, ListedLine};
use mdp_templates::InstrumentKind;
use refusing::Refusing;
use std::alloc::{AllocError, Global};
use std::process::Abort;
use std::test::Fail;

// Takes a line, and answers what became of it and how many instruments are listed then.
fn answer(
    list: &mut InstrumentList<Global>,
    text: &str,
) -> Result<(ListedLine, usize), AllocError> {
    let answer = list.take_line(text.as_bytes())?;
    Ok((answer, list.as_slice().len()))
}

/// A line, what becomes of it, and how many instruments are listed then.
type Answered<'a> = (&'a str, ListedLine, usize);

// Takes lines, and sees what becomes of each.
fn answers(
    rt: &impl Abort,
    list: &mut InstrumentList<Global>,
    lines: &[Answered<'_>],
) -> Result<(), AllocError> {
    for (text, became, count) in lines {
        assert_eq!(rt; answer(list, text)?, (*became, *count));
    }
    Ok(())
}

#[test]
fn lists_what_is_not_refused(rt: HostRuntime) -> Result<(), Fail> {
    let twice = ListedLine::Refused(CaptureRefusal::DuplicateId);
    let unknown = ListedLine::Refused(CaptureRefusal::UnknownLeg);
    let lines = [
        ("I 1 NEAR O", ListedLine::Listed, 1),
        ("I 1 FAR O", twice, 1),
        ("I 2 NEAR O", twice, 1),
        ("I 3 CAL C 1 2", unknown, 1),
        ("I 2 FAR O 5", ListedLine::Listed, 2),
        ("I 3 CAL C 1 2", ListedLine::Listed, 3),
        ("I 4 TWICE C 1 1", unknown, 3),
        ("I 4 OVER C 1 3", unknown, 3),
    ];
    let spread = InstrumentKind::Calendar { leg1: 1, leg2: 2 };
    let instruments = [
        (1, "NEAR", InstrumentKind::Outright, 10),
        (2, "FAR", InstrumentKind::Outright, 5),
        (3, "CAL", spread, 10),
    ];
    let mut list = InstrumentList::new(rt.alloc());
    answers(&rt, &mut list, &lines)?;
    are_listed(&rt, &list.into_vec(), &instruments);
    Ok(())
}

#[test]
fn lists_nothing_of_other_lines(rt: HostRuntime) -> Result<(), Fail> {
    let lines = [
        ("", ListedLine::NoSuchLine, 0),
        ("A 00", ListedLine::NoSuchLine, 0),
        ("X", ListedLine::NoSuchLine, 0),
        ("Q", ListedLine::NoSuchLine, 0),
        ("I", ListedLine::NoSuchLine, 0),
        ("I 1 N", ListedLine::NoSuchLine, 0),
        ("I 1 N O 11", ListedLine::NoSuchLine, 0),
        ("I 1 N O 0", ListedLine::NoSuchLine, 0),
        ("I 1 N O\r", ListedLine::NoSuchLine, 0),
    ];
    let mut list = InstrumentList::new(rt.alloc());
    answers(&rt, &mut list, &lines)?;
    Ok(())
}

// Lists 512 instruments, and returns whether each was listed.
fn lists_512(list: &mut InstrumentList<Global>, alloc: Global) -> Result<bool, Fail> {
    let mut are_listed = true;
    for id in 1..=512u32 {
        let text = format!(in alloc; "I {id} N{id} O")?;
        are_listed &= list.take_line(text.as_bytes())? == ListedLine::Listed;
    }
    Ok(are_listed)
}

#[test]
fn refuses_the_513th_whatever_it_is(rt: HostRuntime) -> Result<(), Fail> {
    let mut list = InstrumentList::new(rt.alloc());
    assert!(rt; lists_512(&mut list, rt.alloc())?);
    let many = ListedLine::Refused(CaptureRefusal::TooMany);
    let lines = [
        ("I 513 N513 O", many, 512),
        ("I 1 N1 O", many, 512),
        ("I 600 CAL C 700 800", many, 512),
        ("A 00", ListedLine::NoSuchLine, 512),
    ];
    answers(&rt, &mut list, &lines)?;
    Ok(())
}

// Lists eight instruments with an allocation refused, and returns whether one was. A line that wanted memory is taken
// once more.
fn lists_all(heap: &Refusing<Global>, alloc: Global) -> Result<bool, Fail> {
    let mut list = InstrumentList::new(heap);
    for id in 1..=8usize {
        let text = format!(in alloc; "I {id} N{id} O")?;
        if list.take_line(text.as_bytes()).is_err() {
            if list.as_slice().len() != id.saturating_sub(1) {
                return Err("want of memory changed the list".into());
            }
            list.take_line(text.as_bytes())?;
        }
        if list.as_slice().len() != id {
            return Err("an instrument is not listed".into());
        }
    }
    Ok(heap.has_refused())
}

#[test]
fn want_of_memory_changes_nothing(rt: HostRuntime) -> Result<(), Fail> {
    for number in 1..100u64 {
        let heap = Refusing::new(rt.alloc(), number);
        if !lists_all(&heap, rt.alloc())? {
            assert!(rt; number > 1);
            return Ok(());
        }
    }
    Err("an allocation is always refused".into())
}
