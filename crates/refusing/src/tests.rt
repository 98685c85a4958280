//! One allocation is refused, on one thread and on two.

use crate::Refusing;
use std::alloc::{AllocError, Allocator};
use std::test::Fail;
use std::thread::join;

fn three<A: Allocator + Copy>(alloc: A) -> Result<Vec<Vec<u8, A>, A>, AllocError> {
    let mut rows = Vec::with_capacity(alloc, 3)?;
    for row in 0..3u8 {
        let copy = Vec::from_slice(alloc, &[row, row])?;
        if rows.push(copy).is_err() {
            return Err(AllocError);
        }
    }
    Ok(rows)
}

#[test]
fn refuses_each_in_turn(rt: HostRuntime) -> Result<(), Fail> {
    for number in 1..5u64 {
        let heap = Refusing::new(rt.alloc(), number);
        assert!(rt; !heap.has_refused());
        assert!(rt; three(&heap).is_err());
        assert!(rt; heap.has_refused());
        assert!(rt; three(&heap).is_ok());
    }
    for number in [0, 5] {
        let heap = Refusing::new(rt.alloc(), number);
        assert!(rt; three(&heap).is_ok());
        assert!(rt; !heap.has_refused());
    }
    Ok(())
}

#[test]
fn refuses_a_growth(rt: HostRuntime) -> Result<(), Fail> {
    let heap = Refusing::new(rt.alloc(), 2);
    let mut bytes = Vec::new(&heap);
    let mut refused = 0u32;
    for byte in 0..100u8 {
        if bytes.push(byte).is_err() {
            refused = refused.saturating_add(1);
        }
    }
    assert_eq!(rt; refused, 1);
    assert_eq!(rt; bytes.len(), 99);
    Ok(())
}

#[test]
fn counts_the_allocations_of_all_threads(rt: HostRuntime) -> Result<(), Fail> {
    for number in 1..10u64 {
        let heap = Refusing::new(rt.alloc(), number);
        let shared = &heap;
        let (one, two) = join(&rt, || three(shared), || three(shared));
        assert_eq!(rt; one.is_ok() && two.is_ok(), number == 9);
        assert_eq!(rt; heap.has_refused(), number < 9);
    }
    Ok(())
}
