use flat_lists::{FlatLists, GrowingLists};
use std::alloc::{AllocError, Global};
use std::test::Fail;

#[derive(Clone, Copy, PartialEq)]
struct Place {
    row: u8,
    column: i8,
}

const PLACES: [&[Place]; 2] = [
    &[Place { row: 1, column: -1 }, Place { row: 2, column: 3 }],
    &[Place { row: 2, column: 3 }],
];

fn push_all<T: Copy>(lists: &mut FlatLists<T, Global>, pushed: &[&[T]]) -> Result<(), AllocError> {
    for list in pushed {
        lists.push(*list)?;
    }
    Ok(())
}

fn are<T: Copy + PartialEq>(lists: &FlatLists<T, Global>, pushed: &[&[T]]) -> bool {
    if lists.is_empty() != pushed.is_empty() || lists.len() != pushed.len() {
        return false;
    }
    for (index, list) in pushed.iter().enumerate() {
        if lists.get(index) != *list {
            return false;
        }
    }
    true
}

#[test]
fn lists_of_structs_come_back(rt: HostRuntime) -> Result<(), Fail> {
    let mut lists = FlatLists::new(rt.alloc());
    push_all(&mut lists, &PLACES)?;
    assert!(rt; are(&lists, &PLACES));
    Ok(())
}

/// A list of two items, one that was begun anew, and one that isn't ended.
fn grown(alloc: Global) -> Result<GrowingLists<u8, Global>, AllocError> {
    let mut lists = GrowingLists::new(alloc);
    lists.push(5)?;
    lists.push(6)?;
    lists.end()?;
    lists.extend(&[1, 2])?;
    lists.clear();
    lists.push(7)?;
    lists.end()?;
    lists.push(8)?;
    Ok(lists)
}

#[test]
fn lists_grow_item_by_item(rt: HostRuntime) -> Result<(), Fail> {
    let lists = grown(rt.alloc())?;
    assert!(&rt; lists.next_items() == [8].as_slice());
    assert!(&rt; are(&lists.finish(), &[&[5, 6], &[7]]));
    Ok(())
}
