//! Elements that are lists.
use crate::update::elements::{ascend, number_elements, text};
use asm_element::{ElemList, Element, ListError};
use asm_test_support::{are_distinct, has_text};
use std::alloc::{AllocError, Global};
use std::test::Fail;

fn list(items: Vec<Element>) -> Result<Element, ListError> {
    Ok(Element::List(ElemList::new(items)?))
}

/// Return the list of these numbers.
fn numbers(alloc: Global, items: &[i64]) -> Result<Element, Fail> {
    Ok(list(number_elements(alloc, items)?)?)
}

/// So many undefs.
fn undefs(alloc: Global, count: usize) -> Result<Vec<Element>, AllocError> {
    let mut items = Vec::new(alloc);
    for _ in 0..count {
        items.push(Element::Undef)?;
    }
    Ok(items)
}

/// Return the list in which a list nests, and so on, this deep; the innermost is empty.
fn nested(alloc: Global, depth: u32) -> Result<Element, Fail> {
    let mut inner = list(Vec::new(alloc))?;
    for _ in 1..depth {
        inner = list(vec![in alloc; inner]?)?;
    }
    Ok(inner)
}

/// Return the list of undef, of a list this deep, and of undef again, or why there is none.
fn around(alloc: Global, depth: u32) -> Result<Result<ElemList, ListError>, Fail> {
    let inner = nested(alloc, depth)?;
    Ok(ElemList::new(vec![in alloc; Element::Undef, inner, Element::Undef]?))
}

/// Return why so many undefs and after them a list this deep are no list.
fn refusal(alloc: Global, undef_count: usize, depth: u32) -> Result<Option<ListError>, Fail> {
    let mut items = undefs(alloc, undef_count)?;
    items.push(nested(alloc, depth)?)?;
    Ok(ElemList::new(items).err())
}

#[test]
fn a_list_has_at_most_4096_items_and_nests_eight_deep(rt: HostRuntime) -> Result<(), Fail> {
    let alloc = rt.alloc();
    let empty = ElemList::new(Vec::new(alloc))?;
    assert!(rt; empty.depth() == 1 && empty.items().is_empty());
    let full = ElemList::new(undefs(alloc, 4096)?)?;
    assert!(rt; full.depth() == 1 && full.items().len() == 4096);
    let deepest = around(alloc, 7)??;
    assert!(rt; deepest.depth() == 8 && deepest.items().len() == 3);
    assert!(rt; deepest.items()[1] == nested(alloc, 7)?);
    let many = ElemList::new(undefs(alloc, 4097)?).err();
    assert!(rt; many == Some(ListError::ManyItems));
    assert!(rt; around(alloc, 8)?.err() == Some(ListError::TooDeep));
    assert!(rt; refusal(alloc, 4095, 8)? == Some(ListError::TooDeep));
    assert!(rt; refusal(alloc, 4095, 7)?.is_none());
    // Too many items come before too great a depth.
    assert!(rt; refusal(alloc, 4096, 8)? == Some(ListError::ManyItems));
    Ok(())
}

static ASCENDING: [&[i64]; 8] = [
    &[],
    &[1],
    &[2],
    &[0, 9],
    &[1, 0],
    &[1, 1],
    &[2, 0],
    &[0, 0, 0],
];

/// Return a text, and then lists that ascend.
fn ascending(alloc: Global) -> Result<Vec<Element>, Fail> {
    let mut elements = vec![in alloc; text(alloc, "z")?]?;
    for items in ASCENDING {
        let list = numbers(alloc, items)?;
        elements.push(list)?;
    }
    Ok(elements)
}

#[test]
fn lists_ascend_by_length_and_then_by_their_items(rt: HostRuntime) -> Result<(), Fail> {
    let elements = ascending(rt.alloc())?;
    assert!(rt; elements.len() == 9 && ascend(&elements));
    Ok(())
}

fn is_copied(alloc: Global, element: &Element) -> Result<bool, AllocError> {
    Ok(element.copy(alloc)? == *element)
}

#[test]
fn copies_of_lists_are_equal(rt: HostRuntime) -> Result<(), Fail> {
    let alloc = rt.alloc();
    assert!(rt; is_copied(alloc, &numbers(alloc, &[3, 1, 2])?)?);
    assert!(rt; is_copied(alloc, &nested(alloc, 8)?)?);
    assert!(rt; is_copied(alloc, &list(undefs(alloc, 4096)?)?)?);
    let list = around(alloc, 7)??;
    assert!(rt; list.clone()? == list);
    Ok(())
}

#[test]
fn errors_are_equal_by_their_reason(rt: HostRuntime) {
    assert!(rt; are_distinct(&[ListError::ManyItems, ListError::TooDeep]));
}

#[test]
fn errors_have_their_texts(rt: HostRuntime) -> Result<(), Fail> {
    let deep = "lists nest more than 8 deep";
    assert!(rt; has_text(rt.alloc(), &ListError::ManyItems, "more than 4,096 items")?);
    assert!(rt; has_text(rt.alloc(), &ListError::TooDeep, deep)?);
    Ok(())
}
