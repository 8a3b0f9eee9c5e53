//! Elements, the values that are made of them, and shared lists of items.
use asm_element::{ElemBag, ElemSet, ElemText, Element, Items, Location, Value};
use asm_test_support::location_at;
use std::alloc::{AllocError, Global};
use std::test::Fail;

/// An element as plain data.
#[derive(Clone, Copy)]
enum Item {
    Undef,
    Bool(bool),
    Num(i64),
    Text(&'static str),
}

pub(crate) fn text(alloc: Global, text: &str) -> Result<Element, AllocError> {
    Ok(Element::Text(ElemText::new(String::from_str(alloc, text)?)))
}

fn element(alloc: Global, item: Item) -> Result<Element, AllocError> {
    match item {
        Item::Undef => Ok(Element::Undef),
        Item::Bool(value) => Ok(Element::Bool(value)),
        Item::Num(number) => Ok(Element::Num(number)),
        Item::Text(name) => text(alloc, name),
    }
}

fn elements_of(alloc: Global, items: &[Item]) -> Result<Vec<Element>, AllocError> {
    let mut elements = Vec::new(alloc);
    for item in items {
        let element = element(alloc, *item)?;
        elements.push(element)?;
    }
    Ok(elements)
}

/// These numbers as elements.
pub(crate) fn number_elements(alloc: Global, numbers: &[i64]) -> Result<Vec<Element>, AllocError> {
    let mut elements = Vec::new(alloc);
    for number in numbers {
        elements.push(Element::Num(*number))?;
    }
    Ok(elements)
}

/// Return whether the items ascend strictly.
///
/// Each comes before those after it, is equal to itself alone, and comes after those before it.
pub(crate) fn ascend<T: Ord>(items: &[T]) -> bool {
    for (i, left) in items.iter().enumerate() {
        for (j, right) in items.iter().enumerate() {
            if left.cmp(right) != i.cmp(&j) || (left == right) != (i == j) {
                return false;
            }
        }
    }
    true
}

static ASCENDING: [Item; 9] = [
    Item::Undef,
    Item::Bool(false),
    Item::Bool(true),
    Item::Num(-1),
    Item::Num(0),
    Item::Num(10),
    Item::Text(""),
    Item::Text("B"),
    Item::Text("a"),
];

#[test]
fn elements_ascend_by_kind_then_by_value(rt: HostRuntime) -> Result<(), Fail> {
    let elements = elements_of(rt.alloc(), &ASCENDING)?;
    assert!(rt; elements.len() == 9 && ascend(&elements));
    Ok(())
}

/// Return the set of 0, 1 and so on, below the limit.
fn set_below(alloc: Global, limit: i64) -> Result<ElemSet, AllocError> {
    let mut set = ElemSet::new(alloc);
    for n in 0..limit {
        set.insert(Element::Num(n))?;
    }
    Ok(set)
}

fn put(bag: &mut ElemBag, n: i64, count: u32) -> Result<(), AllocError> {
    let element = Element::Num(n);
    if count > 0 && bag.count(&element) == 0 {
        bag.put(element, count)?;
    }
    Ok(())
}

/// Return the bag of 0, 1 and so on, below the limit, each once more than the one before.
fn bag_below(alloc: Global, limit: u32) -> Result<ElemBag, AllocError> {
    let mut bag = ElemBag::new(alloc);
    for n in 0..limit {
        put(&mut bag, i64::from(n), n.saturating_add(1))?;
    }
    Ok(bag)
}

fn contains(set: &ElemSet, n: i64) -> bool {
    set.contains(&Element::Num(n))
}

fn is_copied(alloc: Global, value: Value) -> Result<bool, AllocError> {
    Ok(value.copy(alloc)? == value)
}

/// Return whether copies of the location are equal, also of one that its copies share: such a copy takes no memory.
fn is_location_copied(alloc: Global, at: Location) -> Result<bool, AllocError> {
    let copy = at.copy(alloc)?;
    let shared = at.share(alloc)?;
    Ok(copy == shared && shared.copy(alloc)? == copy)
}

#[test]
fn copies_are_equal(rt: HostRuntime) -> Result<(), Fail> {
    let alloc = rt.alloc();
    for args in [&[9][..], &[], &[1, 2, 3, 4, 5, 6, 7, 8]] {
        assert!(rt; is_location_copied(alloc, location_at(alloc, "a", args)?)?);
    }
    for item in ASCENDING {
        assert!(rt; is_copied(alloc, Value::Plain(element(alloc, item)?))?);
    }
    assert!(rt; is_copied(alloc, Value::Set(set_below(alloc, 4097)?))?);
    assert!(rt; is_copied(alloc, Value::Bag(bag_below(alloc, 4097)?))?);
    Ok(())
}

/// Return whether the set, which is empty, has 1 once when it was inserted twice, and no more once it was removed.
fn has_1_once(mut set: ElemSet) -> Result<bool, AllocError> {
    let was_empty = set.is_empty();
    let is_new = set.insert(Element::Num(1))?;
    let is_new_again = set.insert(Element::Num(1))?;
    let is_in = contains(&set, 1) && set.len() == 1 && !set.is_empty();
    let was_in = set.remove(&Element::Num(1));
    let was_in_again = set.remove(&Element::Num(1));
    let is_out = !was_in_again && set.iter().next().is_none();
    Ok(was_empty && is_new && !is_new_again && is_in && was_in && is_out)
}

#[test]
fn a_set_has_an_element_once(rt: HostRuntime) -> Result<(), Fail> {
    assert!(rt; has_1_once(ElemSet::new(rt.alloc()))?);
    Ok(())
}

/// Return whether the bag has one element, however often.
fn has_one(bag: &ElemBag) -> bool {
    let mut entries = bag.iter();
    entries.next().is_some() && entries.next().is_none()
}

/// Return whether the bag, which is empty, has two of an element that were put in.
///
/// It has nothing once they were removed.
fn has_2_until_taken(mut bag: ElemBag, element: &Element) -> Result<bool, AllocError> {
    if bag.count(element) != 0 {
        return Ok(false);
    }
    bag.put(element.clone()?, 2)?;
    let is_in = bag.count(element) == 2 && has_one(&bag);
    if !is_in {
        return Ok(false);
    }
    bag.take(element, 2);
    Ok(bag.count(element) == 0 && bag.iter().next().is_none())
}

#[test]
fn a_bag_holds_no_count_of_zero(rt: HostRuntime) -> Result<(), Fail> {
    let element = text(rt.alloc(), "e")?;
    assert!(rt; has_2_until_taken(ElemBag::new(rt.alloc()), &element)?);
    Ok(())
}

/// An item that no memory is found to clone.
#[derive(Drop)]
struct Unclonable;

impl Clone for Unclonable {
    ghost is_clone = { λ _ _. ⊥ };

    fn clone(&self) -> Result<Unclonable, AllocError> {
        Err(AllocError)
    }
}

#[test]
fn a_clone_of_a_shared_list_clones_no_item(rt: HostRuntime) -> Result<(), Fail> {
    let alloc = rt.alloc();
    let list = Items::shared(alloc, vec![in alloc; Unclonable, Unclonable]?)?;
    assert_eq!(rt; list.clone()?.as_slice().len(), 2);
    let none: Items<Unclonable> = Items::shared(alloc, Vec::new(alloc))?;
    assert_eq!(rt; none.clone()?.as_slice().len(), 0);
    Ok(())
}
