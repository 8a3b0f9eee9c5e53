ghost use Rattle.std.specs.Prelude.{◌≡◌, ◌≤◌, length, slice_index};
ghost use Rattle.asm_element.specs.Head as head;
ghost use Rattle.asm_element.specs.Limits.{args_limit};

use crate::element::{Element, NUMBER_RANK, rank};
use crate::parts::Parts;

// The most bytes of a name that a head holds.
const SHORT_NAME: usize = 7;

// The last byte of the head of a longer name, above that of all arguments.
const LONG_NAME: u8 = 254;

/// Return the head of the location, which orders most locations at once.
///
/// It is one number: the name's first 7 bytes, and then a byte of the number of arguments and the rank of the first
/// one. A longer name has 254 as that byte. The head is odd where it and the number are all of the location.
pub(crate) fn head_of(parts: &Parts) -> u64
    ensures { result ≡ head.place_head parts.now }
{
    let name = parts.name().as_bytes();
    u64::from_be_bytes([
        byte_at(name, 0),
        byte_at(name, 1),
        byte_at(name, 2),
        byte_at(name, 3),
        byte_at(name, 4),
        byte_at(name, 5),
        byte_at(name, 6),
        last_byte(parts),
    ])
}

/// Return the number of the location, which orders most locations of one head.
///
/// It is the first argument if that is a number and the name is short, or 0.
pub(crate) fn number_of(parts: &Parts) -> i64
    ensures { result ≡ head.place_number parts.now }
{
    if parts.name().len() > SHORT_NAME {
        return 0;
    }
    first_number(parts.args())
}

// The byte at the place, or 0 past the end.
fn byte_at(bytes: &[u8], place: usize) -> u8
    ensures { result ≡ slice_index bytes.now place }
{
    if place < bytes.len() { bytes[place] } else { 0 }
}

// The last byte of the location's head.
fn last_byte(parts: &Parts) -> u8
    ensures { result ≡ head.last_byte parts.now }
{
    if parts.name().len() > SHORT_NAME {
        return LONG_NAME;
    }
    args_byte(parts.args())
}

// 16 for each argument, twice the rank of the first, and 1 if they are decided.
fn args_byte(args: &[Element]) -> u8
    requires { length args.now ≤ args_limit }
    ensures { result ≡ head.args_byte args.now }
{
    16 * (args.len() as u8) + 2 * first_rank(args) + decided(args)
}

// The rank of the first argument, or 0.
fn first_rank(args: &[Element]) -> u8
    ensures rank { result ≡ head.first_rank args.now }
    ensures bound { result ≤ 5 }
{
    match args.first() {
        None => 0,
        Some(first) => rank(first),
    }
}

// The first argument if it is a number, or 0.
fn first_number(args: &[Element]) -> i64
    ensures { result ≡ head.first_number args.now }
{
    match args.first() {
        Some(Element::Num(number)) => *number,
        _ => 0,
    }
}

// 1 if the number of arguments and the rank and the number of the first decide all of them, or else 0.
fn decided(args: &[Element]) -> u8
    ensures decided { result ≡ head.decided args.now }
    ensures bound { result ≤ 1 }
{
    match args {
        [] => 1,
        [only] => { if rank(only) <= NUMBER_RANK { 1 } else { 0 } }
        _ => 0,
    }
}
