ghost use Rattle.std.specs.Prelude.{◌≡◌, ◌↔◌, ℕ, List, ◌<◌, ◌≤◌, ◌+◌, ◌-◌, ◌∷◌, ◌++◌, [], IsTrue, IfOk, IfErr, OnOk, OnErr, IsNone, None, is_some, true, false, not, length, take, drop, set, slice_index_or, if◌then◌else◌, vec_len};
ghost use Rattle.asm_element.specs.Element.{element_cmp};
ghost use Rattle.std.specs.BTreeMap.{insert_entry};
ghost use Rattle.asm_element.specs.Slots.{live, count_of, key_of, IsSpot, IsGap};
ghost use Rattle.asm_element.specs.Entries.{at as at_key, held, assigned, gone, AllFit};
ghost use Rattle.asm_element.specs.Chunks.{there, AreChunks, IsPlace, IsRoom, IsEnd, Adds};

use crate::chunk::{Chunk, ROOM};
use crate::element::Element;
use crate::marks::Marks;
use std::alloc::{AllocError, Global};

/// Return the chunk that the key is in, if it is anywhere.
fn place<M: Marks>(chunks: &[Chunk<M>], key: &Element) -> usize
    requires chunks { AreChunks chunks.now }
    requires some { 0 < length chunks.now }
    ensures { IsPlace chunks.now key.now result }
{
    let mut low = 0;
    let mut high = chunks.len();
    while low + 1 < high {
        let mid = low + (high - low) / 2;
        if chunks[mid].is_above(key) {
            high = mid;
        } else {
            low = mid;
        }
    }
    low
}

/// Return how often the key is there.
pub(crate) fn count_in<M: Marks>(chunks: &[Chunk<M>], key: &Element) -> u32
    requires { AreChunks chunks.now }
    ensures { at_key (there chunks.now) key.now ≡ held result }
{
    if chunks.is_empty() {
        return 0;
    }
    let chunk = &chunks[place(chunks, key)];
    match chunk.find(key) {
        Ok(at) => chunk.count(at),
        Err(_) => 0,
    }
}

/// Drop the chunk if none of its keys is there.
fn sweep<M: Marks>(chunks: &mut Vec<Chunk<M>>, index: usize)
    requires chunks { AreChunks chunks.old.items }
    requires in_range { index < length chunks.old.items }
    ensures same { there chunks.new.items ≡ there chunks.old.items }
    ensures chunks { AreChunks chunks.new.items }
{
    if chunks[index].is_dead() {
        chunks.remove(index);
    }
}

/// Say how often the key is there, if it is; return how many entries that leaves out.
pub(crate) fn assign<M: Marks>(chunks: &mut Vec<Chunk<M>>, key: &Element, n: u32) -> usize
    requires chunks { AreChunks chunks.old.items }
    requires fits { n ≤ M.most }
    ensures new { there chunks.new.items ≡ assigned (there chunks.old.items) key.now n }
    ensures count { length (there chunks.old.items) ≡ length (there chunks.new.items) + result }
    ensures chunks { AreChunks chunks.new.items }
{
    if chunks.is_empty() {
        return 0;
    }
    let index = place(chunks, key);
    let Ok(at) = chunks[index].find(key) else {
        return 0;
    };
    if chunks[index].count(at) == 0 {
        return 0;
    }
    chunks[index].set_count(at, n);
    if n > 0 {
        return 0;
    }
    sweep(chunks, index);
    1
}

/// Add a chunk of this key, which is above all others.
fn append<M: Marks>(
    chunks: &mut Vec<Chunk<M>>,
    alloc: Global,
    key: Element,
    n: u32,
) -> Result<(), AllocError>
    requires end { IsEnd chunks.old.items key }
    requires positive { 1 ≤ n }
    requires fits { n ≤ M.most }
    ensures ok { OnOk result (Adds chunks.old.items chunks.new.items key n) }
    ensures err { OnErr result (chunks.new.items ≡ chunks.old.items) }
{
    let mut pairs = Vec::new(alloc);
    pairs.push((key, n))?;
    let chunk = Chunk::<M>::of(alloc, pairs)?;
    chunks.push(chunk)?;
    Ok(())
}

/// Add the key, by a chunk that is made anew, or two where it would be too long.
fn renew<M: Marks>(
    chunks: &mut Vec<Chunk<M>>,
    alloc: Global,
    index: usize,
    at: usize,
    key: Element,
    n: u32,
) -> Result<(), AllocError>
    requires room { IsRoom chunks.old.items key index at }
    requires positive { 1 ≤ n }
    requires fits { n ≤ M.most }
    ensures ok { OnOk result (Adds chunks.old.items chunks.new.items key n) }
    ensures err { OnErr result (chunks.new.items ≡ chunks.old.items) }
{
    let mut pairs = chunks[index].with(alloc, at, key, n)?;
    if pairs.len() <= ROOM {
        let chunk = Chunk::<M>::of(alloc, pairs)?;
        chunks[index] = chunk;
        return Ok(());
    }
    let upper = pairs.split_off(32)?;
    let low = Chunk::<M>::of(alloc, pairs)?;
    let high = Chunk::<M>::of(alloc, upper)?;
    chunks.insert(index + 1, high)?;
    chunks[index] = low;
    Ok(())
}

/// Add the key to its chunk in place, if no other owner shares that.
fn add_here<M: Marks>(
    chunks: &mut Vec<Chunk<M>>,
    alloc: Global,
    index: usize,
    at: usize,
    key: Element,
    n: u32,
) -> Result<(), AllocError>
    requires room { IsRoom chunks.old.items key index at }
    requires short { length (slice_index_or chunks.old.items index []) < 64 }
    requires positive { 1 ≤ n }
    requires fits { n ≤ M.most }
    ensures ok { OnOk result (Adds chunks.old.items chunks.new.items key n) }
    ensures err { OnErr result (chunks.new.items ≡ chunks.old.items) }
{
    match chunks[index].insert_here(at, key, n)? {
        None => Ok(()),
        Some(key) => renew(chunks, alloc, index, at, key, n),
    }
}

/// Add the key, which is nowhere yet.
fn add<M: Marks>(
    chunks: &mut Vec<Chunk<M>>,
    alloc: Global,
    index: usize,
    at: usize,
    key: Element,
    n: u32,
) -> Result<(), AllocError>
    requires room { IsRoom chunks.old.items key index at }
    requires positive { 1 ≤ n }
    requires fits { n ≤ M.most }
    ensures ok { OnOk result (Adds chunks.old.items chunks.new.items key n) }
    ensures err { OnErr result (chunks.new.items ≡ chunks.old.items) }
{
    if chunks[index].len() < ROOM {
        return add_here(chunks, alloc, index, at, key, n);
    }
    if index + 1 == chunks.len() && at == ROOM {
        return append(chunks, alloc, key, n);
    }
    renew(chunks, alloc, index, at, key, n)
}

/// Add the key if it isn't there; return whether it was new.
pub(crate) fn put_in<M: Marks>(
    chunks: &mut Vec<Chunk<M>>,
    alloc: Global,
    key: Element,
    n: u32,
) -> Result<bool, AllocError>
    requires chunks { AreChunks chunks.old.items }
    requires positive { 1 ≤ n }
    requires fits { n ≤ M.most }
    ensures added { IfOk result (λ added. added ≡ not (is_some (at_key (there chunks.old.items) key))) }
    ensures ok { IfOk result (λ added. there chunks.new.items
        ≡ (if added then insert_entry element_cmp (there chunks.old.items) key n else there chunks.old.items)) }
    ensures count { IfOk result (λ added. length (there chunks.new.items)
        ≡ length (there chunks.old.items) + (if added then 1 else 0)) }
    ensures err { OnErr result (chunks.new.items ≡ chunks.old.items) }
    ensures absent { OnErr result (at_key (there chunks.old.items) key ≡ None) }
    ensures chunks { AreChunks chunks.new.items }
{
    if chunks.is_empty() {
        append(chunks, alloc, key, n)?;
        return Ok(true);
    }
    let index = place(chunks, &key);
    match chunks[index].find(&key) {
        Ok(at) => {
            if chunks[index].count(at) > 0 {
                return Ok(false);
            }
            chunks[index].set_count(at, n);
            Ok(true)
        }
        Err(at) => {
            add(chunks, alloc, index, at, key, n)?;
            Ok(true)
        }
    }
}

/// Return the same chunks, which share their keys.
pub(crate) fn copied<M: Marks>(
    chunks: &[Chunk<M>],
    alloc: Global,
) -> Result<Vec<Chunk<M>>, AllocError>
    ensures { IfOk result (λ copy. copy.items ≡ chunks.now) }
{
    let mut copy = Vec::with_capacity(alloc, chunks.len())?;
    for chunk in chunks {
        copy.push(chunk.twin(alloc)?)?;
    }
    Ok(copy)
}
