// Lists stored back to back.
ghost use Rattle.std.specs.Prelude.{◌≡◌, ◌<◌, ◌≤◌, ◌+◌, ◌-◌, ◌^◌, ◌++◌, ◌∷◌, [], List, Some, IfOk, OnOk, OnErr, All, length, map, take, drop, slice_get, slice_index_or, vec_capacity, vec_len};
ghost use Rattle.irv_base.specs.Lists.{AreBegins, lists_between};

use crate::Memory;
use std::alloc::Global;
use std::marker::Model;

/// A list of lists. It uses the space of their elements, plus four bytes for each list.
///
/// In a contract, it is the list of those lists.
#[derive(Drop)]
pub struct Lists<T> {
    elements: Vec<T>,
    // where each list begins
    begins: Vec<u32>,
}

impl<T> Model for Lists<T> {
    ghost use Rattle.std.specs.Prelude.{List, length};
    ghost use Rattle.irv_base.specs.Lists.{ArePlaces, lists_between};

    ghost Value = { List (List T) };

    ghost view = { λ l. lists_between l.begins.items l.elements.items };

    ghost invariant = { λ l. ArePlaces l.begins.items (length l.elements.items) };
}

// The place where list `i` ends, if the last list ends at place n.
fn end_of(begins: &[u32], n: usize, i: usize) -> usize
    requires { i < length begins.now }
    ensures { result ≡ slice_index_or begins.now (i + 1) n }
{
    match begins.get(i + 1) {
        Some(end) => *end as usize,
        None => n,
    }
}

// The places where list `i` begins and ends among the elements.
fn bounds<T>(begins: &[u32], elements: &[T], i: usize) -> (usize, usize)
    requires begins { AreBegins begins.now (length elements.now) }
    requires within { i < length begins.now }
    ensures rise { result.0 ≤ result.1 }
    ensures last { result.1 ≤ length elements.now }
    ensures list { slice_get (lists_between begins.now elements.now) i
        ≡ Some (take (result.1 - result.0) (drop result.0 elements.now)) }
{
    (begins[i] as usize, end_of(begins, elements.len(), i))
}

// The place where a list begins that is added after this number of elements.
fn begin_behind(elements: usize) -> Result<u32, Memory>
    ensures { IfOk result (λ begin. begin ≡ elements) }
{
    if elements > u32::MAX as usize {
        return Err(Memory);
    }
    Ok(elements as u32)
}

// Appends begins, each moved up by the number of elements before them all.
fn push_moved(begins: &mut Vec<u32>, others: &[u32], elements: u32)
    requires room { vec_len begins.old + length others.now ≤ vec_capacity begins.old }
    requires fit { All (λ begin. elements + begin < 2 ^ 32) others.now }
    ensures { begins.new.items
        ≡ begins.old.items ++ map (λ begin. elements + begin) others.now }
{
    for begin in others {
        begins.push_reserved(elements + *begin);
    }
}

impl<T: Copy> Lists<T> {
    /// Creates an empty list of lists, with room for this many lists, and for this many elements in all.
    pub fn nothing(alloc: Global, lists: usize, elements: usize) -> Result<Lists<T>, Memory>
        ensures { IfOk result (λ none. none ≡ []) }
    {
        Ok(Lists {
            elements: Vec::with_capacity(alloc, elements)?,
            begins: Vec::with_capacity(alloc, lists)?,
        })
    }

    /// The number of lists.
    pub fn len(&self) -> usize
        ensures { result ≡ length self.now }
    {
        self.begins.len()
    }

    /// The list with number `i`, from 0.
    pub fn at(&self, i: usize) -> &[T]
        requires { i < length self.now }
        ensures { slice_get self.now i ≡ Some result.now }
    {
        let (begin, end) = bounds(self.begins.as_slice(), self.elements.as_slice(), i);
        &self.elements[begin..end]
    }

    /// Appends a list. If more than `u32::MAX` elements come before it, the answer is `Memory`.
    pub fn push(&mut self, list: &[T]) -> Result<(), Memory>
        ensures pushed { OnOk result (self.new ≡ self.old ++ list.now ∷ []) }
        ensures same { OnErr result (self.new ≡ self.old) }
    {
        let begin = begin_behind(self.elements.len())?;
        self.begins.reserve(1)?;
        self.elements.extend_from_slice(list)?;
        self.begins.push_reserved(begin);
        Ok(())
    }

    /// Appends other lists, in order. If there would be more than `u32::MAX` elements, the answer is `Memory`.
    pub fn append(&mut self, others: &Lists<T>) -> Result<(), Memory>
        ensures appended { OnOk result (self.new ≡ self.old ++ others.now) }
        ensures same { OnErr result (self.new ≡ self.old) }
    {
        let ahead = begin_behind(self.elements.len())?;
        if others.elements.len() > (u32::MAX - ahead) as usize {
            return Err(Memory);
        }
        self.begins.reserve(others.begins.len())?;
        self.elements.extend_from_slice(&others.elements)?;
        push_moved(&mut self.begins, &others.begins, ahead);
        Ok(())
    }

    /// Appends an empty list. If more than `u32::MAX` elements come before it, the answer is `Memory`.
    pub fn begin(&mut self) -> Result<(), Memory>
        ensures begun { OnOk result (self.new ≡ self.old ++ [] ∷ []) }
        ensures same { OnErr result (self.new ≡ self.old) }
    {
        let begin = begin_behind(self.elements.len())?;
        self.begins.push(begin)?;
        Ok(())
    }

    /// Appends an element to the last list.
    pub fn lengthen(&mut self, x: T) -> Result<(), Memory>
        requires { 0 < length self.now }
        ensures longer { OnOk result ((earlier : List (List T)) → (last : List T)
            → self.old ≡ earlier ++ last ∷ [] → self.new ≡ earlier ++ (last ++ x ∷ []) ∷ []) }
        ensures same { OnErr result (self.new ≡ self.old) }
    {
        self.elements.reserve(1)?;
        self.elements.push_reserved(x);
        Ok(())
    }

    /// Returns a copy of the lists.
    pub fn copied(&self, alloc: Global) -> Result<Lists<T>, Memory>
        ensures { IfOk result (λ lists. lists ≡ self.now) }
    {
        Ok(Lists {
            elements: Vec::from_slice(alloc, &self.elements)?,
            begins: Vec::from_slice(alloc, &self.begins)?,
        })
    }
}
