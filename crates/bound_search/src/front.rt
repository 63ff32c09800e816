// The open suffixes of one piece.
ghost use Rattle.std.specs.Prelude.{◌≡◌, ◌+◌, ◌^◌, ◌<◌, ◌∷◌, [], length, IfOk, OnErr, Some, IsTrue, slice_get};
ghost use Rattle.assertions.specs.Suffixes.{is_suffix};
ghost use Rattle.set_tallies.specs.Bags.{Kept};
ghost use Rattle.suffix_tree.specs.Scores.{IsScoredOver};
ghost use Rattle.bound_search.specs.Fronts.{IsFirstOf, IsFront};
ghost use Rattle.bound_search.specs.Sifted.{IsLook, IsPut, IsTaken};

use crate::sift::{lessened, replace_first, sift};
use irv_base::Memory;
use std::alloc::Global;
use std::collections::BinaryHeap;
use std::marker::Model;
use suffix_tree::{Scored, Tail};

/// The open suffixes of one piece: everything that is left to examine of the suffixes that end in a given one. A suffix is expanded
/// at most once, and its children replace it.
///
/// In a contract, it is the piece, the list of the open suffixes, in any order, the bound of the last turn, the smallest margin
/// found, in votes, and the number of suffixes expanded.
#[derive(Drop)]
pub struct Front {
    piece: Tail,
    suffixes: BinaryHeap<Scored>,
    bound: u32,
    least: u32,
    expanded: u32,
}

impl Model for Front {
    ghost use Rattle.std.specs.BinaryHeap.{heap_items, IsHeap};
    ghost use Rattle.suffix_tree.specs.Scores.{first_is_greatest};
    ghost use Rattle.bound_search.specs.Fronts.{Frontier};

    ghost Value = { Frontier };

    ghost view = { λ f. record {
      piece = f.piece;
      suffixes = heap_items f.suffixes;
      bound = f.bound;
      least = f.least;
      expanded = f.expanded;
    } };

    ghost invariant = { λ f. IsHeap first_is_greatest (heap_items f.suffixes) };
}

/// What a front has at its head: nothing below the bound, a whole order, or another suffix.
#[derive(Clone, Copy)]
pub enum Look {
    NoneLeft,
    Whole,
    Part,
}

impl Front {
    /// Creates a front in which only this suffix is open. It is what `score` gives for its tail. All turns use the tallies that it
    /// was scored with.
    pub fn new(alloc: Global, start: Scored) -> Result<Front, Memory>
        ensures front { IfOk result (λ f. (bag : Kept) → start.tail.n ≡ bag.n
            → IsScoredOver bag start → IsFront bag f) }
        ensures piece { IfOk result (λ f. f.piece ≡ start.tail) }
        ensures suffix { IfOk result (λ f. IsTrue (is_suffix f.piece.n f.piece.list)) }
        ensures alone { IfOk result (λ f. f.suffixes ≡ start ∷ []) }
        ensures unbounded { IfOk result (λ f. f.bound ≡ u32.MAX) }
        ensures nothing_found { IfOk result (λ f. f.least ≡ u32.MAX) }
        ensures none_expanded { IfOk result (λ f. f.expanded ≡ 0) }
    {
        let piece = start.tail;
        // The list guarantees what no field of a tail says: its candidates are distinct, and are candidates of the contest.
        let _suffix = start.tail.list();
        let mut suffixes = BinaryHeap::new(alloc);
        suffixes.push(start)?;
        Ok(Front {
            piece,
            suffixes,
            bound: u32::MAX,
            least: u32::MAX,
            expanded: 0,
        })
    }

    /// The number of suffixes expanded.
    pub fn expanded(&self) -> u32
        ensures { result ≡ self.now.expanded }
    {
        self.expanded
    }

    // Sets the bound of a turn.
    pub(crate) fn lower(&mut self, bound: u32)
        ensures { self.new ≡ record self.old { bound = bound } }
    {
        self.bound = bound;
    }

    // The bound of the last turn.
    pub(crate) fn bound(&self) -> u32
        ensures { result ≡ self.now.bound }
    {
        self.bound
    }

    // What the front has at its head.
    pub(crate) fn look(&self) -> Look
        ensures { IsLook self.now result }
    {
        match self.suffixes.peek() {
            None => Look::NoneLeft,
            Some(first) => {
                if self.bound <= first.low {
                    Look::NoneLeft
                } else if first.tail.is_whole() {
                    Look::Whole
                } else {
                    Look::Part
                }
            }
        }
    }

    // The first suffix. No other has a lower low.
    pub(crate) fn first(&self) -> &Scored
        requires { 0 < length self.now.suffixes }
        ensures is { slice_get self.now.suffixes 0 ≡ Some result.now }
        ensures least { IsFirstOf result.now self.now.suffixes }
    {
        match self.suffixes.peek() {
            Some(first) => first,
            None => unreachable!(),
        }
    }

    // Removes the first suffix, which is a whole order.
    pub(crate) fn take_whole(&mut self) -> Scored
        requires { 0 < length self.old.suffixes }
        ensures { IsTaken self.old self.new result }
    {
        let Some(order) = self.suffixes.pop() else {
            unreachable!()
        };
        self.least = self.least.min(order.low);
        order
    }

    // Replaces the first suffix with the children. If memory runs out, nothing changes.
    pub(crate) fn put(
        &mut self,
        alloc: Global,
        children: Vec<Scored>,
    ) -> Result<Option<Scored>, Memory>
        requires some { 0 < length self.old.suffixes }
        requires room { self.old.expanded + 1 < 2 ^ 32 }
        ensures put { IfOk result (IsPut children.items self.old self.new) }
        ensures err { OnErr result (self.new ≡ self.old) }
    {
        let sifted = sift(alloc, children, self.bound)?;
        replace_first(&mut self.suffixes, sifted.fresh)?;
        self.expanded += 1;
        self.least = lessened(self.least, &sifted.found);
        Ok(sifted.found)
    }
}
