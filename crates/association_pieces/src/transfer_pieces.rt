//! What a transfer is made of: octets and marks.

ghost use Rattle.std.specs.Prelude.{◌≡◌, ◌<◌, [], ◌∷◌, suc, length, reverse, IfOk, OnOk};
ghost use Rattle.osi_base.specs.Limits.{most_32};
ghost use Rattle.association_sets.specs.end_rules.State.{Octets as octets_piece, Marked as marked_piece, joined, highest, newest_set, from_mark, up_to};
ghost use Rattle.association_sets.specs.end_rules.ByItself.{ends_in_octets};
ghost use Rattle.association_pieces.specs.NewestEnd.{starts_at, front_octets};

use crate::piece::Piece;
use crate::stack::Stack;
use osi_base::{NoMemory, Octets, SetItem, SetList};
use std::alloc::Global;
use std::marker::Model;

/// The pieces of a transfer, newest first, with how many octets they have and their highest mark.
#[derive(Debug, Drop)]
pub struct TransferPieces {
    stack: Stack<Piece>,
    /// How many octets they have.
    count: usize,
    /// The number of their newest mark.
    top: u32,
}

impl Model for TransferPieces {
    ghost use Rattle.std.specs.Prelude.{◌≡◌, ◌<◌, List, length};
    ghost use Rattle.osi_base.specs.Limits.{most_32};
    ghost use Rattle.association_sets.specs.end_rules.State.{Piece as seen_piece, joined, highest};

    ghost Value = { List seen_piece };

    ghost view = { λ p. p.stack };

    ghost invariant = { λ p. (p.count ≡ length (joined p.stack)) × (p.top ≡ highest p.stack)
        × (p.top < most_32) };
}

impl TransferPieces {
    /// No pieces.
    pub fn new(alloc: Global) -> TransferPieces
        ensures { result ≡ [] }
    {
        TransferPieces {
            stack: Stack::new(alloc),
            count: 0,
            top: 0,
        }
    }

    /// Puts octets behind the pieces. `NoMemory` also where the pieces would have more octets than
    /// a `usize` counts.
    pub fn push_octets(&mut self, octets: Octets) -> Result<(), NoMemory>
        ensures { OnOk result (self.new ≡ octets_piece octets ∷ self.old) }
    {
        let Some(count) = self.count.checked_add(octets.len()) else {
            return Err(NoMemory);
        };
        self.stack.push(Piece::octets(octets))?;
        self.count = count;
        Ok(())
    }

    /// Puts a mark with its set behind the pieces. `NoMemory` also for the number 4,294,967,295,
    /// which no end reaches.
    pub fn push_mark(&mut self, number: u32, set: SetList) -> Result<(), NoMemory>
        ensures { OnOk result (self.new ≡ marked_piece number set ∷ self.old) }
    {
        let piece = Piece::marked(number, set)?;
        self.stack.push(piece)?;
        self.top = number;
        Ok(())
    }

    /// How many octets the pieces have.
    pub fn octets(&self) -> usize
        ensures { result ≡ length (joined self.now) }
    {
        self.count
    }

    /// The number of the newest mark, 0 where there is none.
    pub fn highest(&self) -> u32
        ensures { result ≡ highest self.now }
    {
        self.top
    }

    /// The number of the next mark.
    pub fn next(&self) -> u32
        ensures { result ≡ suc (highest self.now) }
    {
        self.top + 1
    }

    /// Whether the newest piece is octets.
    pub fn ends_in_octets(&self) -> bool
        ensures { result ≡ ends_in_octets self.now }
    {
        match self.stack.first() {
            None => false,
            Some(piece) => piece.is_octets(),
        }
    }

    /// The set of the newest mark with this number; none where there is none.
    #[tactic(auto, using(crate::proofs::NewestEnd::left_at))]
    pub fn set_of(&self, n: u32) -> &[SetItem]
        ensures { result.now ≡ newest_set (from_mark n self.now) }
    {
        for place in 0..self.stack.len() {
            let piece = self.stack.at(place);
            if piece.is_mark(n) {
                return piece.set();
            }
        }
        &[]
    }

    /// Keeps the pieces up to the mark with this number, none for 0.
    pub fn cut(&mut self, n: u32)
        ensures { self.new ≡ up_to n self.old }
    {
        if n == 0 {
            self.clear();
        } else {
            self.cut_to_mark(n);
        }
    }

    /// Forgets all pieces.
    pub fn clear(&mut self)
        ensures { self.new ≡ [] }
    {
        self.stack.clear();
        self.count = 0;
        self.top = 0;
    }

    /// Keeps the pieces up to the newest mark with this number.
    fn cut_to_mark(&mut self, n: u32)
        ensures { self.new ≡ from_mark n self.old }
    {
        let count = cut_stack(&mut self.stack, self.count, n);
        self.count = count;
        self.top = highest_in(&self.stack);
    }

    /// All octets of the pieces, from the first to the newest.
    pub fn join(&self, alloc: Global) -> Result<Octets, NoMemory>
        ensures { IfOk result (λ octets. octets ≡ joined self.now) }
    {
        join(alloc, self.stack.as_slice())
    }
}

/// All octets of pieces that are given from the first to the newest.
#[tactic(auto, using(crate::proofs::NewestEnd::joined_push))]
fn join(alloc: Global, pieces: &[Piece]) -> Result<Octets, NoMemory>
    ensures { IfOk result (λ octets. octets ≡ joined (reverse pieces.now)) }
{
    let mut octets = Octets::new(alloc);
    for piece in pieces {
        octets.extend(piece.as_slice())?;
    }
    Ok(octets)
}

/// Whether the newest piece is the mark with this number, or there is none.
fn starts_at(stack: &Stack<Piece>, n: u32) -> bool
    ensures { result ≡ starts_at n stack.now }
{
    match stack.first() {
        None => true,
        Some(piece) => piece.is_mark(n),
    }
}

/// How many octets the newest piece has.
fn front_len(stack: &Stack<Piece>) -> usize
    ensures { result ≡ length (front_octets stack.now) }
{
    match stack.first() {
        None => 0,
        Some(piece) => piece.as_slice().len(),
    }
}

/// Takes pieces out down to the newest mark with this number, or all where there is none, and
/// answers how many of so many octets are left.
fn cut_stack(stack: &mut Stack<Piece>, octets: usize, n: u32) -> usize
    requires { octets ≡ length (joined stack.old) }
    ensures cut { stack.new ≡ from_mark n stack.old }
    ensures left { result ≡ length (joined stack.new) }
{
    let mut left = octets;
    while !starts_at(stack, n) {
        left -= front_len(stack);
        stack.drop_first();
    }
    left
}

/// The number of the newest mark.
#[tactic(auto, using(crate::proofs::NewestEnd::left_at))]
fn highest_in(stack: &Stack<Piece>) -> u32
    ensures highest { result ≡ highest stack.now }
    ensures fits { result < most_32 }
{
    for place in 0..stack.len() {
        let piece = stack.at(place);
        if !piece.is_octets() {
            return piece.number();
        }
    }
    0
}
