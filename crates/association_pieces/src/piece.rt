//! One piece of a transfer.

ghost use Rattle.std.specs.Prelude.{◌≡◌, ◌<◌, [], ◌∷◌, IfOk, OnOk};
ghost use Rattle.osi_base.specs.Limits.{most_32};
ghost use Rattle.association_sets.specs.end_rules.State.{Octets as octets_piece, Marked as marked_piece};
ghost use Rattle.association_sets.specs.end_rules.ByItself.{ends_in_octets};
ghost use Rattle.association_pieces.specs.Pieces.{is_mark, octets_in, set_in, number_in};

use osi_base::{NoMemory, Octets, SetItem, SetList};
use std::marker::Model;

/// Octets, or a mark with its set.
#[derive(Debug, Drop)]
enum PieceNode {
    Octets(Octets),
    Marked { number: u32, set: SetList },
}

/// A piece of a transfer: octets, or a mark with its set.
#[derive(Debug, Drop)]
pub struct Piece {
    node: PieceNode,
}

impl Model for Piece {
    ghost use Rattle.association_sets.specs.end_rules.State.{Piece as seen_piece};

    ghost Value = { seen_piece };

    ghost use Rattle.association_pieces.specs.Nodes.{seen_node, IsFit};

    ghost view = { λ p. seen_node p.node };

    ghost invariant = { λ p. IsFit p.node };
}

impl Piece {
    /// Octets.
    pub fn octets(octets: Octets) -> Piece
        ensures { result ≡ octets_piece octets }
    {
        Piece {
            node: PieceNode::Octets(octets),
        }
    }

    /// A mark with its set. `NoMemory` for the number 4,294,967,295, which no end reaches.
    pub fn marked(number: u32, set: SetList) -> Result<Piece, NoMemory>
        ensures mark { IfOk result (λ piece. piece ≡ marked_piece number set) }
        ensures fits { OnOk result (number < most_32) }
    {
        if number == u32::MAX {
            return Err(NoMemory);
        }
        Ok(Piece {
            node: PieceNode::Marked { number, set },
        })
    }

    /// Whether it is octets.
    pub(crate) fn is_octets(&self) -> bool
        ensures { result ≡ ends_in_octets (self.now ∷ []) }
    {
        match &self.node {
            PieceNode::Octets(_) => true,
            PieceNode::Marked { .. } => false,
        }
    }

    /// Whether it is the mark with this number.
    pub(crate) fn is_mark(&self, n: u32) -> bool
        ensures { result ≡ is_mark n self.now }
    {
        match &self.node {
            PieceNode::Octets(_) => false,
            PieceNode::Marked { number, .. } => *number == n,
        }
    }

    /// Its octets, none for a mark.
    pub(crate) fn as_slice(&self) -> &[u8]
        ensures { result.now ≡ octets_in self.now }
    {
        match &self.node {
            PieceNode::Octets(octets) => octets.as_slice(),
            PieceNode::Marked { .. } => &[],
        }
    }

    /// Its set, none for octets.
    pub(crate) fn set(&self) -> &[SetItem]
        ensures { result.now ≡ set_in self.now }
    {
        match &self.node {
            PieceNode::Octets(_) => &[],
            PieceNode::Marked { set, .. } => set.as_slice(),
        }
    }

    /// Its number, 0 for octets.
    pub(crate) fn number(&self) -> u32
        ensures number { result ≡ number_in self.now }
        ensures fits { result < most_32 }
    {
        match &self.node {
            PieceNode::Octets(_) => 0,
            PieceNode::Marked { number, .. } => *number,
        }
    }
}
