//! A scanner of octets that come piece by piece.

ghost use Rattle.std.specs.Prelude.{◌≡◌, ◌<◌, ◌^◌, ℕ, Bool, List, length, false};
ghost use Rattle.stream_front.specs.Fronts.{front_at};
ghost use Rattle.stream_front.specs.Resuming.{HasSeen, is_done, first_value_of};

use crate::first_value::FirstValue;
use crate::steps::step;

/// What stands next in the value that is scanned.
#[derive(Clone, Copy, Debug)]
pub enum ScanStage {
    /// A value or an end-of-contents.
    Next,
    /// Behind one zero octet, which may begin an end-of-contents (X.690 8.1.5).
    Zero,
    /// The first digit of a high tag number (X.690 8.1.2.4).
    High {
        /// Whether the identifier says that the encoding is constructed.
        constructed: bool,
    },
    /// A further digit; `padded` where the first one was a leading zero.
    Digits {
        /// Whether the identifier says that the encoding is constructed.
        constructed: bool,
        /// Whether the first digit was a leading zero.
        padded: bool,
        /// The tag number of the digits that were seen, at most 2^32.
        number: u64,
    },
    /// A length (X.690 8.1.3).
    Length {
        /// Whether the identifier says that the encoding is constructed.
        constructed: bool,
    },
    /// So many of the octets of a length in the long form (X.690 8.1.3.5).
    Size {
        /// How many octets the length has behind its first one.
        size: u8,
        /// How many of them weren't seen yet.
        left: u8,
        /// The number of those that were seen, at most 2^32.
        number: u64,
    },
    /// So many octets of contents.
    Contents {
        /// How many octets of the contents weren't seen yet.
        left: u64,
    },
    /// Anything: one whole value was seen.
    Whole,
    /// Anything: the field at this place breaks the rules.
    Faulty {
        /// Where the field begins, counted from the first octet that was scanned.
        place: usize,
    },
}

/// Where the scanning of octets stands that come piece by piece.
#[derive(Clone, Copy, Debug)]
pub struct Scanner {
    /// How many octets were seen.
    pub(crate) seen: usize,
    /// Where the field begins that is scanned.
    pub(crate) field: usize,
    /// How many indefinite lengths are open.
    pub(crate) depth: u32,
    /// What stands next.
    pub(crate) stage: ScanStage,
}

impl Scanner {
    /// A scanner that has seen no octet.
    pub fn new() -> Scanner
        ensures { (octets : List ℕ) → HasSeen result octets }
    {
        Scanner {
            seen: 0,
            field: 0,
            depth: 0,
            stage: ScanStage::Next,
        }
    }

    /// How many octets were seen.
    pub fn seen(&self) -> usize
        ensures { result ≡ self.now.seen }
    {
        self.seen
    }

    /// What these octets begin with, the first of which were seen before. It looks at those behind
    /// them alone, up to the end of the first value or of the octets.
    pub fn front(&mut self, octets: &[u8]) -> FirstValue
        requires seen { HasSeen self.old octets.now }
        ensures front { (strict : Bool) → result ≡ front_at strict octets.now }
        ensures seen { HasSeen self.new octets.now }
        ensures all { is_done self.new.stage ≡ false → self.new.seen ≡ length octets.now }
    {
        while let Some(octet) = octets.get(self.seen) {
            if self.is_done() {
                return self.first_value();
            }
            *self = step(*self, *octet);
        }
        self.first_value()
    }

    /// Whether the octets that were seen say what stands first.
    fn is_done(&self) -> bool
        ensures { result ≡ is_done self.now.stage }
    {
        matches!(self.stage, ScanStage::Whole | ScanStage::Faulty { .. })
    }

    /// What the octets that were seen begin with.
    fn first_value(&self) -> FirstValue
        ensures { result ≡ first_value_of self.now.stage self.now.seen }
    {
        match self.stage {
            ScanStage::Whole => FirstValue::Whole(self.seen),
            ScanStage::Faulty { place } => FirstValue::Faulty(place),
            _ => FirstValue::Short,
        }
    }
}
