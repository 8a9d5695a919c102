//! What the layers say to one another in small: sides, layers, kinds of faults, problems of remote
//! operations, statuses, and the items of sets of contexts with what is proposed and answered.

use crate::copied::Copied;
use crate::fault::NoMemory;
use crate::list::ListOf;
use crate::octets::Octets;
use crate::oid::Oid;
use crate::printing::WordWithNumber;
use crate::syntax::Pair;
use std::alloc::Global;
use std::fmt;

/// Numbers of contexts, as a list.
pub type Ids = ListOf<u32>;
/// Places in a table, as a list.
pub type Indices = ListOf<u32>;
/// Object identifiers, as a list.
pub type Oids = ListOf<Oid>;

/// One of the two ends.
#[derive(Clone, Copy, Debug, PartialEq, Eq)]
pub enum Side {
    /// The end that a schedule names A: the initiator.
    A,
    /// The end that a schedule names B: the responder.
    B,
}

/// How a field breaks a grammar.
#[derive(Clone, Copy, Debug, PartialEq, Eq)]
pub enum Kind {
    /// It begins with what may not stand there.
    Tag,
    /// What must stand there lacks.
    Missing,
    /// It stands where nothing may follow.
    Extra,
    /// Its length can't be.
    Length,
    /// Its contents break the rule of its type.
    Content,
    /// It isn't in the one form that is asked for.
    Form,
}

impl Kind {
    ghost use Rattle.std.specs.Prelude.{◌≡◌};
    ghost use Rattle.osi_base.specs.Printed.{kind_word};

    /// The name of the kind.
    pub fn word(self) -> &'static str
        ensures { result.now ≡ kind_word self }
    {
        match self {
            Kind::Tag => "Tag",
            Kind::Missing => "Missing",
            Kind::Extra => "Extra",
            Kind::Length => "Length",
            Kind::Content => "Content",
            Kind::Form => "Form",
        }
    }
}

impl fmt::Display for Kind {
    ghost use Rattle.std.specs.Prelude.{Some};
    ghost use Rattle.osi_base.specs.Printed.{kind_word};

    ghost output = { λ kind. Some (kind_word kind) };

    fn fmt<W: fmt::Write>(&self, f: &mut fmt::Formatter<W>) -> fmt::Result {
        f.write_str(self.word())
    }
}

/// The layer that found a fault.
#[derive(Clone, Copy, Debug, PartialEq, Eq)]
pub enum Layer {
    /// Packets and transport units (RFC 1006, X.224).
    Transport,
    /// Session units (X.225).
    Session,
    /// Presentation units (X.226).
    Presentation,
    /// Association control (X.227).
    Acse,
    /// Reliable transfer (X.228).
    Rtse,
    /// Remote operations (X.880).
    Rose,
}

impl Layer {
    ghost use Rattle.std.specs.Prelude.{◌≡◌};
    ghost use Rattle.osi_base.specs.Printed.{layer_word};

    /// The name of the layer.
    pub fn word(self) -> &'static str
        ensures { result.now ≡ layer_word self }
    {
        match self {
            Layer::Transport => "transport",
            Layer::Session => "session",
            Layer::Presentation => "presentation",
            Layer::Acse => "acse",
            Layer::Rtse => "rtse",
            Layer::Rose => "rose",
        }
    }
}

impl fmt::Display for Layer {
    ghost use Rattle.std.specs.Prelude.{Some};
    ghost use Rattle.osi_base.specs.Printed.{layer_word};

    ghost output = { λ layer. Some (layer_word layer) };

    fn fmt<W: fmt::Write>(&self, f: &mut fmt::Formatter<W>) -> fmt::Result {
        f.write_str(self.word())
    }
}

/// What a reject speaks of (X.880 9.4).
#[derive(Clone, Copy, Debug, PartialEq, Eq)]
pub enum ProblemKind {
    /// An APDU as a whole, `[0]`.
    General,
    /// An invocation, `[1]`.
    Invoke,
    /// A result, `[2]`.
    Result,
    /// An error, `[3]`.
    Error,
}

impl ProblemKind {
    ghost use Rattle.std.specs.Prelude.{◌≡◌};
    ghost use Rattle.osi_base.specs.Printed.{problem_word};

    /// The word of what a reject speaks of.
    pub fn word(self) -> &'static str
        ensures { result.now ≡ problem_word self }
    {
        match self {
            ProblemKind::General => "general",
            ProblemKind::Invoke => "invoke",
            ProblemKind::Result => "result",
            ProblemKind::Error => "error",
        }
    }
}

impl fmt::Display for ProblemKind {
    ghost use Rattle.std.specs.Prelude.{Some};
    ghost use Rattle.osi_base.specs.Printed.{problem_word};

    ghost output = { λ kind. Some (problem_word kind) };

    fn fmt<W: fmt::Write>(&self, f: &mut fmt::Formatter<W>) -> fmt::Result {
        f.write_str(self.word())
    }
}

/// The problem that a reject carries (X.880 9.4).
#[derive(Clone, Copy, Debug, PartialEq, Eq)]
pub struct Problem {
    /// What the reject speaks of.
    pub kind: ProblemKind,
    /// The problem's number among those of its kind.
    pub number: i64,
}

impl fmt::Display for Problem {
    ghost use Rattle.std.specs.Prelude.{Some};
    ghost use Rattle.osi_base.specs.Printed.{problem_text};

    ghost output = { λ problem. Some (problem_text problem) };

    fn fmt<W: fmt::Write>(&self, f: &mut fmt::Formatter<W>) -> fmt::Result {
        fmt::Display::fmt(
            &WordWithNumber {
                word: self.kind.word(),
                number: Some(self.number),
            },
            f,
        )
    }
}

/// How a run of the program ends. No command of today ends with `LineFault`, `Ended` or `Spent`;
/// they are for planned ones.
#[derive(Clone, Copy, Debug, PartialEq, Eq)]
pub enum Status {
    /// The command's work is whole.
    Done,
    /// The words aren't a command.
    Usage,
    /// A file could not be read.
    ReadFault,
    /// The output could not be written.
    WriteFault,
    /// The line could not be opened.
    LineFault,
    /// The module was refused.
    ModuleRefused,
    /// The schedule or the recording was refused.
    ScriptRefused,
    /// The association ended before the script did.
    Ended,
    /// A connection brought more octets than are read.
    Spent,
    /// An allocation was refused.
    NoMemory,
}

/// A context of a set: its identifier, and what it stands for (X.216 3.3.15).
#[derive(Debug, Drop)]
pub struct SetItem {
    /// Presentation context identifier, 1 to 32,767.
    pub id: u32,
    /// The abstract and the transfer syntax that were agreed for it.
    pub pair: Pair,
}

/// A set of contexts, by rising identifier.
pub type SetList = ListOf<SetItem>;

/// An item of the list that a restart carries (X.226 8.2).
#[derive(Debug, Drop)]
pub struct RestoredItem {
    /// Presentation context identifier, 1 to 32,767.
    pub id: u32,
    /// The name of its transfer syntax.
    pub transfer: Oid,
}

/// The list that a restart carries, as it stood on the wire.
pub type RestoredList = ListOf<RestoredItem>;

/// A proposed context: its identifier, its abstract syntax and the transfer syntaxes that are
/// offered for it (X.226 8.2).
#[derive(Debug, Drop)]
pub struct Proposal {
    /// Presentation context identifier, 1 to 32,767.
    pub id: u32,
    /// The abstract syntax.
    pub abstract_name: Oid,
    /// The transfer syntaxes that are offered, in their order.
    pub transfers: Oids,
}

/// Proposed contexts, in the order in which they are answered.
pub type Proposals = ListOf<Proposal>;

/// The answer to one addition: 0 accepted, 1 rejected by the user, 2 by the provider (X.226 8.2).
#[derive(Debug, Drop)]
pub struct AddAnswer {
    /// 0 accepted, 1 rejected by the user, 2 rejected by the provider.
    pub result: u8,
    /// The transfer syntax that was chosen, where the addition is accepted.
    pub transfer: Option<Oid>,
    /// Why the provider rejected it, as a number of X.226's `provider-reason`, where that is told.
    pub reason: Option<u8>,
}

/// Answers to additions, in the order of the proposals.
pub type AddAnswers = ListOf<AddAnswer>;

/// The answers to an alteration: one for each addition, and 0 or 1 for each deletion.
#[derive(Debug, Drop)]
pub struct Answers {
    /// One answer for each addition, in the order of the proposals.
    pub added: AddAnswers,
    /// One octet for each deletion, in their order: 0 accepted, 1 rejected.
    pub deleted: Octets,
}

impl Copied for SetItem {
    fn copy(&self, alloc: Global) -> Result<SetItem, NoMemory> {
        Ok(SetItem {
            id: self.id,
            pair: self.pair.copy(alloc)?,
        })
    }
}

impl Copied for Proposal {
    fn copy(&self, alloc: Global) -> Result<Proposal, NoMemory> {
        Ok(Proposal {
            id: self.id,
            abstract_name: self.abstract_name.copy(alloc)?,
            transfers: self.transfers.copy(alloc)?,
        })
    }
}

impl Copied for RestoredItem {
    fn copy(&self, alloc: Global) -> Result<RestoredItem, NoMemory> {
        Ok(RestoredItem {
            id: self.id,
            transfer: self.transfer.copy(alloc)?,
        })
    }
}

impl Copied for AddAnswer {
    fn copy(&self, alloc: Global) -> Result<AddAnswer, NoMemory> {
        Ok(AddAnswer {
            result: self.result,
            transfer: self.transfer.copy(alloc)?,
            reason: self.reason,
        })
    }
}

impl Copied for Answers {
    fn copy(&self, alloc: Global) -> Result<Answers, NoMemory> {
        Ok(Answers {
            added: self.added.copy(alloc)?,
            deleted: self.deleted.copy(alloc)?,
        })
    }
}
