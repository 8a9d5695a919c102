//! What all layers share: octets, names, object identifiers, syntaxes and sides; units of the
//! session (X.225) and of the presentation (X.226), and APDUs of association control (X.227) and of
//! reliable transfer (X.228), as types; limits, as definitions; how faults print; and the outside
//! as traits (files, output, connections), with the real ones and ones in memory that fail where
//! they are told to.
#![tactic(auto)]

mod acse_word;
mod bit_string;
mod call_log;
mod copied;
mod failing_calls;
mod fault;
mod files;
mod hexadecimal;
mod layer_words;
mod line;
mod list;
mod mem_calls;
mod mem_files;
mod mem_line;
mod name;
mod octet_numbers;
mod octet_queue;
mod octets;
mod oid;
mod presentation_word;
mod printing;
mod proposals;
mod real_files;
mod rtse_word;
mod session_word;
mod set_places;
mod sink;
mod sure_line;
mod syntax;
mod tcp_line;

pub use acse_word::{Acse, Diagnostic, External, Externals};
pub use bit_string::{BitString, power_of_2};
pub use copied::Copied;
pub use failing_calls::FailingCalls;
pub use fault::NoMemory;
pub use files::{FILE_MOST, FileFault, Files};
pub use hexadecimal::octet_of_digits;
pub use layer_words::{
    AddAnswer, AddAnswers, Answers, Ids, Indices, Kind, Layer, Oids, Problem, ProblemKind,
    Proposal, Proposals, RestoredItem, RestoredList, SetItem, SetList, Side, Status,
};
pub use line::{Failed, Line, LineCall, LineFault, Outcome};
pub use list::ListOf;
pub use mem_files::{MemFile, MemFiles, MemSink, SureFiles, SureSink};
pub use mem_line::MemLine;
pub use name::{Name, Words};
pub use octet_numbers::{hold_octets, hold_some_octets};
pub use octet_queue::{OctetQueue, copy_front};
pub use octets::Octets;
pub use oid::{Oid, are_oid};
pub use presentation_word::{
    Pdv, PdvContent, Pdvs, Ppdu, PresentationAccept, PresentationConnect, PresentationReject,
    PresentationWord,
};
pub use printing::{FaultAt, WordWithNumber};
pub use proposals::is_badly_offered;
pub use real_files::{DiskFiles, StdSink};
pub use rtse_word::{ConnectionData, Rtse};
pub use session_word::{SessionConnect, SessionWord, Spdu, Spdus};
pub use set_places::{pair_of, place_of, remove_context};
pub use sink::{Sink, SinkFault, write_all};
pub use sure_line::SureLine;
pub use syntax::{Pair, Syntax, is_listed};
pub use tcp_line::TcpLine;
