//! Messages in octets.

ghost use Rattle.std.specs.Prelude.{◌≡◌, IfOk};
ghost use Rattle.osi_base.specs.Limits.{IsUnitSize};
ghost use Rattle.association_words.specs.Seen.{seen_word, seen_message};
ghost use Rattle.association_wire.specs.Written.{tsdu_of, written};
ghost use Rattle.association_writing.specs.Room.{MayStand};

use crate::presentation_units::user_octets;
use crate::session::session_units;
use crate::transport::written_unit;
use association_codecs::Codecs;
use association_words::{Message, Word};
use osi_base::{NoMemory, Octets};
use spdu_codec::units_written;
use std::alloc::Global;
use stub_tables::Tables;
use tpkt::write_tsdu;

/// The transport service data unit of a word (X.225 8.3, X.226 8).
pub fn write_tsdu_of(
    alloc: Global,
    codecs: &Codecs,
    tables: &Tables,
    word: &Word,
) -> Result<Octets, NoMemory>
    ensures { IfOk result (λ octets. octets ≡ tsdu_of tables.now (seen_word word.now)) }
{
    let user = user_octets(alloc, codecs, tables, word)?;
    let units = session_units(alloc, user, word)?;
    units_written(alloc, &units)
}

/// The octets of a message in its one spelling (RFC 1006 6, X.224 13, X.225 8.3, X.226 8.2), with
/// at most `size` octets in a DT, 128 to 65,531. The header of a CR has room for at most 254
/// octets. An ER has no octets, since it is never written. `NoMemory` where memory runs out.
pub fn write_message(
    alloc: Global,
    codecs: &Codecs,
    tables: &Tables,
    size: u32,
    message: &Message,
) -> Result<Octets, NoMemory>
    requires sized { IsUnitSize size }
    requires room { MayStand (seen_message message.now) }
    ensures { IfOk result (λ octets. octets ≡ written tables.now size (seen_message message.now)) }
{
    match message {
        Message::Transport(unit) => written_unit(alloc, unit),
        Message::Session(word) => {
            let tsdu = write_tsdu_of(alloc, codecs, tables, word)?;
            write_tsdu(alloc, tsdu.as_slice(), size)
        }
    }
}
