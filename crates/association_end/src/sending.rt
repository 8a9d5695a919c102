//! Messages that an end sends.

ghost use Rattle.std.specs.Prelude.{◌≡◌, [], ◌∷◌, IfOk, OnOk, OnErr};
ghost use Rattle.osi_base.specs.Limits.{IsUnitSize};
ghost use Rattle.association_words.specs.Seen.{seen_message};
ghost use Rattle.association_reacting.specs.association_answers.BroughtAs.{seen_messages};
ghost use Rattle.association_writing.specs.Room.{MayStand};
ghost use Rattle.association_end.specs.OneMessage.{all_written, AllMayStand, sending};

use crate::end::End;
use association_meaning::association_codecs_layer::Codecs;
use association_words::Message;
use association_writing::write_message;
use osi_base::{NoMemory, Octets};
use std::alloc::Global;
use stub_tables::Tables;

/// The octets of messages, one behind the other.
fn write_all(
    alloc: Global,
    codecs: &Codecs,
    tables: &Tables,
    size: u32,
    messages: &[Message],
) -> Result<Octets, NoMemory>
    requires sized { IsUnitSize size }
    requires room { AllMayStand (seen_messages messages.now) }
    ensures { IfOk result (λ octets. octets ≡ all_written tables.now size
        (seen_messages messages.now)) }
{
    let mut octets = Octets::new(alloc);
    for message in messages {
        let text = write_message(alloc, codecs, tables, size, message)?;
        octets.extend(text.as_slice())?;
    }
    Ok(octets)
}

impl<'t> End<'t> {
    /// Puts a message behind what waits.
    pub(crate) fn write(&mut self, message: &Message) -> Result<(), NoMemory>
        requires { MayStand (seen_message message.now) }
        ensures ok { OnOk result (self.new ≡ sending (seen_message message.now ∷ []) self.old) }
        ensures err { OnErr result (self.new ≡ self.old) }
    {
        let text = write_message(
            self.basis.alloc,
            &self.codecs,
            self.basis.tables,
            self.size,
            message,
        )?;
        self.waiting.extend(text.as_slice())?;
        Ok(())
    }

    /// Puts messages behind what waits: all of them, or none.
    pub(crate) fn send_all(&mut self, messages: &[Message]) -> Result<(), NoMemory>
        requires { AllMayStand (seen_messages messages.now) }
        ensures ok { OnOk result (self.new ≡ sending (seen_messages messages.now) self.old) }
        ensures err { OnErr result (self.new ≡ self.old) }
    {
        let text = write_all(
            self.basis.alloc,
            &self.codecs,
            self.basis.tables,
            self.size,
            messages,
        )?;
        self.waiting.extend(text.as_slice())?;
        Ok(())
    }
}
