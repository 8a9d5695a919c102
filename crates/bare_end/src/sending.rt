//! The octets that calls write, and whether an APDU is too long.

ghost use Rattle.std.specs.Prelude.{◌≡◌, IfOk, OnOk, OnErr};
ghost use Rattle.apdu_spelling.specs.Writing.{written_apdu};
ghost use Rattle.bare_end.specs.View.{base, with_waiting};
ghost use Rattle.bare_end.specs.Checking.{IsShortText};

use crate::end::End;
use dialogue::CallRefusal;
use end_wire::apdu_codec_layer::is_too_long_with;
use osi_base::{NoMemory, Octets, Syntax};
use stub_tables::Apdu;

/// What a call sends, or why it is refused.
#[derive(Drop)]
pub enum Checked {
    /// The call is refused, for this reason.
    Refused(CallRefusal),
    /// The call is accepted, and sends these octets.
    Sends(Octets),
}

impl<'t> End<'t> {
    /// The octets of an APDU in one syntax.
    pub(crate) fn text(&self, syntax: Syntax, apdu: &Apdu) -> Result<Octets, NoMemory>
        ensures { IfOk result (λ text. text ≡ written_apdu self.now.tables syntax apdu.now) }
    {
        self.heads.write(self.alloc, syntax, self.tables, apdu)
    }

    /// The octets of an APDU in BER, unless a spelling in one of the three syntaxes has too many.
    pub(crate) fn short_text(&self, apdu: &Apdu) -> Result<Option<Octets>, NoMemory>
        ensures { IfOk result (IsShortText (base self.now) apdu.now) }
    {
        let used = self.tables.use_in(apdu);
        if is_too_long_with(self.tables, used, apdu) {
            return Ok(None);
        }
        let text = self
            .heads
            .write_with(self.alloc, Syntax::Ber, self.tables, used, apdu)?;
        Ok(Some(text))
    }

    /// Puts octets behind those that wait.
    pub(crate) fn send(&mut self, text: &[u8]) -> Result<(), NoMemory>
        ensures ok { OnOk result (self.new ≡ with_waiting text.now self.old) }
        ensures err { OnErr result (self.new ≡ self.old) }
    {
        self.waiting.extend(text)?;
        Ok(())
    }
}
