//! What an end of reliable mode does by itself (X.228 7.3).

ghost use Rattle.std.specs.Prelude.{◌≡◌, [], ◌∷◌, Some, false, IfOk, OnOk, OnErr, MatchResult, option_map};
ghost use Rattle.end_rules.specs.ByItself.{encoding, item_on, encoded_as, next_own as rule_next};
ghost use Rattle.end_rules.specs.State.{passes_over};
ghost use Rattle.osi_base.specs.SetPlaces.{pair_of};
ghost use Rattle.end_rules.specs.History.{encoded as rule_encoded, sent, step_of};
ghost use Rattle.association_words.specs.Seen.{seen_message};
ghost use Rattle.association_writing.specs.Room.{MayStand};
ghost use Rattle.association_reacting.specs.association_state.Seen.{base_in, seen};
ghost use Rattle.association_pieces.specs.Sending.{seen_queued, seen_transfer};
ghost use Rattle.association_requests.specs.OwnActs.{seen_act};
ghost use Rattle.association_end.specs.View.{base, Stepped};
ghost use Rattle.association_end.specs.Progress.{Keeps, DidOneOrRests, DidOwn, BeganOwn};

use crate::end::End;
use association_line::own_acts_end;
use association_meaning::association_codecs_layer::Codecs;
use association_reacting::association_sends_layer::pair_copied;
use association_reacting::association_state_layer::{Basis, Body, Encoded, Queued, Transfer};
use association_requests::{OwnAct, after_sent, next_own};
use association_words::{Message, TransferItem};
use association_writing::write_item;
use osi_base::{NoMemory, Pair};

/// The transfer with its item encoded on a context under a pair, with the checkpoint and the window
/// of the connection.
fn encoded_under(
    basis: &Basis<'_>,
    codecs: &Codecs,
    body: &Body,
    transfer: Transfer,
    id: u32,
    pair: Pair,
) -> Result<Transfer, NoMemory>
    ensures { IfOk result (λ t. seen_transfer t ≡ record (seen_transfer transfer) {
      encoded = encoded_as (base_in basis.now) (seen body.now) (Some (record {
        id = id;
        pair = pair;
        apdu = transfer.item.apdu;
      }));
    }) }
{
    let Transfer {
        item,
        encoded,
        pieces,
        confirmed,
        progress,
    } = transfer;
    drop(encoded);
    let Queued { context, apdu } = item;
    let item = TransferItem { id, pair, apdu };
    match write_item(basis.alloc, codecs, basis.tables, &item) {
        Ok(octets) => {
            let TransferItem { id, pair, apdu } = item;
            Ok(Transfer {
                item: Queued { context, apdu },
                encoded: Some(Encoded {
                    id,
                    pair,
                    octets,
                    checkpoint: body.link.checkpoint,
                    window: body.link.window,
                }),
                pieces,
                confirmed,
                progress,
            })
        }
        Err(error) => {
            drop(item);
            drop(pieces);
            Err(error)
        }
    }
}

/// The transfer with its item encoded on a context, under the pair that the set gives it; not
/// encoded where it gives none.
fn encoded_on(
    basis: &Basis<'_>,
    codecs: &Codecs,
    body: &Body,
    mut transfer: Transfer,
    context: u32,
) -> Result<Transfer, NoMemory>
    ensures { IfOk result (λ t. seen_transfer t ≡ record (seen_transfer transfer) {
      encoded = encoded_as (base_in basis.now) (seen body.now) (item_on context
          (seen_queued transfer.item) (pair_of (seen body.now).sets.held context));
    }) }
{
    match pair_copied(basis.alloc, body.sets.held.as_slice(), context) {
        Ok(pair) => match pair {
            None => {
                transfer.encoded = None;
                Ok(transfer)
            }
            Some(pair) => encoded_under(basis, codecs, body, transfer, context, pair),
        },
        Err(error) => {
            drop(transfer);
            Err(error)
        }
    }
}

/// The item of the current transfer is encoded on a context.
fn encode(basis: &Basis<'_>, codecs: &Codecs, body: &mut Body, context: u32) -> Result<(), NoMemory>
    ensures ok { OnOk result (seen body.new ≡ encoding (base_in basis.now) context
        (seen body.old)) }
    ensures link { (seen body.new).link ≡ (seen body.old).link }
{
    match body.sending.current.take() {
        None => Ok(()),
        Some(transfer) => {
            let encoded = encoded_on(basis, codecs, body, transfer, context)?;
            body.sending.current = Some(encoded);
            Ok(())
        }
    }
}

impl<'t> End<'t> {
    /// Encodes the item of the current transfer on a context.
    fn encode(&mut self, context: u32) -> Result<(), NoMemory>
        ensures ok { OnOk result (Stepped self.old self.new (rule_encoded context ∷ [])) }
        ensures err { OnErr result (Keeps self.old self.new) }
    {
        encode(&self.basis, &self.codecs, &mut self.body, context)
    }

    /// Sends one message.
    fn send(&mut self, message: &Message) -> Result<(), NoMemory>
        requires up { passes_over self.old.end.body.link.phase ≡ false }
        requires room { MayStand (seen_message message.now) }
        ensures ok { OnOk result
            (Stepped self.old self.new (sent (seen_message message.now) ∷ [])) }
        ensures err { OnErr result (Keeps self.old self.new) }
    {
        after_sent(&self.basis, &mut self.body, message)?;
        self.write(message)
    }

    /// What the end does next by itself, if anything.
    fn next_act(&self) -> Result<Option<OwnAct>, NoMemory>
        ensures { IfOk result (λ act. option_map seen_act act ≡ rule_next (base self.now)
            self.now.end.body) }
    {
        next_own(&self.basis, &self.body)
    }

    /// Does what comes next.
    fn perform(&mut self, act: OwnAct) -> Result<(), NoMemory>
        requires { Some (seen_act act) ≡ rule_next (base self.old) self.old.end.body }
        ensures ok { OnOk result (Stepped self.old self.new (step_of (seen_act act) ∷ [])) }
        ensures err { OnErr result (Keeps self.old self.new) }
    {
        match act {
            OwnAct::Encodes(context) => self.encode(context),
            OwnAct::Sends(message) => {
                let sent = self.send(&message);
                drop(message);
                sent
            }
        }
    }

    /// Does one thing by itself, and answers whether there was one.
    fn do_next(&mut self) -> Result<bool, NoMemory>
        ensures { MatchResult result (λ more. DidOneOrRests more self.old self.new)
            (λ _. Keeps self.old self.new) }
    {
        let next = self.next_act()?;
        match next {
            None => Ok(false),
            Some(act) => {
                self.perform(act)?;
                Ok(true)
            }
        }
    }

    /// Does all that the end does by itself.
    pub(crate) fn do_own_acts(&mut self) -> Result<(), NoMemory>
        ensures ok { OnOk result (DidOwn self.old self.new) }
        ensures err { OnErr result (BeganOwn self.old self.new) }
    {
        own_acts_end();
        'doing: loop {
            let more = self.do_next()?;
            if !more {
                return Ok(());
            }
        }
    }
}
