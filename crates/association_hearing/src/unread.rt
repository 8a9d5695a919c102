//! Octets of the module's abstract syntax that spell no APDU.

ghost use Rattle.std.specs.Prelude.{◌≡◌, IfOk};
ghost use Rattle.end_rules.specs.Hearing.{hear};
ghost use Rattle.end_wire.specs.Heads.{head_at};
ghost use Rattle.rose_roles.specs.Hearing.{heard_with};
ghost use Rattle.association_answers.specs.association_state.Seen.{base_in};

use association_answers::association_state_layer::Basis;
use association_answers::open_invocations_layer::Invocations;
use osi_base::{NoMemory, Octets, Syntax, hold_octets, hold_some_octets};
use rose_roles::{RoseTaken, refused_head};

/// What becomes of octets on a context in a syntax: of the head that they spell, or of octets that
/// spell none.
fn hear_octets(
    basis: &Basis<'_>,
    calls: &mut Invocations,
    context: u32,
    syntax: Syntax,
    octets: &[u8],
) -> Result<RoseTaken, NoMemory>
    ensures { IfOk result (λ taken. heard_with calls.new taken ≡ hear (base_in basis.now) calls.old
        context (head_at basis.now.tables.now syntax octets.now)) }
{
    basis.tables.hold_readable();
    hold_octets(octets);
    match basis.heads.read(basis.alloc, syntax, octets) {
        Ok(head) => {
            hold_some_octets(&head.rest);
            calls.take(basis.tables, syntax, context, head)
        }
        Err(fault) => refused_head(fault),
    }
}

/// What becomes of octets on a context in a syntax: octets from which no head can be read are
/// rejected, but a reject that can't be read is only told.
pub fn hear_unread(
    basis: &Basis<'_>,
    calls: &mut Invocations,
    context: u32,
    syntax: Syntax,
    octets: &Octets,
) -> Result<RoseTaken, NoMemory>
    ensures { IfOk result (λ taken. heard_with calls.new taken ≡ hear (base_in basis.now) calls.old
        context (head_at basis.now.tables.now syntax octets.now)) }
{
    hear_octets(basis, calls, context, syntax, octets.as_slice())
}
