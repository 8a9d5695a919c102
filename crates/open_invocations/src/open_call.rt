//! An open invocation.

ghost use Rattle.std.specs.Prelude.{◌≡◌};
ghost use Rattle.rose_roles.specs.end_rules.State.{is_whose, is_key, is_parent_of};

use std::marker::Model;

/// An open invocation (X.880 8).
#[derive(Clone, Copy, Debug)]
pub struct OpenCall {
    /// Whether this end made it.
    pub(crate) own: bool,
    /// Its identifier.
    pub(crate) id: i64,
    /// Its operation, as a place in the table of operations.
    pub(crate) operation: u32,
    /// The presentation context on which it was invoked.
    pub(crate) context: u32,
    /// The open invocation of the other end to which it is linked.
    pub(crate) parent: Option<i64>,
}

impl Model for OpenCall {
    ghost use Rattle.rose_roles.specs.end_rules.State.{OpenCall as seen_call};

    ghost Value = { seen_call };

    ghost view = { λ o. record {
      own = o.own;
      id = o.id;
      operation = o.operation;
      context = o.context;
      parent = o.parent;
    } };

    ghost inverse = { λ o. record {
      own = o.own;
      id = o.id;
      operation = o.operation;
      context = o.context;
      parent = o.parent;
    } };
}

impl OpenCall {
    /// Whether this end made it.
    pub fn own(&self) -> bool
        ensures { result ≡ self.now.own }
    {
        self.own
    }

    /// Its identifier.
    pub fn id(&self) -> i64
        ensures { result ≡ self.now.id }
    {
        self.id
    }

    /// The presentation context on which it was invoked.
    pub fn context(&self) -> u32
        ensures { result ≡ self.now.context }
    {
        self.context
    }

    /// Whether the invocation is of this end (own), or of its peer.
    fn is_whose(&self, own: bool) -> bool
        ensures { result ≡ is_whose own self.now }
    {
        if own { self.own } else { !self.own }
    }

    /// Whether it has this identifier too.
    fn is_key(&self, own: bool, id: i64) -> bool
        ensures { result ≡ is_key own id self.now }
    {
        self.is_whose(own) && self.id == id
    }

    /// Whether that invocation is linked to this one.
    pub(crate) fn is_parent_of(&self, child: &OpenCall) -> bool
        ensures { result ≡ is_parent_of child.now self.now }
    {
        match child.parent {
            None => false,
            Some(parent) => self.is_key(!child.own, parent),
        }
    }
}
