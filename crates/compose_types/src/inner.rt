//! Scopes within the component that is built.

ghost use Rattle.std.specs.Prelude.{◌≡◌};
ghost use Rattle.compose_writing.specs.Scopes.{opened};
ghost use Rattle.compose_types.specs.Scopes.{IsInner, kind_of, scope_of};

use crate::body::Scope;
use crate::open::Open;
use std::alloc::Global;
use std::marker::Model;

/// A scope within the component that is built, of the kind that its width tells: a type of components counts as two
/// scopes of names, and a type of instances as less.
///
/// A clause sees the scope that is open.
#[derive(Drop)]
pub struct Inner {
    /// The scope that is open.
    scope: Open,
}

impl Model for Inner {
    ghost use Rattle.compose_types.specs.declared.open.Open.{Open};
    ghost use Rattle.compose_types.specs.contracts.open.Open as e;
    ghost use Rattle.std.specs.Coded.{codes};

    ghost Value = { Open };

    ghost coded = { Prim.hlevel (codes, e.the_row.coded) };

    ghost use Rattle.compose_types.specs.Scopes.{IsInner};

    ghost view = { λ s. s.scope };

    ghost invariant = { λ s. IsInner s.scope };
}

/// The kind of a scope within the component that counts as so many scopes of names.
fn kind_of(width: usize) -> Scope
    ensures { result ≡ kind_of width }
{
    if width < 2 {
        Scope::Instance
    } else {
        Scope::Component
    }
}

impl Inner {
    /// A scope at its begin, which counts as so many scopes of names.
    pub fn new(alloc: Global, width: usize) -> Self
        ensures { scope_of result ≡ opened width }
    {
        Inner {
            scope: Open::new(alloc, kind_of(width), width),
        }
    }

    /// A scope that is open, of the kind that its width tells.
    pub fn of(scope: Open) -> Self
        requires { IsInner scope }
        ensures { result ≡ scope }
    {
        Inner { scope }
    }

    /// The scope that is open.
    pub fn as_open(&self) -> &Open
        ensures { result.now ≡ self.now }
    {
        &self.scope
    }

    /// The scope that is open, to be written into.
    pub fn into_open(self) -> Open
        ensures scope { result ≡ self }
        ensures kind { IsInner result }
    {
        let Inner { scope } = self;
        scope
    }
}
