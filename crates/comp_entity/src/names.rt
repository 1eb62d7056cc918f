//! Resources, and the places that named types, as the types of a shape mention them.

ghost use Rattle.std.specs.Prelude.{◌≡◌, ◌≤◌, ◌^◌, ◌⊎◌, IfSome, None};
ghost use Rattle.comp_entity.specs.Entity.{Name, name_in};

use std::marker::Model;

/// One more than the most scopes that a name may reach outwards.
const SCOPES: usize = 64;

/// The number that holds a name. `None` where the name is too far out, or its number too large.
fn packed(out: usize, number: usize) -> Option<usize>
    ensures some { IfSome result (λ n. name_in n ≡ record { out = out; number = number }) }
    ensures none { result ≡ None → (64 ≤ out) ⊎ (2 ^ 58 ≤ number) }
{
    if out >= SCOPES {
        return None;
    }
    let first = number.checked_mul(SCOPES)?;
    first.checked_add(out)
}

/// A resource, as it is called where it is mentioned: the resource of a number of the scope that is so many scopes
/// further out.
///
/// Two mentions in one scope are equal exactly where they are of one resource.
#[derive(Clone, Copy, Debug, PartialEq, Eq, PartialOrd, Ord, Hash)]
pub struct ResourceNo(usize);

impl Model for ResourceNo {
    ghost use Rattle.std.specs.Prelude.{◌+◌, ◌*◌};
    ghost use Rattle.comp_entity.specs.Entity.{Name, name_in};
    ghost use Rattle.comp_entity.specs.PackingLaws.{name_packed};

    ghost Value = { Name };

    ghost view = { λ r. name_in r.0 };

    ghost inverse = { λ n. record { 0 = n.number * 64 + n.out } };

    ghost inverse_ok = { λ a h i. record { 0 = name_packed a.0 i } };
}

impl ResourceNo {
    /// The resource of this number of the scope that is so many scopes further out. `None` where that is 64 scopes or
    /// more, or the number is 2^58 or more.
    pub fn new(out: usize, number: usize) -> Option<Self>
        ensures some { IfSome result (λ r. r ≡ record { out = out; number = number }) }
        ensures none { result ≡ None → (64 ≤ out) ⊎ (2 ^ 58 ≤ number) }
    {
        let number = packed(out, number)?;
        Some(ResourceNo(number))
    }

    /// How many scopes further out its scope is: less than 64.
    pub fn out(self) -> usize
        ensures { result ≡ self.out }
    {
        self.0 % SCOPES
    }

    /// Its number in its scope.
    pub fn number(self) -> usize
        ensures { result ≡ self.number }
    {
        self.0 / SCOPES
    }
}

/// The place, an import or an export, that named a type, as it is called where the type is mentioned: the place of a
/// number of the scope that is so many scopes further out.
///
/// Two mentions in one scope are equal exactly where they have one place.
#[derive(Clone, Copy, Debug, PartialEq, Eq, PartialOrd, Ord, Hash)]
pub struct TypeNo(usize);

impl Model for TypeNo {
    ghost use Rattle.std.specs.Prelude.{◌+◌, ◌*◌};
    ghost use Rattle.comp_entity.specs.Entity.{Name, name_in};
    ghost use Rattle.comp_entity.specs.PackingLaws.{name_packed};

    ghost Value = { Name };

    ghost view = { λ t. name_in t.0 };

    ghost inverse = { λ n. record { 0 = n.number * 64 + n.out } };

    ghost inverse_ok = { λ a h i. record { 0 = name_packed a.0 i } };
}

impl TypeNo {
    /// The place of this number of the scope that is so many scopes further out. `None` where that is 64 scopes or
    /// more, or the number is 2^58 or more.
    pub fn new(out: usize, number: usize) -> Option<Self>
        ensures some { IfSome result (λ t. t ≡ record { out = out; number = number }) }
        ensures none { result ≡ None → (64 ≤ out) ⊎ (2 ^ 58 ≤ number) }
    {
        let number = packed(out, number)?;
        Some(TypeNo(number))
    }

    /// How many scopes further out its scope is: less than 64.
    pub fn out(self) -> usize
        ensures { result ≡ self.out }
    {
        self.0 % SCOPES
    }

    /// Its number in its scope.
    pub fn number(self) -> usize
        ensures { result ≡ self.number }
    {
        self.0 / SCOPES
    }
}
