//! The names by which registries are told apart.

ghost use Rattle.std.specs.Prelude.{◌≡◌, Some, Err, IfOk, bytes_eq};
ghost use Rattle.std.proofs.Common.{rules};
ghost use Rattle.std.specs.Cmp.{partial_equiv_from_equiv};
ghost use Rattle.std.specs.Cmp.Lexicographic.{nat_list_eq_equiv};
ghost use Rattle.std.specs.Cmp.Rules.{hashing};
ghost use Rattle.std.specs.Hash as fed;
ghost use Rattle.http_header.specs.FieldValue.{IsFieldValue, plain_value};
ghost use Rattle.warg_url.specs.declared.domain.HeaderError.TheVariants.{BadHeader as IsBadHeader, Memory as WantsMemory};

use http_header::{HeaderValue, HeaderValueError};
use std::alloc::{AllocError, AllocFailed, Global};
use std::fmt;
use std::hash::{Hash, Hasher};
use std::marker::Model;
use thiserror::Error;
use warg_values::{Memory, Text};

/// Why a text is no value of a header.
#[derive(Clone, Copy, Debug, PartialEq, Eq, Error)]
pub enum HeaderError {
    /// The text holds a byte that no header may hold.
    #[error("the text can't be sent in a header: take out its control characters")]
    BadHeader,
    /// No memory was left.
    #[error("out of memory: free some, or give the program more, and try again")]
    Memory,
}

impl From<Memory> for HeaderError {
    ghost from_gives = { λ _ e. e ≡ WantsMemory };

    fn from(_memory: Memory) -> HeaderError {
        HeaderError::Memory
    }
}

impl From<AllocError> for HeaderError {
    ghost from_gives = { λ _ e. e ≡ WantsMemory };

    fn from(_error: AllocError) -> HeaderError {
        HeaderError::Memory
    }
}

impl<T: Drop> From<AllocFailed<T>> for HeaderError {
    ghost from_gives = { λ _ e. e ≡ WantsMemory };

    fn from(_error: AllocFailed<T>) -> HeaderError {
        HeaderError::Memory
    }
}

/// The name of a registry, by which requests say which registry they mean.
///
/// Names are equal and hash by their bytes. A clause sees a name as the list of its bytes.
#[derive(Debug, Drop)]
pub struct RegistryDomain {
    name: Text,
}

impl Model for RegistryDomain {
    ghost use Rattle.std.specs.Prelude.{ℕ, List};

    ghost Value = { List ℕ };

    ghost view = { λ d. d.name };
}

impl RegistryDomain {
    /// The registry of a name.
    pub fn new(name: Text) -> Self
        ensures { result ≡ name }
    {
        RegistryDomain { name }
    }

    /// The name.
    pub fn as_str(&self) -> &str
        ensures { result.now ≡ self.now }
    {
        self.name.as_str()
    }

    /// The name as a header's value (RFC 9110, section 5.5). `BadHeader` comes only where it is none.
    pub fn header_value(&self, alloc: Global) -> Result<HeaderValue, HeaderError>
        ensures value { IfOk result (λ value. value ≡ plain_value self.now) }
        ensures bad_header { (result ≡ Err IsBadHeader) → ¬ (IsFieldValue self.now) }
    {
        match HeaderValue::from_str(alloc, self.as_str()) {
            Ok(value) => Ok(value),
            Err(HeaderValueError::Invalid) => Err(HeaderError::BadHeader),
            Err(HeaderValueError::OutOfMemory) => Err(HeaderError::Memory),
        }
    }

    /// An equal name of its own.
    pub fn try_clone(&self, alloc: Global) -> Result<Self, Memory>
        ensures { IfOk result (λ copy. copy ≡ self.now) }
    {
        let name = self.name.try_clone(alloc)?;
        Ok(RegistryDomain { name })
    }
}

impl fmt::Display for RegistryDomain {
    ghost output = { λ d. Some d };

    fn fmt<W: fmt::Write>(&self, f: &mut fmt::Formatter<W>) -> fmt::Result {
        fmt::Display::fmt(&self.as_str(), f)
    }
}

impl PartialEq for RegistryDomain {
    ghost eq = { λ a b. bytes_eq a b };

    ghost laws = { partial_equiv_from_equiv nat_list_eq_equiv };

    fn eq(&self, other: &RegistryDomain) -> bool {
        self.name == other.name
    }
}

impl Eq for RegistryDomain {
    ghost laws = { nat_list_eq_equiv };
}

impl Hash for RegistryDomain {
    ghost hash_input = { λ d. fed.str d };

    ghost respects_eq = { Prim.search (hashing, rules) };

    fn hash<H: Hasher>(&self, state: &mut H) {
        self.name.hash(state);
    }
}
