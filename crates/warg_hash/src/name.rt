//! Names of packages.

ghost use Rattle.std.specs.Prelude.{◌≡◌, ◌||◌, ℕ, List, Some, refl, bytes_eq, IfOk, Err};
ghost use Rattle.std.proofs.Common.{rules};
ghost use Rattle.std.specs.List.{list_all, before_first, after_first};
ghost use Rattle.std.specs.Ordering.{nat_cmp};
ghost use Rattle.std.specs.Cmp.{partial_equiv_from_equiv};
ghost use Rattle.std.specs.Cmp.Lexicographic.{slice_cmp, nat_list_eq_equiv, nat_list_cmp_total, texts_ties, texts_po};
ghost use Rattle.std.specs.Cmp.Rules.{hashing};
ghost use Rattle.std.specs.Hash as fed;
ghost use Rattle.warg_hash.specs.Name.{is_lower, is_digit, is_word, is_label, is_colon, is_package_name, IsNameOf, IsPackageName};
ghost use Rattle.warg_hash.specs.declared.name.NameError.TheVariants.{Form, Memory as WantsMemory};

use std::alloc::Global;
use std::cmp::Ordering;
use std::fmt;
use std::hash::{Hash, Hasher};
use std::marker::Model;
use thiserror::Error;
use warg_values::{Memory, Text};

/// Why a text names nothing.
#[derive(Clone, Copy, Debug, PartialEq, Eq, Error)]
pub enum NameError {
    /// The text has not the form that is asked.
    #[error("the text has not the form of such a name, key or hash: correct it")]
    Form,
    /// No memory was left.
    #[error("out of memory: free some, or give the program more, and try again")]
    Memory,
}

impl From<Memory> for NameError {
    ghost from_gives = { λ _ e. e ≡ WantsMemory };

    fn from(_memory: Memory) -> NameError {
        NameError::Memory
    }
}

/// Lower-case letters and digits.
fn are_letters_and_digits(text: &[u8]) -> bool
    ensures { result ≡ list_all (λ b. is_lower b || is_digit b) text.now }
{
    text.iter()
        .all(|b| b.is_ascii_lowercase() || b.is_ascii_digit())
}

/// A lower-case letter, and then lower-case letters and digits.
fn is_word(text: &[u8]) -> bool
    ensures { result ≡ is_word text.now }
{
    match text {
        [] => false,
        [first, rest @ ..] => first.is_ascii_lowercase() && are_letters_and_digits(rest),
    }
}

/// Words joined by hyphens.
fn is_label(text: &str) -> bool
    ensures { result ≡ is_label text.now }
{
    text.split('-').all(|word| is_word(word.as_bytes()))
}

/// Two labels with a colon between them.
fn is_package_name(text: &str) -> bool
    ensures { result ≡ is_package_name text.now }
{
    match text.split_once(':') {
        Some((namespace, name)) => is_label(namespace) && is_label(name),
        None => false,
    }
}

/// The name of a package: a namespace and a name in it, `namespace:name`.
///
/// Both are words joined by hyphens; a word is a lower-case letter, and then lower-case letters and digits. Names are
/// equal, are ordered and hash by their text, and a clause sees the text's bytes.
#[derive(Debug, Drop)]
pub struct PackageName {
    text: Text,
}

impl Model for PackageName {
    ghost use Rattle.std.specs.Prelude.{◌≡◌, ℕ, List, true};

    ghost Value = { List ℕ };

    ghost use Rattle.warg_hash.specs.Name.{is_package_name};

    ghost view = { λ n. n.text };

    ghost invariant = { λ n. is_package_name n.text ≡ true };
}

impl PackageName {
    /// The name that a text is.
    ///
    /// A text that is not two labels with a colon between them is `Form`.
    pub fn new(alloc: Global, text: &str) -> Result<Self, NameError>
        ensures ok { IfOk result (λ name. (name ≡ text.now) × IsPackageName text.now) }
        ensures form { (result ≡ Err Form) → ¬ (IsPackageName text.now) }
    {
        if !is_package_name(text) {
            return Err(NameError::Form);
        }
        let text = Text::copy_of(alloc, text)?;
        Ok(PackageName { text })
    }

    /// The namespace and the name in it.
    fn parts(&self) -> (&str, &str)
        ensures parts { IsNameOf self.now result.0.now result.1.now }
        ensures before { result.0.now ≡ before_first is_colon self.now }
        ensures after { result.1.now ≡ after_first is_colon self.now }
    {
        self.text.as_str().split_once(':').unwrap()
    }

    /// The label before the colon.
    pub fn namespace(&self) -> &str
        ensures value { result.now ≡ before_first is_colon self.now }
        ensures parts { (name : List ℕ) × IsNameOf self.now result.now name }
    {
        self.parts().0
    }

    /// The label after the colon.
    pub fn name(&self) -> &str
        ensures value { result.now ≡ after_first is_colon self.now }
        ensures parts { (namespace : List ℕ) × IsNameOf self.now namespace result.now }
    {
        self.parts().1
    }

    /// The whole name.
    pub fn as_str(&self) -> &str
        ensures value { result.now ≡ self.now }
        ensures is_name { IsPackageName self.now }
    {
        self.text.as_str()
    }

    /// An equal name of its own.
    pub fn try_clone(&self, alloc: Global) -> Result<Self, Memory>
        ensures { IfOk result (λ copy. copy ≡ self.now) }
    {
        let text = self.text.try_clone(alloc)?;
        Ok(PackageName { text })
    }
}

impl fmt::Display for PackageName {
    ghost output = { λ name. Some name };

    fn fmt<W: fmt::Write>(&self, f: &mut fmt::Formatter<W>) -> fmt::Result {
        fmt::Display::fmt(&self.as_str(), f)
    }
}

impl PartialEq for PackageName {
    ghost eq = { λ a b. bytes_eq a b };

    ghost laws = { partial_equiv_from_equiv nat_list_eq_equiv };

    fn eq(&self, other: &PackageName) -> bool {
        self.text == other.text
    }
}

impl Eq for PackageName {
    ghost laws = { nat_list_eq_equiv };
}

impl PartialOrd for PackageName {
    ghost partial_cmp = { λ a b. Some (slice_cmp nat_cmp a b) };

    ghost laws = { texts_po };

    fn partial_cmp(&self, other: &PackageName) -> Option<Ordering> {
        Some(self.cmp(other))
    }
}

impl Ord for PackageName {
    ghost cmp = { λ a b. slice_cmp nat_cmp a b };

    ghost total = { nat_list_cmp_total };

    ghost matches_partial_cmp = { λ a b. refl };

    ghost matches_eq = { texts_ties };

    fn cmp(&self, other: &PackageName) -> Ordering {
        self.text.cmp(&other.text)
    }
}

impl Hash for PackageName {
    ghost hash_input = { λ name. fed.str name };

    ghost respects_eq = { Prim.search (hashing, rules) };

    fn hash<H: Hasher>(&self, state: &mut H) {
        self.text.hash(state);
    }
}
