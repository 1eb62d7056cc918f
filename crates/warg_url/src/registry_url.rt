//! URLs of registries.

ghost use Rattle.std.specs.Prelude.{◌≡◌, ◌≢◌, ◌++◌, ◌↔◌, bytes_eq, codes, IfOk, IfErr, OnOk, IsTrue, Some, Err, Ok, string_bytes, List, ℕ};
ghost use Rattle.std.specs.Cmp.{on_equiv, on_per, partial_equiv_from_equiv};
ghost use Rattle.std.specs.Cmp.Lexicographic.{nat_list_eq_equiv};
ghost use Rattle.std.specs.Str.Iter.{HasSubslice};
ghost use Rattle.url.specs.declared.error.ParseError.{ParseError as Fault};
ghost use Rattle.url.specs.declared.error.ParseError.TheVariants.{OutOfMemory as HasNoMemory, Overflow as IsTooLong};
ghost use Rattle.url.specs.Parts.{Parts, nonempty_host, serialize};
ghost use Rattle.url.specs.Parser.{parse_url};
ghost use Rattle.warg_url.specs.Label.{label};
ghost use Rattle.warg_url.specs.RegistryUrl.{IsWhole, ReadsAs, IsLocal, IsSafe, with_slash, base_of};
ghost use Rattle.warg_url.specs.declared.error.UrlError.TheVariants.{NotUrl as IsNotUrl, NotHttps as IsNotHttps, Insecure as IsInsecure};

use crate::domain::RegistryDomain;
use crate::error::UrlError;
use crate::label::{push_host, push_path, push_port};
use std::alloc::Global;
use std::fmt;
use std::marker::Model;
use url::{Host, ParseError, Url};
use warg_values::{Memory, Text};

/// The URL at which a registry is reached.
///
/// A clause sees it as the parts of a URL.
#[derive(Debug, Drop)]
pub struct RegistryUrl {
    url: Url,
}

impl Model for RegistryUrl {
    ghost use Rattle.url.specs.Parts.{Parts};

    ghost Value = { Parts };

    ghost view = { λ u. u.url };
}

/// Whether a text names a scheme.
fn names_scheme(text: &str) -> bool
    ensures { IsTrue result ↔ HasSubslice text.now (codes "://") }
{
    text.contains("://")
}

/// A text as a whole URL's: one that names no scheme has `https://` put before it.
fn whole_text(alloc: Global, text: &str) -> Result<String, Memory>
    ensures { IfOk result (λ whole. IsWhole text.now (string_bytes whole)) }
{
    if names_scheme(text) {
        return Ok(String::from_str(alloc, text)?);
    }
    let mut whole = String::from_str(alloc, "https://")?;
    whole.push_str(text)?;
    Ok(whole)
}

/// A URL that was read, or why there is none.
fn parsed(read: Result<Url, ParseError>) -> Result<Url, UrlError>
    ensures ok { IfOk result (λ url. read ≡ Ok url) }
    ensures not_url { (result ≡ Err IsNotUrl) → (e : Fault) × (read ≡ Err e) × (e ≢ IsTooLong) × (e ≢ HasNoMemory) }
    ensures err { IfErr result (λ e. (e ≢ IsNotHttps) × (e ≢ IsInsecure)) }
{
    match read {
        Ok(url) => Ok(url),
        Err(ParseError::OutOfMemory | ParseError::Overflow) => Err(UrlError::Memory),
        Err(_) => Err(UrlError::NotUrl),
    }
}

/// Reads a text as a whole URL's, or as a URL that begins with `https://`.
fn read_url(alloc: Global, text: &str) -> Result<Url, UrlError>
    ensures ok { IfOk result (λ url. ReadsAs text.now (Ok url)) }
    ensures not_url { (result ≡ Err IsNotUrl) → (e : Fault) × ReadsAs text.now (Err e) }
    ensures err { IfErr result (λ e. (e ≢ IsNotHttps) × (e ≢ IsInsecure)) }
{
    let whole = whole_text(alloc, text)?;
    parsed(Url::parse(alloc, &whole))
}

/// Whether the host is this machine.
fn is_local(url: &Url) -> bool
    ensures { IsTrue result ↔ IsLocal (nonempty_host url.now) }
{
    match url.host() {
        Some(Host::Domain(domain)) => domain == "localhost",
        Some(Host::Ipv4(address)) => address.is_loopback(),
        Some(Host::Ipv6(address)) => address.is_loopback(),
        None => false,
    }
}

/// That what is sent there is encrypted, or stays on this machine.
fn check_scheme(url: &Url) -> Result<(), UrlError>
    ensures ok { OnOk result (IsSafe url.now) }
    ensures not_https { (result ≡ Err IsNotHttps) → (url.now.scheme ≢ codes "https") × (url.now.scheme ≢ codes "http") }
    ensures insecure { (result ≡ Err IsInsecure) → (url.now.scheme ≡ codes "http") × ¬ (IsLocal (nonempty_host url.now)) }
    ensures other { IfErr result (λ e. e ≢ IsNotUrl) }
{
    match url.scheme() {
        "https" => Ok(()),
        "http" => {
            if is_local(url) {
                Ok(())
            } else {
                Err(UrlError::Insecure)
            }
        }
        _ => Err(UrlError::NotHttps),
    }
}

/// Makes the path end with a slash.
fn push_slash(alloc: Global, url: &mut Url) -> Result<(), Memory>
    ensures { OnOk result (url.new ≡ with_slash url.old) }
{
    if url.path().ends_with('/') {
        return Ok(());
    }
    let mut path = String::from_str(alloc, url.path())?;
    path.push_str("/")?;
    match url.set_path(&path) {
        Ok(()) => Ok(()),
        Err(_) => Err(Memory),
    }
}

/// Takes the query and the fragment away, and makes the path end with a slash.
fn make_base(alloc: Global, url: &mut Url) -> Result<(), Memory>
    ensures { OnOk result (url.new ≡ base_of url.old) }
{
    if url.set_query(None).is_err() || url.set_fragment(None).is_err() {
        return Err(Memory);
    }
    push_slash(alloc, url)
}

impl RegistryUrl {
    /// The URL of a registry that a text names.
    ///
    /// A text that holds no `://` is read behind `https://`. Query and fragment are taken away, and the path is made to
    /// end with a slash. A text that is no URL (the URL Standard, section 4.4) is `NotUrl`, a scheme other than `https`
    /// and `http` is `NotHttps`, and `http` to a host that is not this machine is `Insecure`.
    pub fn new(alloc: Global, text: &str) -> Result<Self, UrlError>
        ensures ok { IfOk result (λ url.
            (read : Parts) × ReadsAs text.now (Ok read) × IsSafe read × (url ≡ base_of read)) }
        ensures not_url { (result ≡ Err IsNotUrl) → (e : Fault) × ReadsAs text.now (Err e) }
        ensures not_https { (result ≡ Err IsNotHttps) → (read : Parts) × ReadsAs text.now (Ok read)
            × (read.scheme ≢ codes "https") × (read.scheme ≢ codes "http") }
        ensures insecure { (result ≡ Err IsInsecure) → (read : Parts) × ReadsAs text.now (Ok read)
            × (read.scheme ≡ codes "http") × ¬ (IsLocal (nonempty_host read)) }
    {
        let mut url = read_url(alloc, text)?;
        check_scheme(&url)?;
        make_base(alloc, &mut url)?;
        Ok(RegistryUrl { url })
    }

    /// The URL's text.
    pub fn as_str(&self) -> &str
        ensures { result.now ≡ serialize self.now }
    {
        self.url.as_str()
    }

    /// An equal URL of its own.
    pub fn try_clone(&self) -> Result<Self, Memory>
        ensures { IfOk result (λ copy. copy ≡ self.now) }
    {
        Ok(RegistryUrl {
            url: self.url.clone()?,
        })
    }

    /// The text of the URL that a text names with this one as its base (the URL Standard, section 4.4). A text that names
    /// none is `NotUrl`.
    pub fn join(&self, alloc: Global, text: &str) -> Result<Text, UrlError>
        ensures ok { IfOk result (λ joined.
            (read : Parts) × (parse_url (Some self.now) text.now ≡ Ok read) × (joined ≡ serialize read)) }
        ensures not_url { (result ≡ Err IsNotUrl) → (e : Fault) × (parse_url (Some self.now) text.now ≡ Err e) }
        ensures err { IfErr result (λ e. (e ≢ IsNotHttps) × (e ≢ IsInsecure)) }
    {
        let url = parsed(self.url.join(text))?;
        Ok(Text::copy_of(alloc, url.as_str())?)
    }

    /// A label of the URL that holds nothing but ASCII letters, digits, `-`, `.` and `_`.
    ///
    /// It is the host, an IPv6 one as `ipv6_` and its text with dots for colons, then `-` and the port where it is not
    /// the scheme's own, then `_` and the path without the slashes around it where something is left of it.
    pub fn safe_label(&self, alloc: Global) -> Result<Text, Memory>
        ensures { IfOk result (λ text. text ≡ label self.now) }
    {
        let mut text = String::new(alloc);
        push_host(&mut text, self.url.host_str().unwrap_or("").as_bytes())?;
        push_port(alloc, &mut text, self.url.port())?;
        push_path(&mut text, self.url.path().as_bytes())?;
        Ok(Text::new(text))
    }

    /// The label as the name of a registry.
    pub fn registry_domain(&self, alloc: Global) -> Result<RegistryDomain, Memory>
        ensures { IfOk result (λ domain. domain ≡ label self.now) }
    {
        let name = self.safe_label(alloc)?;
        Ok(RegistryDomain::new(name))
    }

    /// The URL.
    pub fn into_url(self) -> Url
        ensures { result ≡ self }
    {
        let RegistryUrl { url } = self;
        url
    }
}

/// URLs are equal where their texts are.
impl PartialEq for RegistryUrl {
    ghost eq = { λ a b. bytes_eq (serialize a) (serialize b) };

    ghost laws = { on_per serialize (partial_equiv_from_equiv nat_list_eq_equiv) };

    fn eq(&self, other: &RegistryUrl) -> bool {
        self.url == other.url
    }
}

impl Eq for RegistryUrl {
    ghost laws = { on_equiv serialize nat_list_eq_equiv };
}

impl fmt::Display for RegistryUrl {
    ghost output = { λ u. Some (serialize u) };

    fn fmt<W: fmt::Write>(&self, f: &mut fmt::Formatter<W>) -> fmt::Result {
        fmt::Display::fmt(&self.as_str(), f)
    }
}
