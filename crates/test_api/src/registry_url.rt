//! URLs of registries, and their labels as the Rust crate `warg-client` gives them.

use std::alloc::Global;
use std::test::Fail;
use warg_url::{HeaderError, RegistryDomain, RegistryUrl, UrlError};
use warg_values::Text;

/// Texts, with the text of the URL that each names.
const URLS: [(&str, &str); 8] = [
    ("bare-host", "https://bare-host/"),
    ("https://host/path?query#fragment", "https://host/path/"),
    ("https://host/path/", "https://host/path/"),
    ("HTTPS://Host:443", "https://host/"),
    ("http://localhost:8090", "http://localhost:8090/"),
    ("http://127.0.0.1", "http://127.0.0.1/"),
    ("http://[::1]:8090", "http://[::1]:8090/"),
    ("host:1234", "https://host:1234/"),
];

/// Texts, with the label of the URL that each names.
const LABELS: [(&str, &str); 7] = [
    ("host", "host"),
    ("https://[abcd::1234]:5678", "ipv6_abcd..1234-5678"),
    ("port:1234/with/path", "port-1234_with_path"),
    ("syms/splat*dot.lowdash_", "syms_splat.2Adot.2Elowdash.5F"),
    ("https://example.com/~a", "example.com_.7Ea"),
    ("https://example.com//a%20b//", "example.com_a.20b"),
    ("http://127.0.0.1:80", "127.0.0.1"),
];

/// Texts that are refused, with why.
const REFUSED: [(&str, UrlError); 6] = [
    ("invalid:url", UrlError::NotUrl),
    ("", UrlError::NotUrl),
    ("https://", UrlError::NotUrl),
    ("bad://scheme", UrlError::NotHttps),
    ("http://insecure-domain", UrlError::Insecure),
    ("http://128.0.0.1", UrlError::Insecure),
];

/// The text and the label of the URL that a text names, as they are written in each way.
fn read(alloc: Global, text: &str) -> Result<(String, Text), Fail> {
    let url = RegistryUrl::new(alloc, text)?;
    let shown = format!(in alloc; "{url}")?;
    let domain = url.registry_domain(alloc)?;
    let label = url.safe_label(alloc)?;
    if label.as_str() != domain.as_str() || url.as_str() != shown.as_str() {
        return Err(Fail::from("two writings differ"));
    }
    let kept = String::from_str(alloc, url.into_url().as_str())?;
    Ok((kept, label))
}

#[test]
fn urls_are_kept_with_a_slash(rt: HostRuntime) -> Result<(), Fail> {
    for (text, expected) in URLS {
        let found = read(rt.alloc(), text)?;
        assert_eq!(rt; found.0.as_str(), expected);
    }
    Ok(())
}

#[test]
fn labels_are_those_of_the_rust_crate(rt: HostRuntime) -> Result<(), Fail> {
    for (text, expected) in LABELS {
        let found = read(rt.alloc(), text)?;
        assert_eq!(rt; found.1.as_str(), expected);
    }
    Ok(())
}

/// Whether a text is refused for this reason.
fn is_refused(alloc: Global, text: &str, why: UrlError) -> bool {
    match RegistryUrl::new(alloc, text) {
        Ok(_) => false,
        Err(error) => error == why,
    }
}

#[test]
fn other_urls_are_refused(rt: HostRuntime) -> Result<(), Fail> {
    for (text, why) in REFUSED {
        assert!(rt; is_refused(rt.alloc(), text, why), "{text}");
    }
    Ok(())
}

/// The value of a header that names a registry.
fn sent(alloc: Global, name: &str) -> Result<Result<String, HeaderError>, Fail> {
    let domain = RegistryDomain::new(Text::copy_of(alloc, name)?);
    let copy = domain.try_clone(alloc)?;
    match copy.header_value(alloc) {
        Ok(value) => Ok(Ok(String::from_str(alloc, value.to_str()?)?)),
        Err(error) => Ok(Err(error)),
    }
}

#[test]
fn names_of_registries_are_sent_in_headers(rt: HostRuntime) -> Result<(), Fail> {
    assert!(rt;
        matches!(sent(rt.alloc(), "other.test")?, Ok(text) if text.as_str() == "other.test")
    );
    assert!(rt;
        matches!(
            sent(rt.alloc(), "other\ntest")?,
            Err(HeaderError::BadHeader)
        )
    );
    Ok(())
}
