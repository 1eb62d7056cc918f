//! Labels of URLs.

ghost use Rattle.std.specs.Prelude.{◌≡◌, ◌++◌, ◌∷◌, ◌<◌, ℕ, List, [], OnOk, IsTrue, Some, None, MatchOption, string_bytes};
ghost use Rattle.std.specs.List.{flat_map};
ghost use Rattle.warg_url.specs.Label.{is_plain as is_plain_byte, hex_digit as hex_digit_of, escaped, host_byte, address_byte, path_byte, host_label, port_label, inner_label, after_slashes as after_slashes_of, before_slashes as before_slashes_of, without_slashes as without_slashes_of};

use std::alloc::{AllocError, Global};

/// An ASCII letter, a digit or a hyphen.
fn is_plain(b: u8) -> bool
    ensures value { result ≡ is_plain_byte b }
    ensures ascii { IsTrue result → b < 128 }
{
    b.is_ascii_alphanumeric() || b == b'-'
}

/// An upper-case hex digit.
fn hex_digit(n: u8) -> u8
    requires { n < 16 }
    ensures value { result ≡ hex_digit_of n }
    ensures ascii { result < 128 }
{
    if n < 10 { b'0' + n } else { 55 + n }
}

/// Writes an ASCII byte.
fn push_byte(out: &mut String, b: u8) -> Result<(), AllocError>
    requires { b < 128 }
    ensures { OnOk result (string_bytes out.new ≡ string_bytes out.old ++ b ∷ []) }
{
    out.push(char::from(b))?;
    Ok(())
}

/// Writes a byte as a dot and two upper-case hex digits.
fn push_escaped(out: &mut String, b: u8) -> Result<(), AllocError>
    ensures { OnOk result (string_bytes out.new ≡ string_bytes out.old ++ escaped b) }
{
    push_byte(out, b'.')?;
    push_byte(out, hex_digit(b / 16))?;
    push_byte(out, hex_digit(b % 16))?;
    Ok(())
}

/// Writes a byte of a host.
fn push_host_byte(out: &mut String, b: u8) -> Result<(), AllocError>
    ensures { OnOk result (string_bytes out.new ≡ string_bytes out.old ++ host_byte b) }
{
    if is_plain(b) || b == b'.' || b == b'_' {
        push_byte(out, b)
    } else {
        push_escaped(out, b)
    }
}

/// Writes a byte of an IPv6 address behind its first bracket.
fn push_address_byte(out: &mut String, b: u8) -> Result<(), AllocError>
    ensures { OnOk result (string_bytes out.new ≡ string_bytes out.old ++ address_byte b) }
{
    match b {
        b':' => push_byte(out, b'.'),
        b']' => Ok(()),
        _ => push_host_byte(out, b),
    }
}

/// Writes a byte of a path.
fn push_path_byte(out: &mut String, b: u8) -> Result<(), AllocError>
    ensures { OnOk result (string_bytes out.new ≡ string_bytes out.old ++ path_byte b) }
{
    if b == b'/' {
        return push_byte(out, b'_');
    }
    if b == b'%' {
        return push_byte(out, b'.');
    }
    if is_plain(b) {
        push_byte(out, b)
    } else {
        push_escaped(out, b)
    }
}

/// Writes the bytes of a host.
fn push_host_bytes(out: &mut String, text: &[u8]) -> Result<(), AllocError>
    ensures { OnOk result (string_bytes out.new ≡ string_bytes out.old ++ flat_map host_byte text.now) }
{
    for b in text {
        push_host_byte(out, *b)?;
    }
    Ok(())
}

/// Writes the bytes of an IPv6 address behind its first bracket.
fn push_address_bytes(out: &mut String, text: &[u8]) -> Result<(), AllocError>
    ensures { OnOk result (string_bytes out.new ≡ string_bytes out.old ++ flat_map address_byte text.now) }
{
    for b in text {
        push_address_byte(out, *b)?;
    }
    Ok(())
}

/// Writes the bytes of a path.
fn push_path_bytes(out: &mut String, path: &[u8]) -> Result<(), AllocError>
    ensures { OnOk result (string_bytes out.new ≡ string_bytes out.old ++ flat_map path_byte path.now) }
{
    for b in path {
        push_path_byte(out, *b)?;
    }
    Ok(())
}

/// Writes the label of a host's text, which is in brackets where it is an IPv6 address.
pub fn push_host(out: &mut String, host: &[u8]) -> Result<(), AllocError>
    ensures { OnOk result (string_bytes out.new ≡ string_bytes out.old ++ host_label host.now) }
{
    match host {
        [b'[', address @ ..] => {
            out.push_str("ipv6_")?;
            push_address_bytes(out, address)
        }
        _ => push_host_bytes(out, host),
    }
}

/// Writes a port, where it is not the scheme's own.
pub fn push_port(alloc: Global, out: &mut String, port: Option<u16>) -> Result<(), AllocError>
    ensures { OnOk result (string_bytes out.new ≡ string_bytes out.old ++ port_label port) }
{
    let Some(port) = port else {
        return Ok(());
    };
    let text = format!(in alloc; "-{port}")?;
    out.push_str(&text)?;
    Ok(())
}

/// What follows the slashes at the start.
#[tactic(auto, unfolding(crate::specs::Label::after_slashes))]
fn after_slashes(path: &[u8]) -> &[u8]
    ensures { result.now ≡ after_slashes_of path.now }
{
    let mut rest = path;
    while let [b'/', inner @ ..] = rest {
        rest = inner;
    }
    rest
}

/// What stands before the slashes at the end.
fn before_slashes(path: &[u8]) -> &[u8]
    ensures { result.now ≡ before_slashes_of path.now }
{
    let mut end = path.len();
    while end > 0 {
        if path[end - 1] != b'/' {
            return &path[..end];
        }
        end -= 1;
    }
    &path[..0]
}

/// Writes what is left of a path without the slashes at its start and at its end.
pub fn push_path(out: &mut String, path: &[u8]) -> Result<(), AllocError>
    ensures { OnOk result (string_bytes out.new ≡ string_bytes out.old ++ inner_label (without_slashes_of path.now)) }
{
    let inner = before_slashes(after_slashes(path));
    if inner.is_empty() {
        return Ok(());
    }
    out.push_str("_")?;
    push_path_bytes(out, inner)
}
