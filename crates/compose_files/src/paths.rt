//! Paths of files.

ghost use Rattle.std.specs.Prelude.{◌≡◌, ◌<◌, true, length, IfOk, IfSome, option_map, option_copied, string_bytes};
ghost use Rattle.compose_files.specs.Paths as spec;

use std::alloc::Global;
use warg_base::{Memory, Text};

/// Whether a path begins with a slash.
fn is_absolute(path: &str) -> bool
    ensures { result ≡ spec.is_absolute path.now }
{
    let bytes = path.as_bytes();
    !bytes.is_empty() && bytes[0] == b'/'
}

/// Whether a slash has to stand between a folder and what lies in it.
fn needs_slash(folder: &str) -> bool
    ensures { result ≡ spec.needs_slash folder.now }
{
    let bytes = folder.as_bytes();
    !bytes.is_empty() && bytes[bytes.len() - 1] != b'/'
}

/// A folder, as it stands in front of what lies in it.
fn in_front(alloc: Global, folder: &str) -> Result<String, Memory>
    ensures { IfOk result (λ text. string_bytes text ≡ spec.in_front folder.now) }
{
    let mut text = String::from_str(alloc, folder)?;
    if !needs_slash(folder) {
        return Ok(text);
    }
    text.push_str("/")?;
    Ok(text)
}

/// A path that is joined with a folder.
pub fn joined(alloc: Global, folder: &str, path: &str) -> Result<Text, Memory>
    ensures { IfOk result (λ t. t ≡ spec.joined folder.now path.now) }
{
    if is_absolute(path) {
        return Text::copy_of(alloc, path);
    }
    let mut text = in_front(alloc, folder)?;
    text.push_str(path)?;
    Ok(Text::new(text))
}

/// The file in which a component is looked for in a folder.
pub fn wasm_in(alloc: Global, name: &str, folder: &str) -> Result<Text, Memory>
    ensures { IfOk result (λ t. t ≡ spec.wasm_in name.now folder.now) }
{
    let mut file = String::from_str(alloc, name)?;
    file.push_str(".wasm")?;
    joined(alloc, folder, file.as_str())
}

/// The text before the last mark, an ASCII character, and the text after it.
fn cut_last(text: &str, mark: char) -> Option<(&str, &str)>
    requires { mark < 128 }
    ensures { option_map (λ cut. (cut.0.now, cut.1.now)) result ≡ spec.cut_last mark text.now }
{
    text.rsplit_once(mark)
}

/// The folder of a file.
pub fn folder(path: &str) -> &str
    ensures { result.now ≡ spec.folder path.now }
{
    let Some((before, _)) = cut_last(path, '/') else {
        return "";
    };
    if before.is_empty() { "/" } else { before }
}

/// Whether a part leads somewhere.
fn leads(part: &str) -> bool
    ensures leads { result ≡ spec.leads part.now }
    ensures named { result ≡ true → 0 < length part.now }
{
    !part.is_empty() && part != "."
}

/// A part, where it leads somewhere.
fn if_leads(part: &str) -> Option<&str>
    ensures part { option_copied result ≡ spec.if_leads part.now }
    ensures named { IfSome result (λ p. 0 < length p.now) }
{
    if leads(part) { Some(part) } else { None }
}

/// The last part of a path that leads somewhere.
fn last_part(path: &str) -> Option<&str>
    ensures last { option_copied result ≡ spec.last_part (spec.parts path.now) }
    ensures named { IfSome result (λ part. 0 < length part.now) }
{
    let mut rest = path;
    loop {
        match cut_last(rest, '/') {
            None => return if_leads(rest),
            Some(cut) => {
                if leads(cut.1) {
                    return Some(cut.1);
                }
                rest = cut.0;
            }
        }
    }
}

/// A part as a file's name, without its ending.
fn without_ending(part: &str) -> &str
    ensures stem { result.now ≡ spec.before_dot part.now (spec.cut_last spec.dot part.now) }
    ensures named { 0 < length part.now → 0 < length result.now }
{
    let Some((before, _)) = cut_last(part, '.') else {
        return part;
    };
    if before.is_empty() { part } else { before }
}

/// The stem of the name of a file, where its path leads to one.
pub fn stem(path: &str) -> Option<&str>
    ensures stem { option_copied result ≡ spec.stem path.now }
    ensures named { IfSome result (λ name. 0 < length name.now) }
{
    let part = last_part(path)?;
    if part == ".." {
        None
    } else {
        Some(without_ending(part))
    }
}
