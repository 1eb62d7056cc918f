//! Paths that are joined with a folder, and paths from one folder to another.

ghost use Rattle.std.specs.Prelude.{◌≡◌, ◌≤◌, ◌++◌, IfOk, OnOk, drop, length};
ghost use Rattle.std.specs.Path.{path_join};
ghost use Rattle.warg_config.specs.Answers.{names_of};
ghost use Rattle.warg_config.specs.Paths.{folder_of as folder_of_path, place_of as place_of_path, relative_to, step, up, way as way_between};

use std::alloc::Global;
use std::path::Path;
use warg_values::{Memory, Text};

/// A path, joined with a folder: one that begins with `/` stays, and an empty folder adds nothing.
pub fn joined(alloc: Global, folder: &str, path: &str) -> Result<Text, Memory>
    ensures { IfOk result (λ whole. whole ≡ path_join folder.now path.now) }
{
    let whole = Path::new(folder).join(alloc, path)?;
    Ok(Text::new(whole.into_string()))
}

/// The folder of a file, which is the empty path where the file's path has none.
pub fn folder_of(path: &str) -> &str
    ensures { result.now ≡ folder_of_path path.now }
{
    match Path::new(path).parent() {
        Some(folder) => folder.as_str(),
        None => "",
    }
}

/// Goes where a component of a path leads.
fn go<'a>(place: &mut Vec<&'a str>, part: &'a str) -> Result<(), Memory>
    ensures { OnOk result (names_of place.new.items ≡ step (names_of place.old.items) part.now) }
{
    if part == ".." {
        place.pop();
        return Ok(());
    }
    if part != "/" && part != "." {
        place.push(part)?;
    }
    Ok(())
}

/// The names of the folders from the root to the place of a path.
#[tactic(auto, unfolding(crate::specs::Paths::place_of))]
fn place_of<'a>(alloc: Global, path: &'a str) -> Result<Vec<&'a str>, Memory>
    ensures { IfOk result (λ place. names_of place.items ≡ place_of_path path.now) }
{
    let mut place = Vec::new(alloc);
    for part in Path::new(path).iter() {
        go(&mut place, part)?;
    }
    Ok(place)
}

/// How many names two places begin with together.
fn shared(from: &[&str], to: &[&str]) -> usize
    ensures way { way_between (names_of from.now) (names_of to.now)
        ≡ up (names_of (drop result from.now)) ++ names_of (drop result to.now) }
    ensures within_from { result ≤ length from.now }
    ensures within_to { result ≤ length to.now }
{
    let mut count = 0;
    while count < from.len() && count < to.len() && from[count] == to[count] {
        count += 1;
    }
    count
}

/// The names that lead from one place to another.
fn way<'a>(alloc: Global, from: &[&str], to: &[&'a str]) -> Result<Vec<&'a str>, Memory>
    ensures { IfOk result (λ names. names_of names.items ≡ way_between (names_of from.now) (names_of to.now)) }
{
    let shared = shared(from, to);
    let mut names: Vec<&'a str> = Vec::new(alloc);
    for turn in 0..from.len() - shared {
        names.push("..")?;
    }
    names.extend_from_slice(&to[shared..])?;
    Ok(names)
}

/// A path as it is written in a file of a folder.
#[tactic(auto, unfolding(crate::specs::Paths::relative_to))]
pub fn relative(alloc: Global, folder: &str, path: &str) -> Result<Text, Memory>
    ensures { IfOk result (λ text. text ≡ relative_to folder.now path.now) }
{
    let whole = joined(alloc, folder, path)?;
    let from = place_of(alloc, folder)?;
    let to = place_of(alloc, whole.as_str())?;
    let names = way(alloc, &from, &to)?;
    Ok(Text::new(names.join(alloc, "/")?))
}
