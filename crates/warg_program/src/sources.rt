//! The files that `assemble` reads.

ghost use Rattle.std.specs.Prelude.{◌≡◌, ◌≤◌, IfOk, IfErr, string_bytes};
ghost use Rattle.warg_program.specs.World.{HasFile, seen_files};
ghost use Rattle.warg_program.specs.Assembly.{HasChecked, HasReplies, HasText, IsReadCause, IsSourceCause};
ghost use Rattle.warg_program.specs.declared.stop.Form.TheVariants as form;

use crate::stop::{Access, Form, Stop};
use std::alloc::Global;
use warg_base::{FileError, Files};
use warg_exchange::Reply;
use warg_log::ListedVerifier;
use warg_recorded::{FormError, read_checked, read_replies};

/// The bytes of a file that the words name.
fn read<'a, F: Files>(alloc: Global, files: &mut F, path: &'a str) -> Result<Vec<u8>, Stop<'a>>
    ensures never_falls { F.faults files.old ≤ F.faults files.new }
    ensures kept { F.told files.new ≡ F.told files.old }
    ensures found { IfOk result (λ bytes.
        HasFile (seen_files (F.told files.old) (F.faults files.old)) path.now bytes.items) }
    ensures cause { IfErr result (λ stop. IsReadCause stop path.now
        (seen_files (F.told files.old) (F.faults files.old)) (seen_files (F.told files.new) (F.faults files.new))) }
{
    match files.read(alloc, path) {
        Ok(bytes) => Ok(bytes),
        Err(FileError::Missing) => Err(Stop::Missing { path }),
        Err(FileError::Failed) => Err(Stop::Fault(Access::Read(path))),
        Err(FileError::Memory) => Err(Stop::Memory),
    }
}

/// The text of the plan.
pub fn read_plan<'a, F: Files>(
    alloc: Global,
    files: &mut F,
    path: &'a str,
) -> Result<String, Stop<'a>>
    ensures never_falls { F.faults files.old ≤ F.faults files.new }
    ensures kept { F.told files.new ≡ F.told files.old }
    ensures found { IfOk result (λ text.
        HasText (seen_files (F.told files.old) (F.faults files.old)) path.now (string_bytes text)) }
    ensures cause { IfErr result (λ stop. IsSourceCause stop path.now form.Text
        (seen_files (F.told files.old) (F.faults files.old)) (seen_files (F.told files.new) (F.faults files.new))) }
{
    let bytes = read(alloc, files, path)?;
    match String::from_utf8(bytes) {
        Ok(text) => Ok(text),
        Err(_) => Err(Stop::Bad {
            path,
            form: Form::Text,
        }),
    }
}

/// The replies that were recorded.
pub fn recorded<'a, F: Files>(
    alloc: Global,
    files: &mut F,
    path: &'a str,
) -> Result<Vec<Reply>, Stop<'a>>
    ensures never_falls { F.faults files.old ≤ F.faults files.new }
    ensures kept { F.told files.new ≡ F.told files.old }
    ensures found { IfOk result (λ replies.
        HasReplies (seen_files (F.told files.old) (F.faults files.old)) path.now replies.items) }
    ensures cause { IfErr result (λ stop. IsSourceCause stop path.now form.Replies
        (seen_files (F.told files.old) (F.faults files.old)) (seen_files (F.told files.new) (F.faults files.new))) }
{
    let bytes = read(alloc, files, path)?;
    match read_replies(alloc, &bytes) {
        Ok(replies) => Ok(replies),
        Err(FormError::Form) => Err(Stop::Bad {
            path,
            form: Form::Replies,
        }),
        Err(FormError::Memory) => Err(Stop::Memory),
    }
}

/// The signatures that were checked.
pub fn checked<'a, F: Files>(
    alloc: Global,
    files: &mut F,
    path: &'a str,
) -> Result<ListedVerifier, Stop<'a>>
    ensures never_falls { F.faults files.old ≤ F.faults files.new }
    ensures kept { F.told files.new ≡ F.told files.old }
    ensures found { IfOk result (λ listed.
        HasChecked (seen_files (F.told files.old) (F.faults files.old)) path.now listed) }
    ensures cause { IfErr result (λ stop. IsSourceCause stop path.now form.Signatures
        (seen_files (F.told files.old) (F.faults files.old)) (seen_files (F.told files.new) (F.faults files.new))) }
{
    let bytes = read(alloc, files, path)?;
    match read_checked(alloc, &bytes) {
        Ok(verifier) => Ok(verifier),
        Err(FormError::Form) => Err(Stop::Bad {
            path,
            form: Form::Signatures,
        }),
        Err(FormError::Memory) => Err(Stop::Memory),
    }
}
