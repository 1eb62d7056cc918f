//! Why a run ends without its result.

ghost use Rattle.std.specs.Prelude.{◌≡◌};
ghost use Rattle.warg_program.specs.Stop.{status_of};

use comp_shape::ShapeError;
use std::fmt;
use warg_base::FileError;
use warg_recorded::FormError;
use warg_replay::ClientError;
use wasm_compose::Why;
use wasm_compose::composer::{ComposerError, ConfigRefusal};

/// What was asked of the outside when it failed.
#[derive(Clone, Copy, Debug)]
pub enum Access<'a> {
    /// The file at this path was read.
    Read(&'a str),
    /// The file at this path was written.
    Written(&'a str),
    /// A line was printed to the output.
    Printed,
}

/// What a file is to be.
#[derive(Clone, Copy, Debug, PartialEq, Eq)]
pub enum Form {
    /// A text in UTF-8: the plan.
    Text,
    /// Replies of registries, as they were recorded.
    Replies,
    /// Signatures that were checked.
    Signatures,
}

/// Why nothing was done, or not all.
///
/// Its `Display` is for people: the file, the cause, and what to do.
#[derive(Debug, Drop)]
pub enum Stop<'a> {
    /// The words are no command: status 2.
    Usage,
    /// There is no file at this path, which the words name: status 3.
    Missing {
        path: &'a str,
    },
    /// Files or the output failed: status 4.
    Fault(Access<'a>),
    /// The file at this path has not this form: status 5.
    Bad {
        path: &'a str,
        form: Form,
    },
    /// The file at this path is no component that is carried: status 6.
    BadComponent {
        path: &'a str,
        error: ShapeError,
    },
    /// What the component at this path imports and exports does not go together: status 6.
    Incompatible {
        path: &'a str,
        why: Why,
    },
    /// This length, count or index of what was to be written to this path is above 2^32 - 1: status 6.
    TooLarge {
        path: &'a str,
        number: u64,
    },
    /// The file at this path holds no configuration: status 6.
    BadConfig {
        path: &'a str,
        refusal: ConfigRefusal,
    },
    /// The component is not composed: status 6.
    NotComposed(ComposerError),
    /// A file that a composition asks for could not be read or looked for: status 4.
    Unread(ComposerError),
    /// The plan is not assembled: status 6.
    Refused(ClientError),
    /// No memory was left: status 7.
    Memory,
}

impl Stop<'_> {
    /// The exit status of the program.
    pub fn status(&self) -> u8
        ensures { result ≡ status_of self.now }
    {
        match self {
            Stop::Usage => 2,
            Stop::Missing { .. } => 3,
            Stop::Fault(_) => 4,
            Stop::Bad { .. } => 5,
            Stop::BadComponent { .. } => 6,
            Stop::Incompatible { .. } => 6,
            Stop::TooLarge { .. } => 6,
            Stop::BadConfig { .. } => 6,
            Stop::NotComposed(_) => 6,
            Stop::Unread(_) => 4,
            Stop::Refused(_) => 6,
            Stop::Memory => 7,
        }
    }
}

impl fmt::Display for Access<'_> {
    fn fmt<W: fmt::Write>(&self, f: &mut fmt::Formatter<W>) -> fmt::Result {
        match self {
            Access::Read(path) => {
                write!(
                    f,
                    "{path}: the file could not be read: check that it is a file, and its permissions"
                )
            }
            Access::Written(path) => write!(
                f,
                "{path}: the file could not be written: check its folder, its permissions and the disk"
            ),
            Access::Printed => {
                write!(
                    f,
                    "standard output: the line could not be printed: check where it goes"
                )
            }
        }
    }
}

impl fmt::Display for Form {
    fn fmt<W: fmt::Write>(&self, f: &mut fmt::Formatter<W>) -> fmt::Result {
        match self {
            Form::Text => write!(f, "the plan is no UTF-8 text: save it as one"),
            Form::Replies => write!(f, "no recorded replies: {}", FormError::Form),
            Form::Signatures => write!(f, "no checked signatures: {}", FormError::Form),
        }
    }
}

impl fmt::Display for Stop<'_> {
    fn fmt<W: fmt::Write>(&self, f: &mut fmt::Formatter<W>) -> fmt::Result {
        match self {
            Stop::Usage => write!(
                f,
                "these words are no command: write `warg link ROOT OUT`, `warg compose ROOT CONFIG OUT`, `warg assemble PLAN REPLIES CHECKED OUT`, or `warg demo SEED COUNT` with a COUNT from 1 to 200"
            ),
            Stop::Missing { path } => write!(f, "{path}: {}", FileError::Missing),
            Stop::Fault(access) => write!(f, "{access}"),
            Stop::Bad { path, form } => write!(f, "{path}: {form}"),
            Stop::BadComponent { path, error } => write!(f, "{path}: {error}"),
            Stop::Incompatible { path, why } => write!(f, "{path}: {why}"),
            Stop::TooLarge { path, number } => write!(
                f,
                "{path}: {number} is more than a component can count: make the component smaller"
            ),
            Stop::BadConfig { path, refusal } => write!(f, "{path}: {refusal}"),
            Stop::NotComposed(error) => write!(f, "{error}"),
            Stop::Unread(error) => write!(f, "{error}"),
            Stop::Refused(error) => write!(f, "{error}"),
            Stop::Memory => write!(
                f,
                "out of memory: free some, or give the program more; over 200 scopes or 1000 types in each other end so"
            ),
        }
    }
}
