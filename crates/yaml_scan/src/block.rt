//! Block scalars (YAML 1.2.2, section 8.1): what the lines behind a head give.

ghost use Rattle.std.specs.Prelude.{◌≡◌, ◌++◌, ◌≤◌, ◌&&◌, length, option_copied, OnOk};
ghost use Rattle.yaml_scan.specs.Lines as lines;
ghost use Rattle.yaml_scan.specs.Block as spec;
ghost use Rattle.yaml_scan.specs.Gathers as gathers;

use crate::bytes::{is_clean, is_control, is_white, spaces};
use crate::lines::{cut_line, is_dashes, is_dots, is_white_line};
use std::alloc::{AllocError, AllocFailed, Global};

/// The text of a block scalar, and the lines behind the block.
#[derive(Debug, Drop)]
pub struct Block<'a> {
    /// The text, in bytes.
    pub text: Vec<u8>,
    /// The text of the lines behind it, where there are any.
    pub later: Option<&'a [u8]>,
}

/// Why there is no block scalar.
#[derive(Clone, Copy, Debug, PartialEq, Eq)]
pub enum BlockError {
    /// A control character; the number says how many bytes of the text are left there.
    Bad(usize),
    /// No memory was left.
    Memory,
}

impl From<AllocError> for BlockError {
    ghost use Rattle.yaml_scan.specs.declared.block.BlockError.TheVariants.{Memory};

    ghost from_gives = { λ _ e. e ≡ Memory };

    fn from(_error: AllocError) -> BlockError {
        BlockError::Memory
    }
}

impl<T: Drop> From<AllocFailed<T>> for BlockError {
    ghost use Rattle.yaml_scan.specs.declared.block.BlockError.TheVariants.{Memory};

    ghost from_gives = { λ _ e. e ≡ Memory };

    fn from(_error: AllocFailed<T>) -> BlockError {
        BlockError::Memory
    }
}

/// How a block scalar's head says that its lines are put together.
#[derive(Clone, Copy, Debug)]
pub struct Head {
    /// `>`: lines that do not begin with white space are joined by spaces.
    pub folded: bool,
    /// `-`: no line feed stands at the end.
    pub strip: bool,
}

/// The indentation of a block scalar: that of the first line that is not of white space; None where that line is
/// not deeper than the parent, or is a mark, or there is none.
pub fn block_indent(parent: Option<usize>, later: Option<&[u8]>) -> Option<usize>
    ensures { result ≡ spec.indent_of parent (lines.lines_behind (option_copied later.entry)) }
{
    let mut rest = later;
    while let Some(text) = rest {
        let (line, behind) = cut_line(text);
        if !is_white_line(line) {
            let indent = spaces(line);
            let holds = is_deeper(parent, indent) && !is_document_mark(line);
            return if holds { Some(indent) } else { None };
        }
        rest = behind;
    }
    None
}

/// Whether a column is deeper than the parent's; what has no parent is deeper than all.
pub fn is_deeper(parent: Option<usize>, col: usize) -> bool
    ensures { result ≡ spec.is_deeper parent col }
{
    match parent {
        None => true,
        Some(parent) => parent < col,
    }
}

/// Whether a line is a mark of a document's start or end.
pub fn is_document_mark(line: &[u8]) -> bool
    ensures { result ≡ spec.is_document_mark line.now }
{
    is_dashes(line) || is_dots(line)
}

/// Whether a block goes on with a line.
fn is_inside(indent: usize, line: &[u8]) -> bool
    ensures { result ≡ spec.is_inside indent line.now }
{
    is_white_line(line) || (indent <= spaces(line) && !is_document_mark(line))
}

/// What a line gives.
fn content(indent: usize, line: &[u8]) -> &[u8]
    ensures text { result.now ≡ spec.content indent line.now }
    ensures within { length result.now ≤ length line.now }
{
    if indent <= spaces(line) {
        &line[indent..]
    } else {
        &[]
    }
}

/// Whether a line is joined to its neighbours.
fn is_joined(folded: bool, line: &[u8]) -> bool
    ensures { result ≡ spec.is_joined folded line.now }
{
    match line {
        [] => false,
        [first, ..] => folded && !is_white(*first),
    }
}

/// Adds what stands between two lines with so many line ends between them.
fn push_between(
    text: &mut Vec<u8>,
    joined: bool,
    joins: bool,
    ends: usize,
) -> Result<(), AllocError>
    ensures { OnOk result (text.new.items ≡ text.old.items ++ spec.between (joined && joins) ends) }
{
    if !(joined && joins) {
        push_feeds(text, ends)?;
    } else if ends == 1 {
        text.push(b' ')?;
    } else {
        push_feeds(text, ends.saturating_sub(1))?;
    }
    Ok(())
}

/// Adds so many line feeds.
fn push_feeds(text: &mut Vec<u8>, count: usize) -> Result<(), AllocError>
    ensures { OnOk result (text.new.items ≡ text.old.items ++ spec.feeds count) }
{
    for done in 0..count {
        text.push(b'\n')?;
    }
    Ok(())
}

/// How many bytes of a text are left where its first control character stands.
fn left_at_control(line: &[u8], left: usize) -> usize {
    for at in 0..line.len() {
        if is_control(&line[at..]) {
            return left.saturating_sub(at);
        }
    }
    left
}

/// The block scalar of this indentation. An `Err` that is not want of memory says where a control character
/// stands in its lines.
pub fn block_scalar(
    alloc: Global,
    head: Head,
    indent: usize,
    later: Option<&[u8]>,
) -> Result<Block<'_>, BlockError>
    ensures { gathers.Gathers result head.folded head.strip indent (lines.lines_behind (option_copied later.entry)) }
{
    let Block { mut text, later } = joined_lines(alloc, head.folded, indent, later)?;
    if !head.strip && !text.is_empty() {
        text.push(b'\n')?;
    }
    Ok(Block { text, later })
}

/// The lines of a block put together, without a line feed at the end.
fn joined_lines(
    alloc: Global,
    folded: bool,
    indent: usize,
    later: Option<&[u8]>,
) -> Result<Block<'_>, BlockError>
    ensures { gathers.Joins result folded indent (lines.lines_behind (option_copied later.entry)) }
{
    let mut text = Vec::new(alloc);
    let mut joined = false;
    let mut ends = 0;
    let mut rest = later;
    while let Some(left) = rest {
        let (line, behind) = cut_line(left);
        if !is_inside(indent, line) {
            break;
        }
        if !is_clean(line) {
            return Err(BlockError::Bad(left_at_control(line, left.len())));
        }
        let piece = content(indent, line);
        if piece.is_empty() {
            ends = if behind.is_some() { ends + 1 } else { ends };
        } else {
            let joins = is_joined(folded, piece);
            push_between(&mut text, joined, joins, ends)?;
            text.extend_from_slice(piece)?;
            joined = joins;
            ends = 1;
        }
        rest = behind;
    }
    Ok(Block { text, later: rest })
}
