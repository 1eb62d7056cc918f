//! Plain scalars of one line (YAML 1.2.2, section 7.3.3).

ghost use Rattle.std.specs.Prelude.{◌≡◌, ◌≤◌, false, length};
ghost use Rattle.yaml_scan.specs.Plain as spec;

use crate::bytes::{begins_flow_mark, is_control, is_flow_mark, is_gap, is_white};

/// Whether a byte is one of ``,[]{}#&*!|>'"%@` ``, with which no plain scalar begins.
fn is_indicator(byte: u8) -> bool
    ensures { result ≡ spec.is_indicator byte }
{
    is_flow_mark(byte)
        || byte == b'#'
        || byte == b'&'
        || byte == b'*'
        || byte == b'!'
        || byte == b'|'
        || byte == b'>'
        || byte == b'\''
        || byte == b'"'
        || byte == b'%'
        || byte == b'@'
        || byte == b'`'
}

/// Whether what follows makes a colon, a dash or a question mark in front of it a mark.
fn parts(flow: bool, line: &[u8]) -> bool
    ensures { result ≡ spec.parts flow line.now }
{
    is_gap(line) || (flow && begins_flow_mark(line))
}

/// Whether a plain scalar may begin here, in a flow or not.
pub fn begins_plain(flow: bool, line: &[u8]) -> bool
    ensures { result ≡ spec.begins_plain flow line.now }
{
    match line {
        [] => false,
        [first, rest @ ..] => {
            !(is_white(*first) || is_indicator(*first) || is_control(line))
                && !((*first == b'-' || *first == b'?' || *first == b':') && parts(flow, rest))
        }
    }
}

/// Whether a plain scalar ends before this, which stands behind white space or not.
#[tactic(auto, using(crate::proofs::Letters::letters_go_on))]
fn ends_plain(flow: bool, behind_white: bool, line: &[u8]) -> bool
    ensures { result ≡ spec.ends_plain flow behind_white line.now }
{
    match line {
        [] => true,
        [first, rest @ ..] => {
            // Most bytes are small letters, which end none: one test tells them.
            !(b'a' <= *first && *first <= b'z')
                && ((*first == b'#' && behind_white)
                    || (*first == b':' && parts(flow, rest))
                    || (flow && is_flow_mark(*first))
                    || is_control(line))
        }
    }
}

/// How many bytes of a line the plain scalar has that begins there, without white space at its end.
#[tactic(auto, using(crate::proofs::Loops::plain_lens))]
pub fn plain_len(flow: bool, line: &[u8]) -> usize
    ensures len { result ≡ spec.plain_len flow false line.now }
    ensures within { result ≤ length line.now }
{
    let mut len = 0;
    let mut behind_white = false;
    for at in 0..line.len() {
        if ends_plain(flow, behind_white, &line[at..]) {
            break;
        }
        behind_white = is_white(line[at]);
        len = if behind_white { len } else { at + 1 };
    }
    len
}
