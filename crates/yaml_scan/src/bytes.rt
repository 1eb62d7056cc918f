//! Classes of bytes (YAML 1.2.2, chapter 5).

ghost use Rattle.std.specs.Prelude.{◌≡◌, ◌≤◌, ◌∷◌, length};
ghost use Rattle.yaml_scan.specs.Bytes as spec;

/// Whether a byte is a space or a tab.
pub fn is_white(byte: u8) -> bool
    ensures { result ≡ spec.is_white byte }
{
    byte == b' ' || byte == b'\t'
}

/// Whether a byte is one of `,[]{}`.
pub fn is_flow_mark(byte: u8) -> bool
    ensures { result ≡ spec.is_flow_mark byte }
{
    byte == b',' || byte == b'[' || byte == b']' || byte == b'{' || byte == b'}'
}

/// Whether what stands before this can be a mark: a space follows, or the line ends.
pub fn is_gap(line: &[u8]) -> bool
    ensures { result ≡ spec.is_gap line.now }
{
    match line {
        [] => true,
        [byte, ..] => *byte == b' ',
    }
}

/// Whether the rest of a line begins with one of `,[]{}`.
pub fn begins_flow_mark(line: &[u8]) -> bool
    ensures { result ≡ spec.begins_flow_mark line.now }
{
    match line {
        [] => false,
        [byte, ..] => is_flow_mark(*byte),
    }
}

/// Whether a control character begins here: U+0000 to U+001F but the tab, U+007F, or U+0080 to U+009F.
pub fn is_control(line: &[u8]) -> bool
    ensures { result ≡ spec.is_control line.now }
{
    match line {
        [] => false,
        [first, behind @ ..] => is_control_at(*first, behind),
    }
}

/// The same of a byte and the bytes behind it.
pub fn is_control_at(first: u8, behind: &[u8]) -> bool
    ensures { result ≡ spec.is_control (first ∷ behind.now) }
{
    match behind {
        [] => is_control_byte(first),
        [second, ..] => is_control_byte(first) || (first == 0xc2 && *second < 0xa0),
    }
}

/// Whether a document mark in front of this is one: the line ends, or white space or a control character follows.
pub fn ends_mark(line: &[u8]) -> bool
    ensures { result ≡ spec.ends_mark line.now }
{
    match line {
        [] => true,
        [first, ..] => is_white(*first) || is_control(line),
    }
}

/// Whether a byte is a control character of ASCII other than the tab.
fn is_control_byte(byte: u8) -> bool
    ensures { result ≡ spec.is_control_byte byte }
{
    (byte < 32 && byte != b'\t') || byte == 127
}

/// Whether no control character stands in a line.
#[tactic(auto, using(crate::proofs::Loops::clean_lines))]
pub fn is_clean(line: &[u8]) -> bool
    ensures { result ≡ spec.is_clean line.now }
{
    for at in 0..line.len() {
        if is_control(&line[at..]) {
            return false;
        }
    }
    true
}

/// How many spaces a line begins with.
pub fn spaces(line: &[u8]) -> usize
    ensures count { result ≡ spec.spaces line.now }
    ensures within { result ≤ length line.now }
{
    line.iter().take_while(|byte| **byte == b' ').count()
}

/// How many bytes of white space, spaces and tabs, a line begins with.
pub fn whites(line: &[u8]) -> usize
    ensures count { result ≡ spec.whites line.now }
    ensures within { result ≤ length line.now }
{
    line.iter().take_while(|byte| is_white(**byte)).count()
}
