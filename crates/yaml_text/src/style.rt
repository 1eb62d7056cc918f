//! In which way a text is written.

ghost use Rattle.std.specs.Prelude.{◌≡◌};
ghost use Rattle.yaml_text.specs.Texts as spec;

/// Whether a character is written as an escape: U+0000 to 001F, U+007F to 009F, U+2028, U+2029 and U+FEFF.
pub fn is_escaped(character: char) -> bool
    ensures { result ≡ spec.is_escaped character }
{
    matches!(character, '\0'..='\x1f' | '\x7f'..='\u{9f}' | '\u{2028}' | '\u{2029}' | '\u{feff}')
}

/// Whether a text in quotes has double ones: it holds a character that is written as an escape.
#[tactic(auto, unfolding(crate::specs::Texts::is_double))]
pub fn is_double(text: &str) -> bool
    ensures { result ≡ spec.is_double text.now }
{
    text.chars().any(is_escaped)
}

/// Whether a text that is no key is written as a block.
#[tactic(auto, unfolding(crate::specs::Texts::is_block))]
pub fn is_block(text: &str) -> bool
    ensures { result ≡ spec.is_block text.now }
{
    let bytes = text.as_bytes();
    bytes.contains(&b'\n')
        && !has_other_escape(text)
        && begins_with_text(bytes)
        && last_line_holds_text(bytes)
}

/// Whether a text holds a character other than a line feed that is written as an escape.
fn has_other_escape(text: &str) -> bool
    ensures { result ≡ spec.has_other_escape text.now }
{
    text.chars().any(|c| is_escaped(c) && c != '\n')
}

/// Whether a text's first line begins with a character that is no space.
fn begins_with_text(text: &[u8]) -> bool
    ensures { result ≡ spec.begins_with_text text.now }
{
    !matches!(text, [] | [b'\n' | b' ', ..])
}

/// Whether a text's last line holds a character that is no space.
fn last_line_holds_text(text: &[u8]) -> bool
    ensures { result ≡ spec.holds_text (spec.last_line text.now) }
{
    let mut holds = false;
    for byte in text {
        holds = *byte != b'\n' && (holds || *byte != b' ');
    }
    holds
}
