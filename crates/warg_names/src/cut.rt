//! Cuts of texts: behind a front, at a byte, before an end.

ghost use Rattle.std.specs.Prelude.{◌≡◌, ◌<◌, option_map, option_copied};
ghost use Rattle.warg_names.specs.Cut.{behind, cut_first, cut_last, closed_by, ended_by};

/// What stands behind a front, where the text begins with it.
pub fn behind<'a>(front: &str, text: &'a str) -> Option<&'a str>
    ensures { option_copied result ≡ behind front.now text.now }
{
    text.strip_prefix(front)
}

/// The text before the first mark, an ASCII character, and the text after it.
pub fn cut_first(text: &str, mark: char) -> Option<(&str, &str)>
    requires { mark < 128 }
    ensures { option_map (λ cut. (cut.0.now, cut.1.now)) result ≡ cut_first mark text.now }
{
    text.split_once(mark)
}

/// The text before the last mark, an ASCII character, and the text after it.
pub fn cut_last(text: &str, mark: char) -> Option<(&str, &str)>
    requires { mark < 128 }
    ensures { option_map (λ cut. (cut.0.now, cut.1.now)) result ≡ cut_last mark text.now }
{
    text.rsplit_once(mark)
}

/// The text before a mark, an ASCII character, where the mark ends it.
#[tactic(auto, unfolding(crate::specs::Cut::closed_by))]
pub fn closed_by(text: &str, mark: char) -> Option<&str>
    requires { mark < 128 }
    ensures { option_copied result ≡ closed_by mark text.now }
{
    let (before, after) = cut_last(text, mark)?;
    if after.is_empty() { Some(before) } else { None }
}

/// The text before a mark, an ASCII character, where the mark ends it and stands nowhere else in it.
#[tactic(auto, unfolding(crate::specs::Cut::ended_by))]
pub fn ended_by(text: &str, mark: char) -> Option<&str>
    requires { mark < 128 }
    ensures { option_copied result ≡ ended_by mark text.now }
{
    let (before, after) = cut_first(text, mark)?;
    if after.is_empty() { Some(before) } else { None }
}
