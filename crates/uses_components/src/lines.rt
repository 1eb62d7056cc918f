//! A caller of `yaml_scan`.

ghost use Rattle.std.specs.Prelude.{◌≡◌, not};
ghost use Rattle.yaml_scan.specs.Lines.{is_passed as passed};

use yaml_scan::is_passed;

/// Whether a line holds more than white space and a comment.
pub fn holds_content(line: &[u8]) -> bool
    ensures { result ≡ not (passed line.now) }
{
    !is_passed(line)
}
