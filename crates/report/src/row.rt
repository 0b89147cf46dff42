ghost use Rattle.std.specs.Prelude.{◌≡◌, ℕ, List, Option};
ghost use Rattle.report.specs.Lines.{line_text};

use super::line::Line;

/// What is printed as a line of fields.
pub trait Row {
    // a number or none, from the left
    ghost fields: { Self → List (Option ℕ) };

    fn line(&self) -> Line
        ensures { result.bytes ≡ line_text (fields self.now) };
}
