//! The text of a file.
ghost use Rattle.std.specs.Prelude.{◌≡◌, IsNone, MatchOption, SomeIff};
ghost use Rattle.std.specs.Option.{option_copied};
ghost use Rattle.program.specs.Source.{IsSource};

use annotate_snippets::text::text_fits;
use std::str;

/// The text of a file that holds these bytes; `None` where it can't be read, isn't UTF-8 or is too long.
pub fn source_of(file: Option<&[u8]>) -> Option<&str>
    ensures value { MatchOption (option_copied file.entry) (IsNone result)
        (λ bytes. SomeIff (option_copied result) (IsSource bytes) bytes) }
{
    let source = str::from_utf8(file?).ok()?;
    text_fits(source).then_some(source)
}
