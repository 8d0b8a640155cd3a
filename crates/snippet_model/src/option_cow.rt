//! Optional text: what a label, a path or an own name may be given as.
ghost use Rattle.std.specs.Prelude.{◌≡◌, Some};
ghost use Rattle.std.specs.String.{string_bytes};
ghost use Rattle.std.specs.Cow.{cow_str_bytes};
ghost use Rattle.std.specs.Option.{option_map};
ghost use Rattle.snippet_model.specs.OptionCow.{text_of};

use snippet_text::CowStr;

/// A text that may be left out. It is made by `From`, of a borrowed or owned text or of an `Option` of one:
/// `OptionCow::from("here")`, or `OptionCow(None)` for none.
#[derive(Debug, Drop)]
pub struct OptionCow<'a>(
    /// The text, where there is one.
    pub Option<CowStr<'a>>,
);

impl<'a> From<&'a str> for OptionCow<'a> {
    ghost from_gives = { λ text given. text_of given ≡ Some text.now };

    fn from(text: &'a str) -> OptionCow<'a> {
        OptionCow(Some(CowStr::Borrowed(text)))
    }
}

impl<'a> From<String> for OptionCow<'a> {
    ghost from_gives = { λ text given. text_of given ≡ Some (string_bytes text) };

    fn from(text: String) -> OptionCow<'a> {
        OptionCow(Some(CowStr::Owned(text)))
    }
}

/// The text is borrowed.
impl<'a> From<&'a String> for OptionCow<'a> {
    ghost from_gives = { λ text given. text_of given ≡ Some (string_bytes text.now) };

    fn from(text: &'a String) -> OptionCow<'a> {
        OptionCow(Some(CowStr::Borrowed(text.as_str())))
    }
}

impl<'a> From<CowStr<'a>> for OptionCow<'a> {
    ghost from_gives = { λ text given. text_of given ≡ Some (cow_str_bytes text) };

    fn from(text: CowStr<'a>) -> OptionCow<'a> {
        OptionCow(Some(text))
    }
}

/// The text is borrowed.
impl<'a> From<&'a CowStr<'a>> for OptionCow<'a> {
    ghost from_gives = { λ text given. text_of given ≡ Some (cow_str_bytes text.now) };

    fn from(text: &'a CowStr<'a>) -> OptionCow<'a> {
        OptionCow(Some(CowStr::Borrowed(text.as_str())))
    }
}

impl<'a> From<Option<&'a str>> for OptionCow<'a> {
    ghost from_gives = { λ text given. text_of given ≡ option_map (λ t. t.now) text };

    fn from(text: Option<&'a str>) -> OptionCow<'a> {
        OptionCow(text.map(|text| CowStr::Borrowed(text)))
    }
}

impl<'a> From<Option<String>> for OptionCow<'a> {
    ghost from_gives = { λ text given. text_of given ≡ option_map string_bytes text };

    fn from(text: Option<String>) -> OptionCow<'a> {
        OptionCow(text.map(|text| CowStr::Owned(text)))
    }
}

impl<'a> From<Option<CowStr<'a>>> for OptionCow<'a> {
    ghost from_gives = { λ text given. text_of given ≡ option_map cow_str_bytes text };

    fn from(text: Option<CowStr<'a>>) -> OptionCow<'a> {
        OptionCow(text)
    }
}
