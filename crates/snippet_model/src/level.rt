//! The level of a title or message: how severe it is, and the name that is shown for it.
ghost use Rattle.std.specs.Prelude.{◌≡◌, ◌↔◌, IsTrue, true, false, Option, None, refl};
ghost use Rattle.std.specs.Option.{option_map_or};
ghost use Rattle.snippet_model.specs.StandardName.{standard_name_of};
ghost use Rattle.snippet_model.specs.declared.level.LevelName.TheVariants.{Standard};
ghost use Rattle.std.specs.declared.borrow.CowStr.TheVariants.{Borrowed};
ghost use Rattle.std.proofs.Common.{rules};
ghost use Rattle.std.specs.Cmp.{partial_order_from_agreeing_total};
ghost use Rattle.std.specs.Cmp.Rules.{comparing};
ghost use Rattle.std.specs.Ordering.{as_partial_cmp};
ghost use Rattle.snippet_model.specs.LevelOrder.{level_cmp, name_cmp, name_rank, own_bytes};
ghost use Rattle.snippet_model.specs.LevelTies.{level_ties, name_ties};

use crate::option_cow::OptionCow;
use crate::snippet::{Message, Title};
use snippet_style::LevelInner;
use snippet_text::CowStr;
use std::cmp::Ordering;

/// An error, in the way of what was asked for.
pub const ERROR: Level<'static> = Level {
    name: LevelName::Standard,
    kind: LevelInner::Error,
};

/// Something that is likely wrong and doesn't stop the work.
pub const WARNING: Level<'static> = Level {
    name: LevelName::Standard,
    kind: LevelInner::Warning,
};

/// Something worth knowing.
pub const INFO: Level<'static> = Level {
    name: LevelName::Standard,
    kind: LevelInner::Info,
};

/// More on a message that stands before.
pub const NOTE: Level<'static> = Level {
    name: LevelName::Standard,
    kind: LevelInner::Note,
};

/// What could be done about a message that stands before.
pub const HELP: Level<'static> = Level {
    name: LevelName::Standard,
    kind: LevelInner::Help,
};

/// The name that a level is shown by.
///
/// Names are ordered as they are listed here, own ones by their text.
#[derive(Clone, Debug, PartialEq, Eq, Drop)]
pub enum LevelName<'a> {
    /// The name of the kind, as `error`.
    Standard,
    /// No name at all.
    Hidden,
    /// A name of the caller's.
    Own(CowStr<'a>),
}

/// How severe a title or message is.
///
/// Levels are ordered by name, and then by kind.
#[derive(Clone, Debug, PartialEq, Eq, Drop)]
pub struct Level<'a> {
    /// What is shown for the level.
    pub name: LevelName<'a>,
    /// The kind, which chooses the style.
    pub kind: LevelInner,
}

impl LevelName<'_> {
    /// The place of the name's kind in the order of names.
    fn rank(&self) -> u8
        ensures value { result ≡ name_rank self.now }
    {
        match self {
            LevelName::Standard => 0,
            LevelName::Hidden => 1,
            LevelName::Own(_) => 2,
        }
    }

    /// The caller's name; the empty text where it is none of the caller's.
    fn own(&self) -> &str
        ensures value { result.now ≡ own_bytes self.now }
    {
        match self {
            LevelName::Own(name) => name.as_str(),
            LevelName::Standard | LevelName::Hidden => "",
        }
    }
}

impl Ord for LevelName<'_> {
    ghost cmp = { name_cmp };

    ghost total = { Prim.search (comparing, rules) };

    ghost matches_partial_cmp = { Prim.search (comparing, rules) };

    ghost matches_eq = { name_ties };

    fn cmp(&self, other: &Self) -> Ordering {
        self.rank()
            .cmp(&other.rank())
            .then(self.own().cmp(other.own()))
    }
}

impl PartialOrd for LevelName<'_> {
    ghost partial_cmp = { as_partial_cmp name_cmp };

    ghost laws = { partial_order_from_agreeing_total name_cmp (Prim.search (comparing, rules)) (λ x y.
        refl) name_ties };

    fn partial_cmp(&self, other: &Self) -> Option<Ordering> {
        Some(self.cmp(other))
    }
}

impl Ord for Level<'_> {
    ghost cmp = { level_cmp };

    ghost total = { Prim.search (comparing, rules) };

    ghost matches_partial_cmp = { Prim.search (comparing, rules) };

    ghost matches_eq = { level_ties };

    fn cmp(&self, other: &Self) -> Ordering {
        self.name.cmp(&other.name).then(self.kind.cmp(&other.kind))
    }
}

impl PartialOrd for Level<'_> {
    ghost partial_cmp = { as_partial_cmp level_cmp };

    ghost laws = { partial_order_from_agreeing_total level_cmp (Prim.search (comparing, rules)) (λ x y.
        refl) level_ties };

    fn partial_cmp(&self, other: &Self) -> Option<Ordering> {
        Some(self.cmp(other))
    }
}

/// The name of a kind of level, as it is shown where the caller sets no other.
fn standard_name(kind: LevelInner) -> &'static str
    ensures value { result.now ≡ standard_name_of kind }
{
    match kind {
        LevelInner::Error => "error",
        LevelInner::Warning => "warning",
        LevelInner::Info => "info",
        LevelInner::Note => "note",
        LevelInner::Help => "help",
    }
}

/// Proves, and does nothing else, that each constant of this module, and each constant of [`Level`], is the level of
/// the kind that its name says, shown by the name of the kind. A clause can't name constants of a type that may own
/// text, so this stands in place of one.
fn prove_constants() {
    prove!(is_standard(&ERROR, LevelInner::Error));
    prove!(is_standard(&WARNING, LevelInner::Warning));
    prove!(is_standard(&INFO, LevelInner::Info));
    prove!(is_standard(&NOTE, LevelInner::Note));
    prove!(is_standard(&HELP, LevelInner::Help));
    prove!(is_standard(&Level::ERROR, LevelInner::Error));
    prove!(is_standard(&Level::WARNING, LevelInner::Warning));
    prove!(is_standard(&Level::INFO, LevelInner::Info));
    prove!(is_standard(&Level::NOTE, LevelInner::Note));
    prove!(is_standard(&Level::HELP, LevelInner::Help));
}

/// Whether a level is of this kind and shown by its standard name.
fn is_standard(level: &Level<'_>, kind: LevelInner) -> bool
    ensures value { IsTrue result ↔ (level.now ≡ record { name = Standard; kind = kind }) }
{
    matches!(&level.name, LevelName::Standard) && level.kind == kind
}

impl<'a> Level<'a> {
    ghost use Rattle.snippet_model.specs.Level.{name_of};
    ghost use Rattle.snippet_model.specs.declared.level.LevelName.TheVariants.{Standard, Hidden, Own};

    /// The constant [`ERROR`].
    pub const ERROR: Level<'static> = ERROR;
    /// The constant [`WARNING`].
    pub const WARNING: Level<'static> = WARNING;
    /// The constant [`INFO`].
    pub const INFO: Level<'static> = INFO;
    /// The constant [`NOTE`].
    pub const NOTE: Level<'static> = NOTE;
    /// The constant [`HELP`].
    pub const HELP: Level<'static> = HELP;

    /// The level of this kind, shown by the name of the kind: one of the five constants.
    pub fn standard(kind: LevelInner) -> Level<'static>
        ensures level { result ≡ record { name = Standard; kind = kind } }
    {
        prove_constants();
        match kind {
            LevelInner::Error => Level::ERROR,
            LevelInner::Warning => Level::WARNING,
            LevelInner::Info => Level::INFO,
            LevelInner::Note => Level::NOTE,
            LevelInner::Help => Level::HELP,
        }
    }

    /// The name that is shown: that of the kind, an own one, or the empty text where it is hidden.
    pub fn as_str(&self) -> &str
        ensures value { result.now ≡ name_of self.now }
    {
        match &self.name {
            LevelName::Own(name) => name.as_str(),
            LevelName::Hidden => "",
            LevelName::Standard => standard_name(self.kind),
        }
    }

    /// The level, shown by this name; given none, it is shown without a name, as [`no_name`](Level::no_name) makes it.
    /// The kind, and with it the style, stays. The name isn't trusted: it is normalised where it is drawn.
    ///
    /// ```text
    /// ERROR.primary_title("e")                                             error: e
    /// ERROR.with_name(OptionCow::from("failure")).primary_title("e")       failure: e
    /// ERROR.no_name().primary_title("e")                                   e
    /// ```
    pub fn with_name(self, name: OptionCow<'a>) -> Level<'a>
        ensures changed { result ≡ record self.entry { name = option_map_or Own name.entry.0 Hidden } }
    {
        let name = match name.0 {
            Some(name) => LevelName::Own(name),
            None => LevelName::Hidden,
        };
        Level {
            name,
            kind: self.kind,
        }
    }

    /// The level without a name: the text after it is shown alone, in the style of the kind.
    pub fn no_name(self) -> Level<'a>
        ensures changed { result ≡ record self.entry { name = Hidden } }
    {
        self.with_name(OptionCow(None))
    }

    /// A title of this level from a text that isn't trusted, for the first group of a report: the text is normalised
    /// where it is drawn.
    pub fn primary_title(self, text: &'a str) -> Title<'a>
        ensures level { result.level ≡ self.entry }
        ensures text { result.text ≡ Borrowed text.entry }
        ensures untrusted { result.allows_styling ≡ false }
        ensures id { result.id ≡ None }
    {
        self.primary_title_cow(CowStr::Borrowed(text))
    }

    /// A title as [`primary_title`](Level::primary_title) makes it, from a text that may be owned.
    pub fn primary_title_cow(self, text: CowStr<'a>) -> Title<'a>
        ensures level { result.level ≡ self.entry }
        ensures text { result.text ≡ text.entry }
        ensures untrusted { result.allows_styling ≡ false }
        ensures id { result.id ≡ None }
    {
        Title {
            level: self,
            id: None,
            text,
            allows_styling: false,
        }
    }

    /// A title of this level from a trusted text, for a later group: the text is drawn as it is, with any style codes
    /// that it holds. A text from outside has to be normalised first.
    pub fn secondary_title(self, text: &'a str) -> Title<'a>
        ensures level { result.level ≡ self.entry }
        ensures text { result.text ≡ Borrowed text.entry }
        ensures trusted { result.allows_styling ≡ true }
        ensures id { result.id ≡ None }
    {
        self.secondary_title_cow(CowStr::Borrowed(text))
    }

    /// A title as [`secondary_title`](Level::secondary_title) makes it, from a text that may be owned.
    pub fn secondary_title_cow(self, text: CowStr<'a>) -> Title<'a>
        ensures level { result.level ≡ self.entry }
        ensures text { result.text ≡ text.entry }
        ensures trusted { result.allows_styling ≡ true }
        ensures id { result.id ≡ None }
    {
        Title {
            level: self,
            id: None,
            text,
            allows_styling: true,
        }
    }

    /// A message of this level, an element of a group: a trusted text, which is drawn as it is, with any style codes
    /// that it holds. A text from outside has to be normalised first.
    pub fn message(self, text: &'a str) -> Message<'a>
        ensures level { result.level ≡ self.entry }
        ensures text { result.text ≡ Borrowed text.entry }
    {
        self.message_cow(CowStr::Borrowed(text))
    }

    /// A message as [`message`](Level::message) makes it, from a text that may be owned.
    pub fn message_cow(self, text: CowStr<'a>) -> Message<'a>
        ensures level { result.level ≡ self.entry }
        ensures text { result.text ≡ text.entry }
    {
        Message { level: self, text }
    }
}
