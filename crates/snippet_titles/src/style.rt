//! Where a title or message stands, and what that makes of its rows: the roles of their parts, and what they begin
//! with.
ghost use Rattle.std.specs.Prelude.{◌≡◌, ◌<◌, chars, length, if◌then◌else◌};
ghost use Rattle.snippet_style.specs.Cell.{unlinked_cell};
ghost use Rattle.snippet_style.specs.Glyphs.{note_sign_of};
ghost use Rattle.snippet_titles.specs.HeadingRows as spec;
ghost use Rattle.snippet_titles.specs.declared.style.TitleStyle.TheVariants.{Short, Title};

use snippet_grid::Layout;
use snippet_style::{DecorStyle, ElementStyle, LevelInner};

/// The place of a message, below the rows of an element of its group.
#[derive(Clone, Copy)]
pub struct MessageContext {
    /// Where the parts of the group's rows stand.
    pub layout: Layout,
    /// Whether an element of the group follows, to which a stroke leads.
    pub followed: bool,
}

/// Where a title or message stands.
#[derive(Clone, Copy)]
pub enum TitleStyle {
    /// A group begins with it.
    Title,
    /// A report's short form consists of it.
    Short,
    /// It stands below the rows of an element.
    Message(MessageContext),
}

/// The roles of a heading's parts.
#[derive(Clone, Copy)]
pub struct HeadingRoles {
    /// That of the level's name and the id.
    pub label: ElementStyle,
    /// That of the colon after them.
    pub colon: ElementStyle,
    /// That of the text.
    pub text: ElementStyle,
}

/// The roles of a heading of this kind, whose text is trusted or not.
pub fn roles_of(style: &TitleStyle, kind: LevelInner, trusted: bool) -> HeadingRoles
    ensures value { result ≡ spec.roles_of style.now kind trusted }
{
    match style {
        TitleStyle::Title => title_roles(false, kind, trusted),
        TitleStyle::Short => title_roles(true, kind, trusted),
        TitleStyle::Message(_) => HeadingRoles {
            label: ElementStyle::MainHeaderMsg,
            colon: ElementStyle::NoStyle,
            text: ElementStyle::NoStyle,
        },
    }
}

/// The roles of a title of this kind, in the short form or not.
fn title_roles(short: bool, kind: LevelInner, trusted: bool) -> HeadingRoles
    ensures value { result ≡ spec.roles_of (if short then Short else Title) kind trusted }
{
    let (colon, text) = match (trusted, short) {
        (true, _) => (ElementStyle::HeaderMsg, ElementStyle::NoStyle),
        (false, true) => (ElementStyle::NoStyle, ElementStyle::NoStyle),
        (false, false) => (ElementStyle::MainHeaderMsg, ElementStyle::MainHeaderMsg),
    };
    HeadingRoles {
        label: ElementStyle::Level(kind),
        colon,
        text,
    }
}

impl MessageContext {
    /// What leads from the gutter to the message.
    pub(crate) fn sign(self) -> &'static str
        ensures value { chars result.now ≡ note_sign_of self.layout.decor self.followed }
        ensures some { 0 < length result.now }
    {
        let layout = self.layout;
        layout.decor.note_sign(self.followed)
    }

    /// What stands below its first character in the message's further rows, and its role.
    pub(crate) fn bar(self) -> (char, ElementStyle)
        ensures value { unlinked_cell result.1 result.0 ≡ spec.note_bar_of self.layout.decor self.followed }
    {
        let layout = self.layout;
        match (layout.decor, self.followed) {
            (DecorStyle::Unicode, true) => (layout.decor.separator(), ElementStyle::LineNumber),
            (DecorStyle::Unicode, false) | (DecorStyle::Ascii, _) => (' ', ElementStyle::NoStyle),
        }
    }
}
