//! Reports that are made of others, part by part.
ghost use Rattle.std.specs.Prelude.{All, IfOk, IfSome};
ghost use Rattle.std.specs.List.{AllZip};
ghost use Rattle.snippet_model.specs.Same.{SameOption};
ghost use Rattle.snippet_model.specs.declared.snippet.Element.{Element};
ghost use Rattle.snippet_model.specs.declared.snippet.Title.{Title};
ghost use Rattle.snippet_shown.specs.Remade.{IsGroupMade, IsGroupTaken};

use snippet_model::snippet::{Element, Group, Title};
use std::alloc::{AllocError, Global};

/// What a setting makes of the titles and of the elements of a report. All else of the report stays.
pub trait Remake {
    /// Of which titles it makes others.
    ghost takes_title: { Self → Title → Type 0 };

    /// Of which elements it makes others.
    ghost takes_element: { Self → Element → Type 0 };

    /// When a title is what it makes of another.
    ghost makes_title: { Self → Title → Title → Type 0 };

    /// When an element is what it makes of another.
    ghost makes_element: { Self → Element → Element → Type 0 };

    /// What stands in the place of a title. The one error is that memory ran out.
    fn title<'a>(&self, alloc: Global, title: Title<'a>) -> Result<Title<'a>, AllocError>
        requires taken { takes_title self.now title }
        ensures made { IfOk result (makes_title self.now title.entry) };

    /// What stands in the place of an element. The one error is that memory ran out.
    fn element<'a>(&self, alloc: Global, element: Element<'a>) -> Result<Element<'a>, AllocError>
        requires taken { takes_element self.now element }
        ensures made { IfOk result (makes_element self.now element.entry) };
}

/// What stands in the place of a title that may be missing.
fn optional_title_remade<'a, R: Remake>(
    alloc: Global,
    how: &R,
    title: Option<Title<'a>>,
) -> Result<Option<Title<'a>>, AllocError>
    requires taken { IfSome title (R.takes_title how.now) }
    ensures made { IfOk result (SameOption (R.makes_title how.now) title.entry) }
{
    match title {
        Some(title) => Ok(Some(how.title(alloc, title)?)),
        None => Ok(None),
    }
}

/// What stands in the places of elements, in order.
fn elements_remade<'a, R: Remake>(
    alloc: Global,
    how: &R,
    elements: Vec<Element<'a>>,
) -> Result<Vec<Element<'a>>, AllocError>
    requires taken { All (R.takes_element how.now) elements.items }
    ensures made { IfOk result (λ made. AllZip (R.makes_element how.now) elements.entry.items made.items) }
{
    let mut made = Vec::new(alloc);
    for element in elements {
        made.push(how.element(alloc, element)?)?;
    }
    Ok(made)
}

/// What stands in the place of a group.
fn group_remade<'a, R: Remake>(
    alloc: Global,
    how: &R,
    group: Group<'a>,
) -> Result<Group<'a>, AllocError>
    requires taken { IsGroupTaken (R.takes_title how.now) (R.takes_element how.now) group }
    ensures made { IfOk result (IsGroupMade (R.makes_title how.now) (R.makes_element how.now) group.entry) }
{
    Ok(Group {
        level: group.level,
        title: optional_title_remade(alloc, how, group.title)?,
        elements: elements_remade(alloc, how, group.elements)?,
    })
}

/// What a setting makes of the groups of a report, in order.
///
/// # Errors
///
/// There is no memory for the groups, or for a part of them that is made.
pub fn groups_remade<'a, R: Remake>(
    alloc: Global,
    how: &R,
    groups: Vec<Group<'a>>,
) -> Result<Vec<Group<'a>>, AllocError>
    requires taken { All (IsGroupTaken (R.takes_title how.now) (R.takes_element how.now)) groups.items }
    ensures made { IfOk result (λ made. AllZip (IsGroupMade (R.makes_title how.now) (R.makes_element how.now))
        groups.entry.items made.items) }
{
    let mut made = Vec::new(alloc);
    for group in groups {
        made.push(group_remade(alloc, how, group)?)?;
    }
    Ok(made)
}
