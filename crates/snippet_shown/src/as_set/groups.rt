//! Groups as they are set.
ghost use Rattle.std.specs.Prelude.{IfOk};
ghost use Rattle.std.specs.List.{AllZip};
ghost use Rattle.snippet_shown.specs.AsSet.{IsElementAsSet, IsGroupAsSet};

use crate::as_set::elements::element_as_set;
use crate::as_set::titles::optional_title_as_set;
use snippet_model::snippet::{Element, Group};
use std::alloc::{AllocError, Global};

/// Elements as they are set, in order.
fn elements_as_set<'a>(
    alloc: Global,
    feeds: bool,
    elements: &'a [Element<'a>],
) -> Result<Vec<Element<'a>>, AllocError>
    ensures set { IfOk result (λ set. AllZip (IsElementAsSet feeds) elements.now set.items) }
{
    let mut set = Vec::new(alloc);
    for element in elements {
        set.push(element_as_set(alloc, feeds, element)?)?;
    }
    Ok(set)
}

/// A group as it is set.
fn group_as_set<'a>(
    alloc: Global,
    feeds: bool,
    group: &'a Group<'a>,
) -> Result<Group<'a>, AllocError>
    ensures set { IfOk result (IsGroupAsSet feeds group.now) }
{
    Ok(Group {
        level: group.level,
        title: optional_title_as_set(alloc, feeds, &group.title)?,
        elements: elements_as_set(alloc, feeds, &group.elements)?,
    })
}

/// The groups that are shown in place of these: with the line feeds of labels, paths, identifiers and level names
/// shown, where that is asked for. All texts that stay as they are are lent.
///
/// # Errors
///
/// There is no memory for the groups, or for a text of which line feeds are shown.
pub fn groups_as_set<'a>(
    alloc: Global,
    feeds: bool,
    groups: &'a [Group<'a>],
) -> Result<Vec<Group<'a>>, AllocError>
    ensures set { IfOk result (λ set. AllZip (IsGroupAsSet feeds) groups.now set.items) }
{
    let mut set = Vec::new(alloc);
    for group in groups {
        set.push(group_as_set(alloc, feeds, group)?)?;
    }
    Ok(set)
}
