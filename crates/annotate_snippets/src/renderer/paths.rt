//! The files that elements, groups and reports are of.
ghost use Rattle.std.specs.Prelude.{◌≡◌};
ghost use Rattle.std.specs.List.{filter_map, slice_get};
ghost use Rattle.std.specs.Option.{option_copied};
ghost use Rattle.annotate_snippets.specs.ElementContext as spec;
ghost use Rattle.annotate_snippets.specs.ElementContext.{path_bytes};

use snippet_model::snippet::{Element, Group, Patch, Snippet};
use snippet_text::CowStr;

/// A path, if there is one.
pub fn path_of<'r>(path: &'r Option<CowStr<'_>>) -> Option<&'r str>
    ensures value { option_copied result ≡ path_bytes path.now }
{
    match path {
        Some(path) => Some(path.as_str()),
        None => None,
    }
}

/// Whether two paths are the same, as they are given; so are two that are missing.
pub fn is_same_file(path: Option<&str>, other: Option<&str>) -> bool
    ensures value { result ≡ spec.is_same_file (option_copied path.entry) (option_copied other.entry) }
{
    match (path, other) {
        (Some(path), Some(other)) => path == other,
        (None, None) => true,
        (Some(_), None) | (None, Some(_)) => false,
    }
}

/// Whether two suggestions are for one file.
pub fn is_for_same_file(suggestion: &Snippet<'_, Patch<'_>>, other: &Snippet<'_, Patch<'_>>) -> bool
    ensures value { result ≡ spec.is_same_file (path_bytes suggestion.now.path) (path_bytes other.now.path) }
{
    is_same_file(path_of(&suggestion.path), path_of(&other.path))
}

/// The path of a group's primary file, which is that of the first element that is of a file, if it has one.
pub fn primary_path<'r>(group: &'r Group<'_>) -> Option<&'r str>
    ensures value { option_copied result ≡ spec.primary_path group.now }
{
    for element in &group.elements {
        match element {
            Element::Cause(snippet) => return path_of(&snippet.path),
            Element::Origin(origin) => return Some(origin.path.as_str()),
            _ => {}
        }
    }
    None
}

/// The path of a report's primary file: the first that a group has.
pub fn report_file<'r>(groups: &'r [Group<'_>]) -> Option<&'r str>
    ensures value { option_copied result ≡ slice_get (filter_map spec.primary_path groups.now) 0 }
{
    for group in groups {
        if let Some(path) = primary_path(group) {
            return Some(path);
        }
    }
    None
}
