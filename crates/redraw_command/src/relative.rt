//! Files below the folder, named by their paths from there.

ghost use Rattle.std.specs.Prelude.{◌≡◌, ◌≢◌, ◌++◌, ◌∷◌, [], codes, List, ℕ, IfOk, MatchOption, OnOk, nat_eq};
ghost use Rattle.std.specs.Prelude.{option_map, string_bytes};
ghost use Rattle.std.specs.List.{AllZip, starts_with};
ghost use Rattle.redraw_command.specs.Arguments.{argument_at};
ghost use Rattle.redraw_command.specs.Files as spec;
ghost use Rattle.redraw_command.specs.Files.{IsBelow, IsShownFrom};
ghost use Rattle.redraw_command.specs.Shortened.{IsChildFrom, IsDiagnosticFrom, IsEditFrom, IsPlaceFrom};

use crate::terminal::Surroundings;
use redraw_report::diagnostic::{Child, Diagnostic, FileSpan, SuggestedEdit};
use std::alloc::{AllocError, Global};

/// The path of the folder that files are read below, from the root of the machine, without a slash at its end; `None`
/// where it isn't known. A folder is given or not, in the one that the program runs in.
pub fn folder_of(
    alloc: Global,
    root: Option<&str>,
    around: Surroundings<'_>,
) -> Result<Option<String>, AllocError>
    ensures value { IfOk result (λ folder. option_map string_bytes folder
        ≡ spec.folder_of (argument_at root.entry) (argument_at around.entry.folder)) }
{
    match root {
        Some(root) => given_folder(alloc, root, around.folder),
        None => named(alloc, around.folder),
    }
}

/// The path of a folder that is given, from the root of the machine.
fn given_folder(
    alloc: Global,
    root: &str,
    around: Option<&str>,
) -> Result<Option<String>, AllocError>
    ensures value { IfOk result (λ folder. option_map string_bytes folder
        ≡ spec.given_folder root.now (argument_at around.entry)) }
{
    if is_absolute(root) {
        return named(alloc, Some(root));
    }
    match around {
        Some(outer) => Ok(Some(folder_in(alloc, outer, root)?)),
        None => Ok(None),
    }
}

/// Whether a path begins at the root of the machine.
fn is_absolute(path: &str) -> bool
    ensures value { result ≡ starts_with nat_eq path.now (codes "/") }
{
    path.starts_with("/")
}

/// A folder without slashes at its end.
fn named(alloc: Global, folder: Option<&str>) -> Result<Option<String>, AllocError>
    ensures value { IfOk result (λ named. option_map string_bytes named
        ≡ option_map spec.without_slashes (argument_at folder.entry)) }
{
    match folder {
        Some(folder) => Ok(Some(String::from_str(alloc, without_slashes(folder))?)),
        None => Ok(None),
    }
}

/// A folder in another.
fn folder_in(alloc: Global, outer: &str, inner: &str) -> Result<String, AllocError>
    ensures value { IfOk result (λ folder. string_bytes folder ≡ spec.folder_in outer.now inner.now) }
{
    joined(
        alloc,
        without_slashes(outer),
        without_slashes(without_dot(inner)),
    )
}

/// A folder in another, where the inner one has no dot before it.
fn joined(alloc: Global, outer: &str, inner: &str) -> Result<String, AllocError>
    ensures value { IfOk result (λ folder. string_bytes folder ≡ spec.joined outer.now inner.now) }
{
    if is_here(inner) {
        String::from_str(alloc, outer)
    } else {
        format!(in alloc; "{outer}/{inner}")
    }
}

/// Whether a path leads nowhere from a folder.
fn is_here(path: &str) -> bool
    ensures value { result ≡ spec.is_here path.now }
{
    match path {
        "" | "." => true,
        _ => false,
    }
}

/// A path without the slashes at its end.
pub fn without_slashes(path: &str) -> &str
    ensures value { result.now ≡ spec.without_slashes path.now }
{
    path.trim_end_matches('/')
}

/// A path without a dot and a slash at its start.
fn without_dot(path: &str) -> &str
    ensures value { result.now ≡ spec.without_dot path.now }
{
    match path.strip_prefix("./") {
        Some(rest) => rest,
        None => path,
    }
}

/// Names each file of a diagnostic that lies below this folder by its path from there.
pub fn make_relative(
    alloc: Global,
    diagnostic: &mut Diagnostic,
    folder: &str,
) -> Result<(), AllocError>
    ensures shown { OnOk result (IsDiagnosticFrom folder.now diagnostic.old diagnostic.new) }
{
    make_places_relative(alloc, &mut diagnostic.spans, folder)?;
    for child in diagnostic.children.iter_mut() {
        make_child_relative(alloc, child, folder)?;
    }
    Ok(())
}

/// Names each file of a child that lies below this folder by its path from there.
fn make_child_relative(alloc: Global, child: &mut Child, folder: &str) -> Result<(), AllocError>
    ensures shown { OnOk result (IsChildFrom folder.now child.old child.new) }
{
    make_places_relative(alloc, &mut child.spans, folder)?;
    for edits in child.alternatives.iter_mut() {
        make_edits_relative(alloc, edits, folder)?;
    }
    Ok(())
}

/// Names the file of each of some places, if it lies below this folder, by its path from there.
fn make_places_relative(
    alloc: Global,
    spans: &mut [FileSpan],
    folder: &str,
) -> Result<(), AllocError>
    ensures shown { OnOk result (AllZip (IsPlaceFrom folder.now) spans.old spans.new) }
{
    for span in spans.iter_mut() {
        shorten(alloc, &mut span.file, folder)?;
    }
    Ok(())
}

/// Names the file of each of some edits, if it lies below this folder, by its path from there.
fn make_edits_relative(
    alloc: Global,
    edits: &mut [SuggestedEdit],
    folder: &str,
) -> Result<(), AllocError>
    ensures shown { OnOk result (AllZip (IsEditFrom folder.now) edits.old edits.new) }
{
    for edit in edits.iter_mut() {
        shorten(alloc, &mut edit.file, folder)?;
    }
    Ok(())
}

/// Makes a path that lies below this folder the one from there.
fn shorten(alloc: Global, path: &mut String, folder: &str) -> Result<(), AllocError>
    ensures shown { OnOk result (IsShownFrom folder.now (string_bytes path.old) (string_bytes path.new)) }
{
    let shorter = match below(path.as_str(), folder) {
        Some(shorter) => String::from_str(alloc, shorter)?,
        None => return Ok(()),
    };
    *path = shorter;
    Ok(())
}

/// The path from a folder to a file below it; `None` where it lies elsewhere.
fn below<'p>(path: &'p str, folder: &str) -> Option<&'p str>
    ensures value { MatchOption result ((rest : List ℕ) → IsBelow folder.now path.now rest → ⊥)
        (λ rest. IsBelow folder.now path.now rest.now) }
{
    match after(path, folder) {
        Some(rest) => file_in(rest),
        None => None,
    }
}

/// What stands in a path after a folder; `None` where it doesn't begin with that.
fn after<'p>(path: &'p str, folder: &str) -> Option<&'p str>
    ensures value { MatchOption result ((rest : List ℕ) → path.now ≢ folder.now ++ rest)
        (λ rest. path.now ≡ folder.now ++ rest.now) }
{
    path.strip_prefix(folder)
}

/// The path of a file, where it stands after a slash and isn't empty.
fn file_in(rest: &str) -> Option<&str>
    ensures value { MatchOption result ((file : List ℕ) → rest.now ≡ 47 ∷ file → file ≡ [])
        (λ file. (rest.now ≡ 47 ∷ file.now) × (file.now ≢ [])) }
{
    match after_slash(rest) {
        Some(file) => some_path(file),
        None => None,
    }
}

/// A path, if it isn't empty.
fn some_path(path: &str) -> Option<&str>
    ensures value { MatchOption result (path.now ≡ []) (λ same. (same.now ≡ path.now) × (same.now ≢ [])) }
{
    if path.is_empty() { None } else { Some(path) }
}

/// What stands after a slash; `None` where there is none.
fn after_slash(path: &str) -> Option<&str>
    ensures value { MatchOption result ((rest : List ℕ) → path.now ≢ 47 ∷ rest) (λ rest. path.now ≡ 47 ∷ rest.now) }
{
    path.strip_prefix('/')
}
