//! Files that may be read for what a log names.

ghost use Rattle.std.specs.Prelude.{◌≡◌, ◌≤◌, ◌^◌, IfOk, IfSome, length, string_bytes, true, is_some};
ghost use Rattle.std.specs.Fs.{IsFile, file_type};
ghost use Rattle.redraw_command.specs.Arguments.{argument_at};
ghost use Rattle.redraw_command.specs.Files as spec;
ghost use Rattle.redraw_command.specs.Files.{lies_in};

use crate::relative::without_slashes;
use std::alloc::{AllocError, Global};
use std::fs::{self, Metadata};
use std::io::{self, Read};
use std::rt::Files;

/// The bytes of the longest file that is read: 1 GiB.
const LONGEST: u64 = 1 << 30;

/// A file that may be read for what a log names: a regular file, no device and no pipe; and one below the folder, where
/// it has to lie below one. No other function than `judged` makes one.
#[derive(Drop)]
pub struct FoundFile {
    /// The folder that it has to lie below, if there is one, by its path as the system resolves it, with a slash.
    folder: Option<String>,
    /// Its path as the system resolves it: from the root of the machine, with all links followed.
    path: String,
    /// What the system says of it.
    about: Metadata,
    /// It is a regular file.
    ghost regular: { IsFile (file_type about) },
    /// Its path begins with that of the folder and a slash.
    ghost inside: { lies_in folder (string_bytes path) ≡ true },
}

/// What there is by a path that a log names.
#[derive(Drop)]
pub enum Found {
    /// A file that may be read.
    File(FoundFile),
    /// A file that may not, since it lies elsewhere than below the folder.
    Outside,
    /// No file that can be read.
    Nothing,
}

/// A file before it is judged, and the folder that it has to lie below, if there is one.
#[derive(Drop)]
pub struct Candidate {
    folder: Option<String>,
    path: String,
    about: Metadata,
}

impl Found {
    ghost use Rattle.redraw_command.specs.Found.{IsBound, IsJudged};

    /// What there is by this path. Where a folder is given, only a file below it may be read, when all links are
    /// followed.
    pub fn find<R: Files + AllocGlobal>(rt: &R, folder: Option<&str>, path: &str) -> Found
        ensures bound { IsBound (is_some folder.entry) result }
    {
        match resolved(rt, folder, path) {
            Ok(candidate) => Found::judged(candidate),
            Err(_) => Found::Nothing,
        }
    }

    /// What a candidate is: a file that may be read, one that may not, or no file.
    fn judged(candidate: Candidate) -> Found
        ensures judged { IsJudged candidate result }
    {
        let is_file = candidate.about.is_file();
        let is_inside = lies_in(&candidate.folder, candidate.path.as_str());
        let Candidate {
            folder,
            path,
            about,
        } = candidate;
        if !is_file {
            Found::Nothing
        } else if is_inside {
            Found::File(FoundFile {
                folder,
                path,
                about,
            })
        } else {
            Found::Outside
        }
    }
}

impl FoundFile {
    /// What it holds; `None` where it can't be read, or holds more than 1 GiB.
    pub fn bytes<R: Files + AllocGlobal>(&self, rt: &R) -> Option<Vec<u8>> {
        if self.about.len() > LONGEST {
            return None;
        }
        let file = fs::open(rt, self.path.as_str()).ok()?;
        whole(rt.alloc(), file)
    }
}

/// All that a reader holds; `None` where it can't be read, or that is more than 1 GiB. No more than that and a byte is
/// read.
fn whole<F: Read + Drop>(alloc: Global, file: F) -> Option<Vec<u8>>
    ensures all { IfSome (F.remaining file) (λ held. IfSome result (λ bytes. bytes.items ≡ held)) }
    ensures bound { IfSome result (λ bytes. length bytes.items ≤ 2 ^ 30) }
{
    let mut bytes = Vec::new(alloc);
    let mut start = file.take(LONGEST + 1);
    match start.read_to_end(&mut bytes) {
        Ok(_) => no_longer(bytes),
        Err(_) => None,
    }
}

/// These bytes, if they are no more than 1 GiB.
fn no_longer(bytes: Vec<u8>) -> Option<Vec<u8>>
    ensures same { IfSome result (λ short. short ≡ bytes) }
    ensures bound { IfSome result (λ short. length short.items ≤ 2 ^ 30) }
{
    if bytes.len() as u64 > LONGEST {
        None
    } else {
        Some(bytes)
    }
}

/// A file and the folder that it has to lie below, if there is one, as the system resolves their paths.
fn resolved<R: Files + AllocGlobal>(
    rt: &R,
    folder: Option<&str>,
    path: &str,
) -> io::Result<Candidate>
    ensures bound { IfOk result (λ candidate. is_some candidate.folder ≡ is_some folder.entry) }
{
    let path = fs::canonicalize(rt, path)?.into_string();
    let about = fs::metadata(rt, path.as_str())?;
    let folder = match folder {
        Some(folder) => Some(resolved_folder(rt, folder)?),
        None => None,
    };
    Ok(Candidate {
        folder,
        path,
        about,
    })
}

/// A folder as the system resolves its path, with a slash.
fn resolved_folder<R: Files + AllocGlobal>(rt: &R, folder: &str) -> io::Result<String> {
    let folder = fs::canonicalize(rt, folder)?;
    Ok(with_slash(rt.alloc(), folder.as_str())?)
}

/// A folder with one slash at its end.
fn with_slash(alloc: Global, folder: &str) -> Result<String, AllocError>
    ensures value { IfOk result (λ named. string_bytes named ≡ spec.with_slash folder.now) }
{
    let folder = without_slashes(folder);
    format!(in alloc; "{folder}/")
}

/// Whether a path begins with that of a folder, which ends with a slash; it may be any where there is no folder.
fn lies_in(folder: &Option<String>, path: &str) -> bool
    ensures value { result ≡ spec.lies_in folder.now path.now }
{
    match folder {
        Some(folder) => path.starts_with(folder.as_str()),
        None => true,
    }
}

/// The folder that files have to lie below, if they have to lie below one: the one that is given, or the one that the
/// program runs in.
pub fn bound(is_confined: bool, root: Option<&str>) -> Option<&str>
    ensures value { argument_at result ≡ spec.bound is_confined (argument_at root.entry) }
    ensures confined { is_some result ≡ is_confined }
{
    match root {
        _ if !is_confined => None,
        Some(root) => Some(root),
        None => Some("."),
    }
}
