//! The sources that reports show, each read once.

ghost use Rattle.std.specs.Prelude.{◌≡◌, ◌++◌, ◌||◌, [], ◌∷◌, OnOk, codes, eqb, false, is_some, string_bytes};
ghost use Rattle.std.specs.List.{list_any, starts_with};
ghost use Rattle.std.specs.Option.{option_map};
ghost use Rattle.std.proofs.Props.{props};
ghost use Rattle.redraw_read.specs.Extract as spec;
ghost use Rattle.redraw_read.specs.Extract.{held};
ghost use Rattle.redraw_read.specs.FileIndex.{IsIndexOf};
ghost use Rattle.redraw_read.specs.Loaded.{Loads, texts_of, unread_name};
ghost use Rattle.redraw_read.specs.Placed.{home_of};

use crate::index::FileIndex;
use crate::source::Source;
use crate::words::begins_with;
use std::alloc::{AllocError, Global};

/// Where files are read from.
pub trait SourceFiles {
    /// The bytes of the file of this name; `None` where it can't be read.
    fn bytes(&self, name: &str) -> Result<Option<Vec<u8>>, AllocError>;
}

/// What the paths of the standard library begin with, as it was built: they are on no machine but that one.
const BUILT: &str = "/rustc/";

/// A file that was asked for, and what it holds; nothing where it couldn't be read as text.
#[derive(Drop)]
pub struct File {
    /// Its name, as a tool gave it.
    name: String,
    /// A file of the project that the tool spoke of; empty where none is known.
    home: String,
    source: Option<Source>,
}

impl File {
    /// Whether it was asked for by this name, in a project with this file.
    pub fn is_named(&self, name: &str, home: &str) -> bool
        ensures value { result ≡ spec.is_named name.now home.now self.now }
    {
        self.name.as_str() == name && self.home.as_str() == home
    }

    /// Whether nothing is to be told of it: it was read, or it is one of the standard library as that was built.
    fn needs_no_word(&self) -> bool
        ensures value { result
            ≡ is_some self.now.source || starts_with eqb (string_bytes self.now.name) (codes "/rustc/") }
    {
        self.source.is_some() || begins_with(self.name.as_str(), BUILT)
    }

    /// What it holds, where it was read.
    pub fn source(&self) -> Option<&Source>
        ensures value { option_map (λ source. source.now.lines) result ≡ held self.now }
    {
        self.source.as_ref()
    }
}

/// The files that were asked for.
#[derive(Drop)]
pub struct Sources<S: Drop> {
    alloc: Global,
    source_files: S,
    files: Vec<File>,
    /// Where each stands among them.
    index: FileIndex,
    /// The names of those that couldn't be read, until they are told.
    unread: Vec<String>,
    pub ghost indexed: { IsIndexOf index files.items } by { Prim.hlevel props },
}

impl<S: SourceFiles + Drop> Sources<S> {
    /// No files yet; they are read from this source_files.
    pub fn new(alloc: Global, source_files: S) -> Sources<S> {
        Sources {
            alloc,
            source_files,
            files: Vec::new(alloc),
            index: FileIndex::new(alloc),
            unread: Vec::new(alloc),
        }
    }

    /// Reads the file of this name, unless it was asked for before. One that isn't on the source_files by its name is
    /// looked for below the folders of these files.
    pub fn load(&mut self, name: &str, homes: &[String]) -> Result<(), AllocError>
        ensures loads { OnOk result (Loads (home_of homes.now) (name.now ∷ []) self.old.files.items self.new.files.items
            (texts_of self.old.unread.items) (texts_of self.new.unread.items)) }
    {
        let home = first_home(homes);
        if !self.has(name, home) {
            let source = self.source_of(name, homes)?;
            self.keep(name, home, source)?;
        }
        Ok(())
    }

    /// What a file of this name holds, on the source_files or below these files' folders.
    fn source_of(&self, name: &str, homes: &[String]) -> Result<Option<Source>, AllocError> {
        let bytes = match self.source_files.bytes(name)? {
            Some(bytes) => Some(bytes),
            None => self.bytes_near(name, homes)?,
        };
        match bytes {
            Some(bytes) => source_in(self.alloc, bytes),
            None => Ok(None),
        }
    }

    /// The bytes of the file of this name by the first of these homes by which there is one.
    fn bytes_near(&self, name: &str, homes: &[String]) -> Result<Option<Vec<u8>>, AllocError> {
        for home in homes {
            if let Some(bytes) = self.bytes_by(name, home.as_str())? {
                return Ok(Some(bytes));
            }
        }
        Ok(None)
    }

    /// The bytes of the file of this name by a home: by a file those of a relative name below the file's folders,
    /// upwards; by a folder, with a slash at its end, those of the same path from there below the folder of all files.
    fn bytes_by(&self, name: &str, home: &str) -> Result<Option<Vec<u8>>, AllocError> {
        if home.ends_with('/') {
            return match name.strip_prefix(home) {
                Some(path) => self.source_files.bytes(path),
                None => Ok(None),
            };
        }
        if name.starts_with('/') {
            return Ok(None);
        }
        self.bytes_above(name, home)
    }

    /// The bytes of the file of this name below the folders in which this file is, from the innermost. Slashes in a
    /// row are one.
    fn bytes_above(&self, name: &str, home: &str) -> Result<Option<Vec<u8>>, AllocError> {
        let mut path = home;
        for _ in 0..home.len() {
            let Some((folder, _)) = path.rsplit_once('/') else {
                return Ok(None);
            };
            let folder = folder.trim_end_matches('/');
            let near = format!(in self.alloc; "{folder}/{name}")?;
            if let Some(bytes) = self.source_files.bytes(near.as_str())? {
                return Ok(Some(bytes));
            }
            path = folder;
        }
        Ok(None)
    }

    /// Keeps what the file of this name holds, which wasn't asked for before.
    fn keep(&mut self, name: &str, home: &str, source: Option<Source>) -> Result<(), AllocError>
        requires absent { list_any (spec.is_named name.now home.now) self.old.files.items ≡ false }
        ensures loads { OnOk result (Loads home.now (name.now ∷ []) self.old.files.items self.new.files.items
            (texts_of self.old.unread.items) (texts_of self.new.unread.items)) }
    {
        let file = File {
            name: String::from_str(self.alloc, name)?,
            home: String::from_str(self.alloc, home)?,
            source,
        };
        self.note(&file)?;
        self.put(name, home, file)
    }

    /// Puts the file of this name to the others. Where memory is refused, they stay as they were.
    fn put(&mut self, name: &str, home: &str, file: File) -> Result<(), AllocError>
        requires absent { list_any (spec.is_named name.now home.now) self.old.files.items ≡ false }
        requires named { (string_bytes file.name ≡ name.now) × (string_bytes file.home ≡ home.now) }
        ensures put { OnOk result (self.new.files.items ≡ self.old.files.items ++ file ∷ []) }
        ensures unread { self.new.unread ≡ self.old.unread }
    {
        let place = self.files.len();
        self.files.push(file)?;
        match self.index.add(name, home, place) {
            Ok(()) => Ok(()),
            Err(error) => {
                let _refused = self.files.pop();
                Err(error)
            }
        }
    }

    /// Notes the name of a file that couldn't be read, to be told.
    fn note(&mut self, file: &File) -> Result<(), AllocError>
        ensures noted { OnOk result
            (texts_of self.new.unread.items ≡ texts_of self.old.unread.items ++ unread_name file.now) }
        ensures kept { self.new.files ≡ self.old.files }
    {
        if file.needs_no_word() {
            return Ok(());
        }
        let name = String::from_str(self.alloc, file.name.as_str())?;
        self.unread.push(name)?;
        Ok(())
    }

    /// The names of the files that couldn't be read since this was asked before.
    pub fn take_unread(&mut self) -> Vec<String>
        ensures kept { self.new.files ≡ self.old.files }
        ensures taken { result ≡ self.old.unread }
        ensures none { self.new.unread.items ≡ [] }
    {
        std::mem::replace(&mut self.unread, Vec::new(self.alloc))
    }

    /// The files that were asked for.
    pub fn files(&self) -> &[File]
        ensures value { result.now ≡ self.now.files.items }
    {
        &self.files
    }

    /// Where each stands among them.
    pub fn index(&self) -> &FileIndex
        ensures value { result.now ≡ self.now.index }
    {
        &self.index
    }

    /// Whether the file of this name was asked for, in a project with this file.
    fn has(&self, name: &str, home: &str) -> bool
        ensures value { result ≡ list_any (spec.is_named name.now home.now) self.now.files.items }
    {
        self.index.place(name, home).is_some()
    }
}

/// The first of some files of a project; empty where there is none.
pub fn first_home(homes: &[String]) -> &str
    ensures value { result.now ≡ home_of homes.now }
{
    match homes.first() {
        Some(home) => home.as_str(),
        None => "",
    }
}

/// The source that a file's bytes are, without a mark of their order; `None` where they aren't UTF-8.
fn source_in(alloc: Global, bytes: Vec<u8>) -> Result<Option<Source>, AllocError> {
    let Ok(text) = std::str::from_utf8(&bytes) else {
        return Ok(None);
    };
    let text = text.strip_prefix('\u{feff}').unwrap_or(text);
    Ok(Some(Source::new(alloc, text)?))
}
