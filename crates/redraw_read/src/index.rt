//! Where a file stands among those that were asked for, by its name: none of the others is looked at for it.

ghost use Rattle.std.specs.Prelude.{◌≡◌, ◌&&◌, ℕ, List, Some, None, OnErr, OnOk, if◌then◌else◌};
ghost use Rattle.std.specs.BTreeMap.{get_by_text};
ghost use Rattle.std.specs.Str.{bytes_eq};
ghost use Rattle.redraw_read.specs.FileIndex.{place_in};

use std::alloc::{AllocError, Global};
use std::collections::BTreeMap;

/// The places of files by their names.
type Places = BTreeMap<String, usize>;

/// The places of files in a list, by a file of their project and by their names.
#[derive(Drop)]
pub struct FileIndex {
    alloc: Global,
    homes: BTreeMap<String, Places>,
}

impl FileIndex {
    /// Of no files.
    pub fn new(alloc: Global) -> FileIndex
        ensures none { (name home : List ℕ) → place_in result name home ≡ None }
    {
        FileIndex {
            alloc,
            homes: BTreeMap::new(alloc),
        }
    }

    /// The place of the file of this name, in a project with this file.
    pub fn place(&self, name: &str, home: &str) -> Option<usize>
        ensures value { result ≡ place_in self.now name.now home.now }
    {
        match self.homes.get(home) {
            Some(places) => place_by_name(places, name),
            None => None,
        }
    }

    /// Keeps the place of the file of this name, in a project with this file.
    pub fn add(&mut self, name: &str, home: &str, place: usize) -> Result<(), AllocError>
        ensures added { (n h : List ℕ) → OnOk result (place_in self.new n h
            ≡ if bytes_eq name.now n && bytes_eq home.now h then Some place else place_in self.old n h) }
        ensures refused { (n h : List ℕ) → OnErr result (place_in self.new n h ≡ place_in self.old n h) }
    {
        let alloc = self.alloc;
        match self.homes.get_mut(home) {
            Some(places) => add_place(alloc, places, name, place),
            None => {
                let mut places = BTreeMap::new(alloc);
                add_place(alloc, &mut places, name, place)?;
                self.homes.insert(String::from_str(alloc, home)?, places)?;
                Ok(())
            }
        }
    }
}

/// The place of the file of this name.
fn place_by_name(places: &Places, name: &str) -> Option<usize>
    ensures value { result ≡ get_by_text places.now name.now }
{
    places.get(name).copied()
}

/// Keeps the place of the file of this name.
fn add_place(alloc: Global, places: &mut Places, name: &str, place: usize) -> Result<(), AllocError>
    ensures added { (n : List ℕ) → OnOk result (get_by_text places.new n
        ≡ if bytes_eq name.now n then Some place else get_by_text places.old n) }
    ensures refused { OnErr result (places.new.entries ≡ places.old.entries) }
{
    let name = String::from_str(alloc, name)?;
    places.insert(name, place)?;
    Ok(())
}
