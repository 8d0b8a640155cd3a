//! The reports that stand in a page, and the files that they lie in.
ghost use Rattle.std.specs.Prelude.{◌≡◌, [], IfOk, OnOk, option_map};
ghost use Rattle.std.specs.Option.{option_copied};
ghost use Rattle.redraw_run.specs.Page as spec;
ghost use Rattle.redraw_run.specs.Page.{Lists, Numbers, Takes, byte_order, most_kept};
ghost use Rattle.std.specs.BTreeMap.{get};

use crate::counts::{Counts, Kind};
use crate::id::{ReportId, digest_of};
use std::alloc::{AllocError, Global};
use std::collections::BTreeMap;

/// A file in which reports of a page lie.
#[derive(Clone, Copy)]
pub struct ListedFile {
    /// The first of them.
    pub first: ReportId,
    /// How many there are.
    pub counts: Counts,
}

/// The most digests of reports that a page keeps, so that no log takes ever more memory.
const MOST_KEPT: u64 = 16_384;

/// What a page keeps of the reports in it: sixteen bytes of each that is unlike those before it, up to so many, and the
/// names of files.
#[derive(Drop)]
pub struct Page {
    pub alloc: Global,
    /// How often each report was there, by its digest.
    pub reports: BTreeMap<[u8; 8], u64>,
    /// The last number that a report has whose digest isn't kept.
    pub later: u64,
    /// The files, by their names. They are in order, and not hashed: whoever writes a log could choose names with one
    /// hash.
    pub files: BTreeMap<String, ListedFile>,
}

impl Page {
    /// A page without reports.
    pub fn new(alloc: Global) -> Page
        ensures empty { (result.reports.entries ≡ []) × (result.later ≡ most_kept) × (result.files.entries ≡ []) }
    {
        Page {
            alloc,
            reports: BTreeMap::new(alloc),
            later: MOST_KEPT,
            files: BTreeMap::new(alloc),
        }
    }

    /// Takes a report into the page, by what it says and the file that it lies in, if any, and gives it an id that no
    /// other report of the page has.
    pub fn take(
        &mut self,
        report: &str,
        file: Option<&str>,
        kind: Kind,
    ) -> Result<ReportId, AllocError>
        ensures takes { IfOk result (λ id. Takes report.now (option_map (λ name. name.now) file.entry) kind id
            self.old self.new) }
    {
        let id = self.number(report)?;
        if let Some(name) = file {
            self.list(name, id, kind)?;
        }
        Ok(id)
    }

    /// The id of a report: one more is there with its digest. Where no more digests are kept, it has a number that no
    /// other report has.
    fn number(&mut self, report: &str) -> Result<ReportId, AllocError>
        ensures numbers { IfOk result (λ id. Numbers report.now id self.old self.new) }
        ensures kept { (self.new.files ≡ self.old.files) × (self.new.alloc ≡ self.old.alloc) }
    {
        let digest = digest_of(report);
        if !self.has_room(&digest) {
            self.later = self.later.saturating_add(1);
            let number = self.later;
            return Ok(ReportId { digest, number });
        }
        let number = self.times(&digest).saturating_add(1);
        self.reports.insert(digest, number)?;
        Ok(ReportId { digest, number })
    }

    /// Whether a digest is kept, or there is room for it.
    fn has_room(&self, digest: &[u8; 8]) -> bool
        ensures value { result ≡ spec.has_room self.now digest.now }
    {
        self.reports.get(digest).is_some() || (self.reports.len() as u64) < MOST_KEPT
    }

    /// How often a report with this digest was there.
    fn times(&self, digest: &[u8; 8]) -> u64
        ensures value { result ≡ spec.times (get byte_order self.now.reports digest.now) }
    {
        match self.reports.get(digest) {
            Some(count) => *count,
            None => 0,
        }
    }

    /// Counts a report in the file of this name, whose first it is unless that is listed.
    fn list(&mut self, name: &str, id: ReportId, kind: Kind) -> Result<(), AllocError>
        ensures lists { OnOk result (Lists name.now id kind self.old.files self.new.files) }
        ensures kept { (self.new.reports ≡ self.old.reports) × (self.new.later ≡ self.old.later)
            × (self.new.alloc ≡ self.old.alloc) }
    {
        let listed = first_or(self.files.get(name), id);
        let counted = ListedFile {
            first: listed.first,
            counts: listed.counts.with(kind),
        };
        let key = String::from_str(self.alloc, name)?;
        self.files.insert(key, counted)?;
        Ok(())
    }
}

/// A listed file, or one that this report is the first in.
fn first_or(listed: Option<&ListedFile>, id: ReportId) -> ListedFile
    ensures value { result ≡ spec.first_or (option_copied listed.entry) id }
{
    match listed {
        Some(file) => *file,
        None => ListedFile {
            first: id,
            counts: Counts::new(),
        },
    }
}
