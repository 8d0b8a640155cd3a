//! The parts of a tool, and the numbers of their rules by ids.
ghost use Rattle.std.specs.Prelude.{◌≡◌, ℕ, IfOk, List, None, OnOk, Some, bytes_eq, codes, if◌then◌else◌, map};
ghost use Rattle.std.specs.Prelude.{option_and_then, option_map};
ghost use Rattle.std.specs.List.{slice_get};
ghost use Rattle.std.specs.Option.{option_copied, option_or};
ghost use Rattle.serde_json.specs.Data.{Data};
ghost use Rattle.serde_json.specs.Find.{get};
ghost use Rattle.serde_json.specs.View.{view};
ghost use Rattle.json_lines.specs.Field.{lent_text, text_field};
ghost use Rattle.redraw_tools.specs.Rule as spec;
ghost use Rattle.redraw_tools.specs.Rule.{has_id, items_in, named};
ghost use Rattle.redraw_tools.specs.RuleIndex as index;
ghost use Rattle.redraw_tools.specs.RuleIndex.{AreIndexesOf, IsIndexOf, IsMeasured, indexed};

use crate::cut::parted_last;
use json_lines::lenient::{field_at, items_of, text_field};
use serde_json::Value;
use std::alloc::{AllocError, Global};
use std::collections::{BTreeMap, BTreeSet};

/// The numbers of the rules of a part of the tool, by their ids.
#[derive(Drop)]
pub struct RuleNumbers<'v> {
    /// The number of the first rule of each id, but for the empty one.
    by_id: BTreeMap<&'v str, usize>,
    /// How many bytes ids have.
    lengths: BTreeSet<usize>,
}

/// The numbers of the rules of a run.
#[derive(Drop)]
pub struct RunRules<'v> {
    driver: RuleNumbers<'v>,
    extensions: Vec<RuleNumbers<'v>>,
}

/// The extension of a run's tool with this number, or else the driver, where the tool has it.
pub fn tool_part<'v>(run: &'v Value, extension: Option<u64>) -> Option<&'v Value>
    ensures value { option_map (λ v. view v.now) result ≡ spec.tool_part (view run.now) extension }
{
    match extension {
        Some(index) => extensions_of(run).get(index as usize),
        None => field_at(run.get("tool"), "driver"),
    }
}

/// The extensions of a run's tool.
fn extensions_of<'v>(run: &'v Value) -> &'v [Value]
    ensures value { map view result.now ≡ items_in (codes "extensions") (get (codes "tool") (view run.now)) }
{
    items_of(field_at(run.get("tool"), "extensions"))
}

/// The rules of a part of a tool, if there is one.
pub fn rules_of<'v>(part: Option<&'v Value>) -> &'v [Value]
    ensures value { map view result.now ≡ items_in (codes "rules") (option_map (λ v. view v.now) part.entry) }
{
    items_of(field_at(part, "rules"))
}

impl<'v> RunRules<'v> {
    /// The numbers of the rules that the tool of a run has.
    pub fn new(alloc: Global, run: &'v Value) -> Result<RunRules<'v>, AllocError>
        ensures are { IfOk result (λ rules. AreIndexesOf rules (view run.now)) }
    {
        let driver = RuleNumbers::new(alloc, rules_of(tool_part(run, None)))?;
        let mut extensions = Vec::new(alloc);
        for extension in extensions_of(run) {
            extensions.push(RuleNumbers::new(alloc, rules_of(Some(extension)))?)?;
        }
        Ok(RunRules { driver, extensions })
    }

    /// The number of the rule that an id names, of the extension with this number, or else of the driver.
    pub fn number(&self, extension: Option<u64>, id: &str) -> Option<usize>
        ensures value { (run : Data) → AreIndexesOf self.now run → result
            ≡ named (items_in (codes "rules") (spec.tool_part run extension)) id.now }
    {
        match extension {
            Some(index) => self.number_in(index, id),
            None => self.driver.number(id),
        }
    }

    /// The number of the rule that an id names, of the extension with this number.
    fn number_in(&self, extension: u64, id: &str) -> Option<usize>
        ensures value { (run : Data) → AreIndexesOf self.now run → result
            ≡ named (items_in (codes "rules") (spec.tool_part run (Some extension))) id.now }
    {
        match self.extension(extension) {
            Some(numbers) => numbers.number(id),
            None => None,
        }
    }

    /// The numbers of the rules of the extension with this number.
    fn extension(&self, number: u64) -> Option<&RuleNumbers<'v>>
        ensures value { option_copied result ≡ slice_get self.now.extensions.items number }
    {
        self.extensions.get(number as usize)
    }
}

impl<'v> RuleNumbers<'v> {
    /// The numbers of these rules.
    fn new(alloc: Global, rules: &'v [Value]) -> Result<RuleNumbers<'v>, AllocError>
        ensures are { IfOk result (λ numbers. IsIndexOf numbers (map view rules.now)) }
    {
        let mut numbers = RuleNumbers {
            by_id: BTreeMap::new(alloc),
            lengths: BTreeSet::new(alloc),
        };
        for (number, rule) in rules.iter().enumerate() {
            numbers.add(number, rule)?;
        }
        Ok(numbers)
    }

    /// Adds the number of a rule, unless it has no id, or the number of another is known by it.
    fn add(&mut self, number: usize, rule: &'v Value) -> Result<(), AllocError>
        requires measured { IsMeasured self.old }
        ensures measured { OnOk result (IsMeasured self.new) }
        ensures added { (id : List ℕ) → OnOk result (indexed self.new id
            ≡ option_or (indexed self.old id) (if has_id id (view rule.now) then Some number else None)) }
    {
        match self.new_id(rule) {
            Some(id) => self.put(number, id),
            None => Ok(()),
        }
    }

    /// The id of a rule, if it has one that isn't empty and isn't known.
    fn new_id(&self, rule: &'v Value) -> Option<&'v str>
        ensures value { lent_text result
            ≡ option_and_then (index.if_new self.now) (text_field (codes "id") (view rule.now)) }
    {
        let id = text_field(rule, "id")?;
        if id.is_empty() || self.first_number(id).is_some() {
            None
        } else {
            Some(id)
        }
    }

    /// Puts a number under an id.
    fn put(&mut self, number: usize, id: &'v str) -> Result<(), AllocError>
        requires measured { IsMeasured self.old }
        ensures measured { OnOk result (IsMeasured self.new) }
        ensures put { (other : List ℕ) → OnOk result (indexed self.new other
            ≡ if bytes_eq id.now other then Some number else indexed self.old other) }
    {
        self.lengths.insert(id.len())?;
        self.by_id.insert(id, number)?;
        Ok(())
    }

    /// The number of the first rule of this id, or else of the longest id of which this one is a part, as `CA1000` of
    /// `CA1000/1`.
    fn number(&self, id: &str) -> Option<usize>
        ensures value { (rules : List Data) → IsIndexOf self.now rules → result ≡ named rules id.now }
    {
        let mut part = id;
        for _count in 0..id.len() {
            if let Some(number) = self.first_number(part) {
                return Some(number);
            }
            let Some(next) = shorter(part) else {
                return None;
            };
            part = next;
        }
        None
    }

    /// The number of the first rule of just this id.
    fn first_number(&self, id: &str) -> Option<usize>
        ensures value { result ≡ indexed self.now id.now }
    {
        if self.lengths.contains(&id.len()) {
            self.by_id.get(id).copied()
        } else {
            None
        }
    }
}

/// A name without its last part.
fn shorter(name: &str) -> Option<&str>
    ensures value { lent_text result ≡ spec.shorter name.now }
{
    match parted_last(name, "/") {
        Some((before, _)) => Some(before),
        None => None,
    }
}
