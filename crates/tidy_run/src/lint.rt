//! Looking through a source by rules.

ghost use Rattle.std.specs.Prelude.{◌≡◌, ◌<◌, ◌≤◌, All, IfOk, map};
ghost use Rattle.tidy_run.specs.Findings.{AreInside, finding_of, findings_of};

use crate::rule::{Edit, Rule};
use std::alloc::{AllocError, Global};

/// What a rule finds in a source.
fn findings(alloc: Global, rule: &dyn Rule, source: &str) -> Result<Vec<Edit>, AllocError>
    ensures value { IfOk result (λ found. map finding_of found.items
        ≡ findings_of (finds rule.now source.now) source.now) }
    ensures inside { IfOk result (λ found. AreInside source.now 0 (map finding_of found.items)) }
{
    let mut found = Vec::new(alloc);
    let mut from = 0;
    while let Some(edit) = rule.find(source, from) {
        let last = edit.span.is_empty();
        from = edit.span.end;
        found.push(edit)?;
        if last {
            break;
        }
    }
    Ok(found)
}

/// The findings of some rules in a source: each rule's in order, in the order of the rules.
pub fn lint(
    alloc: Global,
    rules: &[Box<dyn Rule>],
    source: &str,
) -> Result<Vec<Vec<Edit>>, AllocError>
    ensures value { IfOk result (λ all. map (λ edits. map finding_of edits.items) all.items
        ≡ map (λ rule. findings_of (finds rule source.now) source.now) rules.now) }
    // Each is inside the source, and none begins before the end of the one before it.
    ensures inside { IfOk result (λ all. All (λ edits. AreInside source.now 0 (map finding_of edits.items)) all.items) }
{
    let mut all = Vec::new(alloc);
    for rule in rules {
        all.push(box_findings(alloc, rule, source)?)?;
    }
    Ok(all)
}

/// What a rule in a box finds in a source.
fn box_findings(alloc: Global, rule: &Box<dyn Rule>, source: &str) -> Result<Vec<Edit>, AllocError>
    ensures value { IfOk result (λ found. map finding_of found.items
        ≡ findings_of (finds rule.now source.now) source.now) }
    ensures inside { IfOk result (λ found. AreInside source.now 0 (map finding_of found.items)) }
{
    findings(alloc, rule.as_ref(), source)
}
