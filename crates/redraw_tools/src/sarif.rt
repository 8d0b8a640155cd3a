//! The runs of a log, and the findings of their results.
ghost use Rattle.std.specs.Prelude.{◌≡◌, IfOk, IfSome, MatchOption, None, codes, map, string_bytes};
ghost use Rattle.std.proofs.Props.{props};
ghost use Rattle.serde_json.specs.View.{view};
ghost use Rattle.serde_json.specs.Find.{as_object};
ghost use Rattle.json_lines.specs.Lenient.{list_at, object_at};
ghost use Rattle.redraw_tools.specs.Message as message;
ghost use Rattle.redraw_tools.specs.Message.{description};
ghost use Rattle.redraw_tools.specs.Places.{ArePlaces};
ghost use Rattle.redraw_tools.specs.Fixes.{remarks};
ghost use Rattle.redraw_tools.specs.Result.{ArePlacesAndSteps, IsAdvised, IsResultOf, IsTold};
ghost use Rattle.redraw_tools.specs.Rule.{part_data, part_with_rule, rule_data, rule_in};
ghost use Rattle.redraw_tools.specs.RuleIndex.{AreIndexesOf};
ghost use Rattle.redraw_tools.specs.Units as units;

use crate::fixes::add_fixes;
use crate::flow::{Told, add_steps};
use crate::location::{Context, add_annotations, add_spans};
use crate::message::{MOST_BYTES, text_in};
use crate::primary::choose_primary;
use crate::rule::{SarifRule, code_of, rule_of, severity_of};
use crate::rules::RunRules;
use crate::units::{result_unit, run_unit};
use crate::uri::bases_of;
use json_lines::lenient::{LenientNode, List, Problems};
use redraw_report::diagnostic::{Diagnostic, FileSpan, Unit};
use serde_json::Value;
use std::alloc::{AllocError, Global};
use std::cell::Cell;

/// What stands where a result says nothing, and its rule doesn't either.
const NO_MESSAGE: &str = "the log has no message";

/// A run of a log.
#[derive(Drop)]
pub struct SarifRun<'v, 'p> {
    node: LenientNode<'v, 'p>,
    /// What its columns count.
    unit: Unit,
    /// The numbers of its rules; none where memory was refused for them.
    rules: Option<RunRules<'v>>,
    ghost indexed: { IfSome rules (λ r. AreIndexesOf r (view node.value.now)) } by { Prim.hlevel props },
}

impl<'v, 'p> SarifRun<'v, 'p> {
    /// The run that this value describes, whose columns count what is asked for, if that is. A value that is no object
    /// is a run without results, and is reported. So is that memory was refused.
    pub fn new(
        alloc: Global,
        node: LenientNode<'v, 'p>,
        columns: Option<Unit>,
        problems: &mut Problems,
    ) -> SarifRun<'v, 'p>
        ensures unit { result.unit ≡ units.run_unit columns (view node.entry.value.now) }
        ensures node { result.node ≡ node.entry }
    {
        let _is_told = node.is_object(problems);
        let unit = run_unit(columns, &node, problems);
        let rules = rules_of(alloc, node.value, problems);
        SarifRun { node, unit, rules }
    }

    /// The results of the run.
    pub fn results(&self, problems: &mut Problems) -> List<'v, '_>
        ensures value { map view result.items.now ≡ list_at (codes "results") (view self.now.node.value.now) }
    {
        self.node.list("results", problems)
    }

    /// What a result of the run reports; `None` for a value that is no object, which is reported as wrong.
    pub fn finding(
        &self,
        alloc: Global,
        reported: &LenientNode<'_, '_>,
        problems: &mut Problems,
    ) -> Result<Option<Diagnostic>, AllocError>
        ensures is { IfOk result (λ found. MatchOption found (as_object (view reported.now.value.now) ≡ None)
            (IsResultOf (view self.now.node.value.now) self.now.unit (view reported.now.value.now))) }
    {
        if !reported.is_object(problems) {
            return Ok(None);
        }
        let Some(rules) = &self.rules else {
            return Err(AllocError);
        };
        let room = Cell::new(MOST_BYTES);
        let context = Context {
            alloc,
            run: self.node.value,
            rule: rule_of(rules, self.node.value, reported, problems),
            unit: result_unit(self.unit, reported.value),
            room: &room,
        };
        Ok(Some(diagnostic_of(reported, &context, problems)?))
    }
}

/// The numbers of a run's rules; none where memory is refused, which is reported.
fn rules_of<'v>(alloc: Global, run: &'v Value, problems: &mut Problems) -> Option<RunRules<'v>>
    ensures indexed { IfSome result (λ r. AreIndexesOf r (view run.now)) }
{
    match RunRules::new(alloc, run) {
        Ok(rules) => Some(rules),
        Err(AllocError) => {
            problems.is_refused = true;
            None
        }
    }
}

/// What a result reports.
fn diagnostic_of(
    reported: &LenientNode<'_, '_>,
    context: &Context<'_, '_>,
    problems: &mut Problems,
) -> Result<Diagnostic, AllocError>
    requires rule { rule_data context.now.rule ≡ rule_in (view context.now.run.now) (view reported.now.value.now) }
    requires part { part_data context.now.rule
        ≡ part_with_rule (view context.now.run.now) (view reported.now.value.now) }
    ensures is { IfOk result (IsTold (view context.now.run.now) context.now.unit (view reported.now.value.now)) }
{
    let severity = severity_of(reported, &context.rule, problems);
    let message = message_of(reported, context, problems)?;
    let code = code_of(context.alloc, reported.value, &context.rule, severity)?;
    let told = told_of(reported, context, problems)?;
    Ok(Diagnostic {
        severity,
        message,
        code,
        spans: told.spans,
        children: told.children,
        homes: bases_of(context.alloc, context.run)?,
        shows_gone: true,
    })
}

/// The message of a result; where it has none, what its rule says of itself.
fn message_of(
    reported: &LenientNode<'_, '_>,
    context: &Context<'_, '_>,
    problems: &mut Problems,
) -> Result<String, AllocError>
    ensures is { IfOk result (λ text. string_bytes text ≡ message.message_of (part_data context.now.rule)
        (rule_data context.now.rule) (object_at (codes "message") (view reported.now.value.now))) }
{
    match text_in(reported, "message", context, problems)? {
        Some(text) => Ok(text),
        None => String::from_str(context.alloc, description_of(&context.rule)),
    }
}

/// What a rule says of itself, or that there is no message.
fn description_of<'v>(rule: &SarifRule<'v>) -> &'v str
    ensures value { result.now ≡ description (rule_data rule.now) }
{
    rule.description().unwrap_or(NO_MESSAGE)
}

/// The places of a result, and what is said beside its message: of the steps that lead to it, and of its fixes.
fn told_of(
    reported: &LenientNode<'_, '_>,
    context: &Context<'_, '_>,
    problems: &mut Problems,
) -> Result<Told, AllocError>
    ensures are { IfOk result (λ told. ArePlacesAndSteps (view context.now.run.now) context.now.unit
        (part_data context.now.rule) (rule_data context.now.rule) (view reported.now.value.now) told.spans.items) }
    ensures advised { IfOk result (λ told. IsAdvised (view context.now.run.now) context.now.unit
        (part_data context.now.rule) (rule_data context.now.rule) (view reported.now.value.now)
        (remarks told.children)) }
{
    let spans = spans_of(reported, context, problems)?;
    let children = Vec::new(context.alloc);
    let mut told = Told { spans, children };
    add_steps(&mut told, reported, context, problems)?;
    let fixes = reported.list("fixes", problems);
    add_fixes(&mut told.children, &fixes, context, problems)?;
    Ok(told)
}

/// The places of a result: those where it is, and those that help to see it.
fn spans_of(
    reported: &LenientNode<'_, '_>,
    context: &Context<'_, '_>,
    problems: &mut Problems,
) -> Result<Vec<FileSpan>, AllocError>
    ensures are { IfOk result (λ spans. ArePlaces (view context.now.run.now) context.now.unit
        (part_data context.now.rule) (rule_data context.now.rule) (view reported.now.value.now) spans.items) }
{
    let mut spans = Vec::new(context.alloc);
    let own = reported.list("locations", problems);
    add_spans(&mut spans, &own, context, true, problems)?;
    choose_primary(&mut spans);
    add_annotations(&mut spans, &own, context, problems)?;
    let related = reported.list("relatedLocations", problems);
    add_spans(&mut spans, &related, context, false, problems)?;
    Ok(spans)
}
