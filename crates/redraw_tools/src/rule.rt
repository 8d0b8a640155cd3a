//! The rule that a result breaks, and how severe that is.
ghost use Rattle.std.specs.Prelude.{◌≡◌, [], IfOk, codes, option_and_then, option_map, string_bytes, unwrap_or};
ghost use Rattle.std.specs.List.{slice_get};
ghost use Rattle.std.specs.Option.{option_or};
ghost use Rattle.serde_json.specs.Data.{Data};
ghost use Rattle.serde_json.specs.View.{view};
ghost use Rattle.json_lines.specs.Field.{lent_text};
ghost use Rattle.json_lines.specs.Lenient.{field_in, text_in};
ghost use Rattle.redraw_tools.specs.Rule as spec;
ghost use Rattle.redraw_tools.specs.Rule.{items_in, level_of, name_of, named, part_data, rule_data};
ghost use Rattle.redraw_tools.specs.RuleIndex.{AreIndexesOf};

use crate::cut::are_digits;
use crate::expectation::SarifExpectation;
use crate::parts;
use crate::rules::{RunRules, rules_of, tool_part};
use json_lines::lenient::{LenientNode, Problems, field_at, text_at};
use redraw_report::diagnostic::{Code, Severity};
use serde_json::Value;
use std::alloc::{AllocError, Global};

/// The rule of a result, and the part of the tool that has it.
#[derive(Clone, Copy)]
pub struct SarifRule<'v> {
    /// The tool's driver or one of its extensions.
    component: Option<&'v Value>,
    /// The rule, where the component has it.
    rule: Option<&'v Value>,
}

impl<'v> SarifRule<'v> {
    /// A text of the rule by its name.
    fn text(&self, name: &str) -> Option<&'v str>
        ensures value { lent_text result ≡ text_in name.now (rule_data self.now) }
    {
        text_at(self.rule, name)
    }

    /// The text of the rule's, or else of the component's, message strings by this name.
    pub fn message_string(&self, id: &str) -> Option<&'v str>
        ensures value { lent_text result ≡ spec.message_string (part_data self.now) (rule_data self.now) id.now }
    {
        let own = text_of_string(field_at(self.rule, "messageStrings"), id);
        own.or(text_of_string(field_at(self.component, "globalMessageStrings"), id))
    }

    /// What the rule says of itself in short.
    pub fn description(&self) -> Option<&'v str>
        ensures value { lent_text result ≡ text_in (codes "text")
            (field_in (codes "shortDescription") (rule_data self.now)) }
    {
        text_at(field_at(self.rule, "shortDescription"), "text")
    }

    /// The severity of results that don't say theirs.
    fn severity(&self) -> Option<Severity>
        ensures value { result ≡ spec.rule_level (rule_data self.now) }
    {
        let configuration = field_at(self.rule, "defaultConfiguration");
        severity_by_name(text_at(configuration, "level")?)
    }
}

/// The text of the message string of this id.
fn text_of_string<'v>(strings: Option<&'v Value>, id: &str) -> Option<&'v str>
    ensures value { lent_text result
        ≡ text_in (codes "text") (field_in id.now (option_map (λ v. view v.now) strings.entry)) }
{
    text_at(field_at(strings, id), "text")
}

/// The rule of a result of this run: by its number, or else by its id. Where it is the number of no rule, that is
/// reported.
pub fn rule_of<'v>(
    rules: &RunRules<'v>,
    run: &'v Value,
    reported: &LenientNode<'_, '_>,
    problems: &mut Problems,
) -> SarifRule<'v>
    requires indexed { AreIndexesOf rules.now (view run.now) }
    ensures rule { rule_data result ≡ spec.rule_in (view run.now) (view reported.now.value.now) }
    ensures part { part_data result ≡ spec.part_with_rule (view run.now) (view reported.now.value.now) }
{
    let index = index_of(reported, problems);
    let component = tool_part(run, extension_of(reported.value));
    let number = number_of(index, rules, reported.value);
    let rule = rule_at(component, number);
    if index.is_some() && rule.is_none() {
        reported.tell(problems, SarifExpectation::Rule);
    }
    SarifRule { component, rule }
}

/// The rule of a part of the tool with this number.
fn rule_at<'v>(part: Option<&'v Value>, number: Option<usize>) -> Option<&'v Value>
    ensures value { option_map (λ v. view v.now) result
        ≡ option_and_then (slice_get (items_in (codes "rules") (option_map (λ v. view v.now) part.entry))) number }
{
    match number {
        Some(number) => rules_of(part).get(number),
        None => None,
    }
}

/// The number of a result's rule: this one, which it says, else that of the rule with its id.
fn number_of(index: Option<usize>, rules: &RunRules<'_>, reported: &Value) -> Option<usize>
    ensures value { (run : Data) → AreIndexesOf rules.now run → result ≡ option_or index
        (named (items_in (codes "rules") (spec.part_with_rule run (view reported.now)))
        (unwrap_or (spec.own_id (view reported.now)) [])) }
{
    match index {
        Some(index) => Some(index),
        None => rules.number(extension_of(reported), id_of(reported).unwrap_or("")),
    }
}

/// The number of the rule that a result names.
fn index_of(reported: &LenientNode<'_, '_>, problems: &mut Problems) -> Option<usize>
    ensures value { result ≡ spec.own_number (view reported.now.value.now) }
{
    let own = reported.number("ruleIndex", problems);
    match reported.object("rule", problems) {
        Some(reference) => reference.number("index", problems).or(own),
        None => own,
    }
}

/// The number of the extension that a result names.
fn extension_of(reported: &Value) -> Option<u64>
    ensures value { result ≡ spec.extension_in (view reported.now) }
{
    let component = field_at(reported.get("rule"), "toolComponent");
    field_at(component, "index").and_then(Value::as_u64)
}

/// The id of the rule as a result has it.
fn id_of(reported: &Value) -> Option<&str>
    ensures value { lent_text result ≡ spec.own_id (view reported.now) }
{
    match reported.get("ruleId") {
        Some(id) => id.as_str(),
        None => text_at(reported.get("rule"), "id"),
    }
}

/// The name of a result's rule, with the address of its page. A name that says nothing is none.
pub fn code_of<'v>(
    alloc: Global,
    reported: &'v Value,
    rule: &SarifRule<'v>,
    severity: Severity,
) -> Result<Option<Code>, AllocError>
    ensures value { IfOk result (λ code. spec.code_view code
        ≡ name_of severity (view reported.now) (rule_data rule.now)) }
{
    parts::code_of(
        alloc,
        said_name(reported, rule, severity),
        rule.text("helpUri"),
    )
}

/// The name of a result's rule, if it says something.
fn said_name<'v>(reported: &'v Value, rule: &SarifRule<'v>, severity: Severity) -> Option<&'v str>
    ensures value { lent_text result ≡ spec.said_name severity (view reported.now) (rule_data rule.now) }
{
    let name = any_name(reported, rule)?;
    if says_nothing(name, severity) {
        None
    } else {
        Some(name)
    }
}

/// The name of a result's rule: the result's own, else the rule's.
fn any_name<'v>(reported: &'v Value, rule: &SarifRule<'v>) -> Option<&'v str>
    ensures value { lent_text result ≡ spec.any_name (view reported.now) (rule_data rule.now) }
{
    match id_of(reported) {
        Some(id) => Some(id),
        None => rule.text("id"),
    }
}

/// Whether a name says nothing of a result: it is the name of its level, as GCC gives those without an option, or a
/// number alone, as clang counts its rules.
fn says_nothing(id: &str, severity: Severity) -> bool
    ensures value { result ≡ spec.says_nothing id.now severity }
{
    is_number(id) || is_level(id, severity)
}

/// Whether a name is that of a level.
fn is_level(id: &str, severity: Severity) -> bool
    ensures value { result ≡ spec.is_level id.now severity }
{
    match severity {
        Severity::Error => id == "error",
        Severity::Warning => id == "warning",
        Severity::Note => id == "note",
        _ => false,
    }
}

/// Whether a name is nothing but digits.
fn is_number(id: &str) -> bool
    ensures value { result ≡ spec.is_number id.now }
{
    are_digits(id.as_bytes())
}

/// How severe a result is: by its level, else a note where it isn't of the kind `fail`, else by its rule, else a
/// warning.
pub fn severity_of(
    reported: &LenientNode<'_, '_>,
    rule: &SarifRule<'_>,
    problems: &mut Problems,
) -> Severity
    ensures value { result ≡ level_of (view reported.now.value.now) (rule_data rule.now) }
{
    match own_severity(reported, problems) {
        Some(severity) => severity,
        None => other_severity(reported, rule, problems),
    }
}

/// The level that a result says; none for a wrong one, which is reported.
fn own_severity(reported: &LenientNode<'_, '_>, problems: &mut Problems) -> Option<Severity>
    ensures value { result ≡ spec.own_level (view reported.now.value.now) }
{
    let level = reported.text("level", problems)?;
    let severity = severity_by_name(level);
    if severity.is_none() {
        reported.tell_field("level", problems, SarifExpectation::Level);
    }
    severity
}

/// The level of a result that says none.
fn other_severity(
    reported: &LenientNode<'_, '_>,
    rule: &SarifRule<'_>,
    problems: &mut Problems,
) -> Severity
    ensures value { result ≡ spec.other_level (view reported.now.value.now) (rule_data rule.now) }
{
    match reported.text("kind", problems) {
        Some(kind) if kind != "fail" => Severity::Note,
        _ => rule.severity().unwrap_or(Severity::Warning),
    }
}

/// The severity of a level of this name.
fn severity_by_name(level: &str) -> Option<Severity>
    ensures value { result ≡ spec.level_named level.now }
{
    match level {
        "error" => Some(Severity::Error),
        "warning" => Some(Severity::Warning),
        "note" | "none" => Some(Severity::Note),
        _ => None,
    }
}
