//! The end of a page: how many reports there are, and the list of their files.
ghost use Rattle.std.specs.Prelude.{◌≡◌, ◌++◌, IfOk, OnOk, string_bytes};
ghost use Rattle.std.specs.List.{flat_map};
ghost use Rattle.redraw_run.specs.Index as spec;

use crate::counts::Counts;
use crate::id::add_file_class;
use crate::page::{ListedFile, Page};
use snippet_grid::push_escaped;
use snippet_text::normalize_untrusted_str;
use std::alloc::{AllocError, Global};

/// As many files can be chosen from.
const MOST_CHOICES: usize = 200;

/// What stands before all.
pub const INDEX_START: &str = "<nav id=\"index\" aria-label=\"Counts and files\">
<p>";

/// What stands before files that can be chosen: the choice of all of them.
pub const CHOICE_START: &str = "<fieldset>
<legend>Files</legend>
<ul>
<li><label><input type=\"radio\" name=\"file\" id=\"every\" checked> all</label></li>
";

/// What stands after them, before the rules by which the choice works. HTML has rules in its head alone, and SVG
/// anywhere.
pub const RULES_START: &str = "</ul>
</fieldset>
<svg aria-hidden=\"true\"><style>
";

impl Page {
    /// How many reports there are, and the files that they lie in, each with a link to its first report. From as many
    /// as can be chosen from, one may be chosen, the reports of which alone are shown then.
    pub fn index(&self, counts: Counts) -> Result<String, AllocError>
        ensures value { IfOk result (λ text. string_bytes text ≡ spec.index counts self.now.files.entries) }
    {
        let mut text = String::new(self.alloc);
        text.push_str(INDEX_START)?;
        counts.add_to(&mut text)?;
        text.push_str("</p>\n")?;
        if self.has_choice() {
            self.add_choice(&mut text)?;
        } else {
            self.add_list(&mut text)?;
        }
        text.push_str("</nav>\n")?;
        Ok(text)
    }

    /// Whether a file can be chosen: there are several, and not too many.
    fn has_choice(&self) -> bool
        ensures value { result ≡ spec.has_choice self.now.files.entries }
    {
        let count = self.files.len();
        count > 1 && count <= MOST_CHOICES
    }

    /// Adds the files with a choice, and the rules by which it works.
    fn add_choice(&self, text: &mut String) -> Result<(), AllocError>
        ensures added { OnOk result (string_bytes text.new
            ≡ string_bytes text.old ++ spec.choice self.now.files.entries) }
    {
        text.push_str(CHOICE_START)?;
        self.add_choice_rows(text)?;
        text.push_str(RULES_START)?;
        self.add_rules(text)?;
        text.push_str("</style></svg>\n")
    }

    /// Adds each file that can be chosen.
    fn add_choice_rows(&self, text: &mut String) -> Result<(), AllocError>
        ensures added { OnOk result (string_bytes text.new
            ≡ string_bytes text.old ++ flat_map (λ f. spec.choice_row (string_bytes f.0) f.1) self.now.files.entries) }
    {
        for (name, file) in &self.files {
            add_choice_row(self.alloc, name.as_str(), file, text)?;
        }
        Ok(())
    }

    /// Adds the rule of each.
    fn add_rules(&self, text: &mut String) -> Result<(), AllocError>
        ensures added { OnOk result (string_bytes text.new
            ≡ string_bytes text.old ++ flat_map (λ f. spec.rule (string_bytes f.0)) self.now.files.entries) }
    {
        for (name, _) in &self.files {
            add_rule(self.alloc, name.as_str(), text)?;
        }
        Ok(())
    }

    /// Adds the files without a choice.
    fn add_list(&self, text: &mut String) -> Result<(), AllocError>
        ensures added { OnOk result (string_bytes text.new
            ≡ string_bytes text.old ++ spec.plain_list self.now.files.entries) }
    {
        text.push_str("<ul>\n")?;
        self.add_rows(text)?;
        text.push_str("</ul>\n")
    }

    /// Adds each of them.
    fn add_rows(&self, text: &mut String) -> Result<(), AllocError>
        ensures added { OnOk result (string_bytes text.new
            ≡ string_bytes text.old ++ flat_map (λ f. spec.row (string_bytes f.0) f.1) self.now.files.entries) }
    {
        for (name, file) in &self.files {
            add_row(self.alloc, name.as_str(), file, text)?;
        }
        Ok(())
    }
}

/// Adds a file that can't be chosen.
fn add_row(
    alloc: Global,
    name: &str,
    file: &ListedFile,
    text: &mut String,
) -> Result<(), AllocError>
    ensures added { OnOk result (string_bytes text.new ≡ string_bytes text.old ++ spec.row name.now file.now) }
{
    text.push_str("<li>")?;
    add_file(alloc, name, file, text)?;
    text.push_str("</li>\n")
}

/// Adds a file that can be chosen.
fn add_choice_row(
    alloc: Global,
    name: &str,
    file: &ListedFile,
    text: &mut String,
) -> Result<(), AllocError>
    ensures added { OnOk result (string_bytes text.new
        ≡ string_bytes text.old ++ spec.choice_row name.now file.now) }
{
    text.push_str("<li><label><input type=\"radio\" name=\"file\" id=\"")?;
    add_file_class(alloc, name, text)?;
    text.push_str("\"> ")?;
    add_file(alloc, name, file, text)?;
    text.push_str("</label></li>\n")
}

/// Adds a file: its name, which links to its first report, and how many there are.
fn add_file(
    alloc: Global,
    name: &str,
    file: &ListedFile,
    text: &mut String,
) -> Result<(), AllocError>
    ensures added { OnOk result (string_bytes text.new
        ≡ string_bytes text.old ++ spec.file_link name.now file.now) }
{
    let shown = normalize_untrusted_str(alloc, name)?;
    text.push_str("<a href=\"#")?;
    file.first.add_to(alloc, text)?;
    text.push_str("\">")?;
    push_escaped(text, shown.as_str())?;
    text.push_str("</a>: ")?;
    file.counts.add_to(text)
}

/// Adds the rule that hides the reports of other files where this one is chosen.
fn add_rule(alloc: Global, name: &str, text: &mut String) -> Result<(), AllocError>
    ensures added { OnOk result (string_bytes text.new ≡ string_bytes text.old ++ spec.rule name.now) }
{
    text.push_str("body:has(#")?;
    add_file_class(alloc, name, text)?;
    text.push_str(":checked) article:not(.")?;
    add_file_class(alloc, name, text)?;
    text.push_str(") { display: none; }\n")
}
