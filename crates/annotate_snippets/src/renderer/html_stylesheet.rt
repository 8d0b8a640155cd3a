//! The colours of the default styles for reports in HTML.

ghost use Rattle.std.specs.Prelude.{◌≢◌, [], All, None};
ghost use Rattle.snippet_grid.specs.Html.{class_of};
ghost use Rattle.snippet_style.specs.declared.role.ElementStyle.{ElementStyle};
ghost use Rattle.snippet_style.specs.declared.role.LevelInner.{LevelInner};
ghost use Rattle.annotate_snippets.specs.HtmlStylesheet.{HasRules, IsClassOfRole, classes_named};

/// A stylesheet for what [`Renderer::render_html`](crate::Renderer::render_html) gives: the default styles in colours
/// that can be read on a light page, and on a dark one where the reader prefers that. It goes into a `<style>`, and
/// may be changed rule by rule: each class has one.
pub const HTML_STYLESHEET: &str = ".snippet-error { color: #b3001b; font-weight: bold; }
.snippet-warning { color: #7a5b00; font-weight: bold; }
.snippet-info { color: #0a4bb5; font-weight: bold; }
.snippet-note { color: #0b6b1f; font-weight: bold; }
.snippet-help { color: #00677a; font-weight: bold; }
.snippet-line-number { color: #0a4bb5; font-weight: bold; }
.snippet-emphasis { font-weight: bold; }
.snippet-context { color: #0a4bb5; font-weight: bold; }
.snippet-addition { color: #0b6b1f; }
.snippet-removal { color: #b3001b; }
@media (prefers-color-scheme: dark) {
  .snippet-error { color: #ff7b72; }
  .snippet-warning { color: #e3b341; }
  .snippet-info { color: #79b8ff; }
  .snippet-note { color: #7ee787; }
  .snippet-help { color: #76e3ea; }
  .snippet-line-number { color: #79b8ff; }
  .snippet-context { color: #79b8ff; }
  .snippet-addition { color: #7ee787; }
  .snippet-removal { color: #ff7b72; }
}
";

/// What a stylesheet has to say beside [`HTML_STYLESHEET`] for what
/// [`Renderer::render_html_page`](crate::Renderer::render_html_page) gives: the words stand beside the drawing for who
/// listens, and aren't seen.
pub const HTML_PAGE_STYLESHEET: &str = ".snippet-text {
  position: absolute;
  width: 1px;
  height: 1px;
  margin: 0;
  overflow: hidden;
  clip-path: inset(50%);
}
";

/// Proves, and does nothing else, that the stylesheet has a rule for the class of each role, and for no other class.
fn prove_classes()
    ensures each { (level : LevelInner) → (role : ElementStyle) → class_of level role ≢ []
        → HasRules HTML_STYLESHEET.now (class_of level role) }
    ensures no_other { All IsClassOfRole (classes_named None HTML_STYLESHEET.now) }
{}
