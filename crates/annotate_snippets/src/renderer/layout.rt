//! Where the parts of a group's rows stand.
ghost use Rattle.std.specs.Prelude.{◌≡◌, ◌≤◌, ◌||◌, if◌then◌else◌};
ghost use Rattle.annotate_snippets.specs.ElementRoom.{code_after};
ghost use Rattle.snippet_style.specs.Bounds.{IsDepth};

use crate::renderer::Renderer;
use snippet_grid::Layout;

/// The layout of a group in a gutter of this width, where this many bars stand side by side.
///
/// ```text
///     1 |   f(a,      one bar: the code stands two cells farther right
///       |  __^
///     2 | |  b)
///       | |___^
/// ```
pub fn layout_for(renderer: &Renderer, gutter: usize, depth: usize) -> Layout
    requires gutter { gutter ≤ 20 }
    requires depth { IsDepth depth }
    ensures gutter { result.gutter ≡ gutter }
    ensures code { result.code ≡ code_after gutter depth }
    ensures decor { result.decor ≡ renderer.now.decor_style }
    ensures label_lines { result.label_lines ≡ (renderer.now.label_lines || renderer.now.wrap) }
    ensures label_end { result.label_end ≡ (if renderer.now.wrap then renderer.now.term_width else 0) }
{
    let code = if depth == 0 {
        gutter + 3
    } else {
        gutter + 3 + depth + 1
    };
    Layout {
        gutter,
        code,
        decor: renderer.decor_style,
        label_lines: renderer.label_lines || renderer.wrap,
        label_end: if renderer.wrap {
            renderer.term_width
        } else {
            0
        },
    }
}
