// The lines of one template.
ghost use Rattle.std.specs.Prelude.{◌≡◌};
ghost use Rattle.layout.specs.Held.{in_use};
ghost use Rattle.pasting.specs.Templates.{template_lines};

use layout::Table;
use rows::{TemplateRow, TreeLine};

// A template's lines stand among those of the others, so they are copied into a tree of their own.
pub fn template_lines(templates: &Table<TemplateRow, 256>, template: u32) -> Table<TreeLine, 256>
    ensures answer { in_use result ≡ template_lines (in_use templates.now) template }
{
    let mut lines = Table::default();
    for row in templates.in_use() {
        if row.template == template {
            let _room = lines.push(row.line);
        }
    }
    lines
}
