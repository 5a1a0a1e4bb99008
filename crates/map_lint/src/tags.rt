//! Which tags the lines of a map have.
ghost use Rattle.std.specs.Prelude.{IfOk};
ghost use Rattle.map_play.specs.Tags.{MarksTags};
ghost use Rattle.map_lint.specs.Tags.{line_tag};

use crate::error::LintError;
use map_play::tag_count;
use map_tables::{Kind, Map};
use std::alloc::Global;

/// Marks the tags that a line has.
pub(crate) fn tags_of_lines(alloc: Global, map: &Map) -> Result<Vec<bool>, LintError>
    ensures { IfOk result (λ tags. MarksTags line_tag map.now.tables.lines tags.items) }
{
    let mut tags = vec![in alloc; false; tag_count()]?;
    for n in 0..map.count(Kind::Line) {
        let line = map.line(n).unwrap();
        tags[usize::from(line.tag)] = true;
    }
    Ok(tags)
}
