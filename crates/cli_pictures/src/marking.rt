//! The marks of a picture for the findings and warnings of a map.
ghost use Rattle.std.specs.Prelude.{◌≡◌, ◌++◌, ◌∷◌, [], List, ℕ, IfErr, IfOk, Some, map};
ghost use Rattle.map_checks.specs.Texts.{finding_text};
ghost use Rattle.map_lint.specs.Texts.{warning_text};
ghost use Rattle.cli_pictures.specs.Marking.{line_end, finding_mark, finding_place, mark_along, mark_at_vertex, marks_of, place_by_rule, said_at, warning_mark, warning_place};
ghost use Rattle.run_edit.specs.declared.error.EditorError.TheVariants.{OutOfMemory};

use lump_records::{Line, Vertex};
use map_checks::{Finding, check};
use map_lint::{Rule, Warning, Whereabouts};
use map_picture::longest_line;
use map_svg::{Mark, MarkPlace};
use map_tables::Map;
use run_edit::EditorError;
use std::alloc::Global;
use std::fmt::Display;

// The place of the vertex with the number.
fn mark_at_vertex(drawn: &Map, n: u32) -> MarkPlace
    ensures { result ≡ mark_at_vertex drawn.now.tables n }
{
    match drawn.vertex(n) {
        Some(vertex) => MarkPlace::At(vertex),
        None => MarkPlace::Corner,
    }
}

// The vertex with a number.
fn line_end(drawn: &Map, n: u16) -> Vertex
    ensures { result ≡ line_end drawn.now.tables n }
{
    drawn.vertex(u32::from(n)).unwrap_or(Vertex { x: 0, y: 0 })
}

// A whole line, from end to end, if there is one.
fn mark_along(drawn: &Map, found: Option<Line>) -> MarkPlace
    ensures { result ≡ mark_along drawn.now.tables found }
{
    match found {
        Some(line) => MarkPlace::Along(line_end(drawn, line.v1), line_end(drawn, line.v2)),
        None => MarkPlace::Corner,
    }
}

// The place of a finding.
fn finding_place(drawn: &Map, finding: Finding) -> MarkPlace
    ensures { result ≡ finding_place drawn.now.tables finding }
{
    match finding {
        Finding::VertexUnused(n) => mark_at_vertex(drawn, n),
        Finding::TextureMissing { line, .. } => mark_along(drawn, drawn.line(line)),
        Finding::SectorOpen { vertex, .. } => mark_at_vertex(drawn, vertex),
        Finding::SideUnused(_) => MarkPlace::Corner,
        Finding::SectorUnused(_) => MarkPlace::Corner,
        Finding::NoPlayerStart => MarkPlace::Corner,
    }
}

// The place of a warning without whereabouts.
fn place_by_rule(drawn: &Map, rule: Rule, n: u32) -> MarkPlace
    ensures { result ≡ place_by_rule drawn.now.tables rule n }
{
    match rule {
        Rule::SectorInside => mark_along(drawn, longest_line(drawn, n)),
        _ => MarkPlace::Corner,
    }
}

// The place of a warning.
fn warning_place(drawn: &Map, warning: &Warning) -> MarkPlace
    ensures { result ≡ warning_place drawn.now.tables warning.now }
{
    match warning.whereabouts {
        Whereabouts::Unplaced => place_by_rule(drawn, warning.rule, warning.number),
        Whereabouts::At(place) => MarkPlace::At(place),
        Whereabouts::Between(from, to) => MarkPlace::Along(from, to),
    }
}

// The mark at a place, with its text.
fn said_at<T: Display>(alloc: Global, place: MarkPlace, told: &T) -> Result<Mark, EditorError>
    ensures said { (text : List ℕ) → T.output told.now ≡ Some text
        → IfOk result (λ mark. said_at mark ≡ (place, text)) }
    ensures memory { IfErr result (λ e. e ≡ OutOfMemory) }
{
    match format!(in alloc; "{told}") {
        Ok(text) => Ok(Mark { place, text }),
        Err(_) => Err(EditorError::OutOfMemory),
    }
}

// Adds a mark.
fn add(mark: Mark, marks: &mut Vec<Mark>) -> Result<(), EditorError>
    ensures added { IfOk result (λ _. map said_at marks.new.items
        ≡ map said_at marks.old.items ++ said_at mark ∷ []) }
    ensures memory { IfErr result (λ e. e ≡ OutOfMemory) }
{
    match marks.push(mark) {
        Ok(()) => Ok(()),
        Err(_) => Err(EditorError::OutOfMemory),
    }
}

// Adds the mark of a finding.
fn add_finding(
    alloc: Global,
    drawn: &Map,
    finding: &Finding,
    marks: &mut Vec<Mark>,
) -> Result<(), EditorError>
    ensures added { IfOk result (λ _. map said_at marks.new.items
        ≡ map said_at marks.old.items ++ finding_mark drawn.now.tables finding.now ∷ []) }
    ensures memory { IfErr result (λ e. e ≡ OutOfMemory) }
{
    match said_at(alloc, finding_place(drawn, *finding), finding) {
        Ok(mark) => add(mark, marks),
        Err(error) => Err(error),
    }
}

// Adds the mark of a warning.
fn add_warning(
    alloc: Global,
    drawn: &Map,
    warning: &Warning,
    marks: &mut Vec<Mark>,
) -> Result<(), EditorError>
    ensures added { IfOk result (λ _. map said_at marks.new.items
        ≡ map said_at marks.old.items ++ warning_mark drawn.now.tables warning.now ∷ []) }
    ensures memory { IfErr result (λ e. e ≡ OutOfMemory) }
{
    match said_at(alloc, warning_place(drawn, warning), warning) {
        Ok(mark) => add(mark, marks),
        Err(error) => Err(error),
    }
}

// Adds the marks of findings.
fn add_findings(
    alloc: Global,
    drawn: &Map,
    found: &[Finding],
    marks: &mut Vec<Mark>,
) -> Result<(), EditorError>
    ensures added { IfOk result (λ _. map said_at marks.new.items
        ≡ map said_at marks.old.items ++ map (finding_mark drawn.now.tables) found.now) }
    ensures memory { IfErr result (λ e. e ≡ OutOfMemory) }
{
    for finding in found {
        match add_finding(alloc, drawn, finding, marks) {
            Ok(()) => {}
            Err(error) => return Err(error),
        }
    }
    Ok(())
}

// Adds the marks of warnings.
fn add_warnings(
    alloc: Global,
    drawn: &Map,
    warned: &[Warning],
    marks: &mut Vec<Mark>,
) -> Result<(), EditorError>
    ensures added { IfOk result (λ _. map said_at marks.new.items
        ≡ map said_at marks.old.items ++ map (warning_mark drawn.now.tables) warned.now) }
    ensures memory { IfErr result (λ e. e ≡ OutOfMemory) }
{
    for warning in warned {
        match add_warning(alloc, drawn, warning, marks) {
            Ok(()) => {}
            Err(error) => return Err(error),
        }
    }
    Ok(())
}

/// The marks of a map: one for each finding of `check`, then one for each warning of `map_lint`.
pub(crate) fn marks_of(alloc: Global, drawn: &Map) -> Result<Vec<Mark>, EditorError>
    ensures marked { IfOk result (λ marks. map said_at marks.items ≡ marks_of drawn.now.tables) }
    ensures memory { IfErr result (λ e. e ≡ OutOfMemory) }
{
    let Ok(found) = check(alloc, drawn) else {
        return Err(EditorError::OutOfMemory);
    };
    let Ok(warned) = map_lint::lint(alloc, drawn) else {
        return Err(EditorError::OutOfMemory);
    };
    let mut marks = Vec::new(alloc);
    match add_findings(alloc, drawn, &found, &mut marks) {
        Ok(()) => {}
        Err(error) => return Err(error),
    }
    match add_warnings(alloc, drawn, &warned, &mut marks) {
        Ok(()) => Ok(marks),
        Err(error) => Err(error),
    }
}
