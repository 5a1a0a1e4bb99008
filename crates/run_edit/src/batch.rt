//! The lines of a turn that were decided and wait for their answers.
ghost use Rattle.std.specs.Prelude.{◌≡◌, ◌++◌, ◌∷◌, [], ◌≤◌, ℕ, List, None, length, false, true, take};
ghost use Rattle.store_project.specs.Groups.{IsGroupFor};
ghost use Rattle.run_edit.specs.Groups.{Waits};
ghost use Rattle.run_edit.specs.Queries.{query_of};

use crate::outcomes::Outcomes;
use crate::query::read_query;
use store_disk::Disk;
use store_project::{Project, ProjectGroup};

/// Lines that were decided one after another: the group that has the accepted ones, and the outcome of each.
#[derive(Drop)]
pub struct Batch {
    pub group: ProjectGroup,
    pub outcomes: Outcomes,
}

impl Batch {
    ghost use Rattle.run_edit.specs.Groups.{IsWaiting};

    /// No line, over a group.
    pub fn over(group: ProjectGroup) -> Batch
        ensures group { result.group ≡ group }
        ensures outcomes { result.outcomes ≡ [] }
    {
        let outcomes = Outcomes::new();
        Batch { group, outcomes }
    }

    // Decides a line behind the others, if there is room for it and its outcome.
    fn stage<D: Disk>(&mut self, project: &Project<D>, line: &[u8]) -> bool
        requires group { IsGroupFor project.now self.old.group }
        requires command { query_of line.now ≡ None }
        ensures waits { (lines : List (List ℕ)) (whole : List ℕ)
            → IsWaiting project.now self.old lines → line.now ≡ take 257 whole → result ≡ true
            → IsWaiting project.now self.new (lines ++ whole ∷ []) }
        ensures same { (lines : List (List ℕ)) → IsWaiting project.now self.old lines
            → result ≡ false → IsWaiting project.now self.new lines }
    {
        if self.outcomes.is_full() {
            return false;
        }
        match project.stage(&mut self.group, line) {
            Ok(Some(number)) => {
                self.outcomes.push(Ok(number));
                true
            }
            Ok(None) => false,
            Err(error) => {
                self.outcomes.push(Err(error.code()));
                true
            }
        }
    }
}

// Begins a batch if no line waits, and there is memory for one.
fn begin<D: Disk>(project: &Project<D>, waiting: &mut Option<Batch>)
    ensures { (lines : List (List ℕ)) → Waits project.now waiting.old lines
        → Waits project.now waiting.new lines }
{
    if waiting.is_some() {
        return;
    }
    if let Ok(group) = project.begin_group() {
        *waiting = Some(Batch::over(group));
    }
}

// Decides a line that is no query behind those that wait. It doesn't wait if there is no memory for a group, or no room
// for the line.
fn wait<D: Disk>(project: &Project<D>, waiting: &mut Option<Batch>, line: &[u8]) -> bool
    requires waiting { (lines : List (List ℕ)) × Waits project.now waiting.old lines }
    requires command { query_of line.now ≡ None }
    ensures waits { (lines : List (List ℕ)) (whole : List ℕ)
        → Waits project.now waiting.old lines → line.now ≡ take 257 whole → result ≡ true
        → Waits project.now waiting.new (lines ++ whole ∷ []) }
    ensures same { (lines : List (List ℕ)) → Waits project.now waiting.old lines
        → result ≡ false → Waits project.now waiting.new lines }
{
    begin(project, waiting);
    match waiting {
        Some(batch) => batch.stage(project, line),
        None => false,
    }
}

/// Lets a line wait that isn't a query, if it may wait and can.
pub fn hold<D: Disk>(
    project: &Project<D>,
    waiting: &mut Option<Batch>,
    line: &[u8],
    may_wait: bool,
) -> bool
    requires { (lines : List (List ℕ)) × Waits project.now waiting.old lines }
    ensures waits { (lines : List (List ℕ)) (whole : List ℕ)
        → Waits project.now waiting.old lines → line.now ≡ take 257 whole → result ≡ true
        → Waits project.now waiting.new (lines ++ whole ∷ []) }
    ensures same { (lines : List (List ℕ)) → Waits project.now waiting.old lines
        → result ≡ false → Waits project.now waiting.new lines }
{
    if !may_wait {
        return false;
    }
    match read_query(line) {
        Some(_) => false,
        None => wait(project, waiting, line),
    }
}

/// Whether so many lines wait as may.
pub fn is_full(waiting: &Option<Batch>) -> bool {
    match waiting {
        Some(batch) => batch.outcomes.is_full(),
        None => false,
    }
}
