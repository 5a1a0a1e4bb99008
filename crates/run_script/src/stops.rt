//! A drawing onto a project that is stopped at any moment.
ghost use Rattle.std.specs.Prelude.{◌≡◌, ℕ, Bool, List, Option, Result, Ok, Err, false};
ghost use Rattle.store_project.specs.Calls.{AllMade, ProjectCall};
ghost use Rattle.store_project.specs.Sessions.{Creates};
ghost use Rattle.store_project.specs.States.{State};
ghost use Rattle.run_canvas.specs.Canvases.{project_canvas};
ghost use Rattle.run_script.specs.Drawn.{IsScriptDrawn};
ghost use Rattle.run_script.specs.Shaped.{DrawsShape};
ghost use Rattle.run_script.specs.Stopped.{HoldsAtMoments};
ghost use Rattle.run_script.specs.Whole.{IsDrawnWhole, IsRefusedWhole};
ghost use Rattle.run_canvas.specs.Waiting.{Drawing, first_drawing};
ghost use Rattle.map_blocks.specs.declared.stop.Stop.{Stop};
ghost use Rattle.run_canvas.specs.declared.error.ScriptError.{ScriptError};

use store_disk::Disk;
use store_project::hold_each_acknowledged;

/// By the contract of `draw`, a drawing onto a project is a list of calls of `put`, `apply` and
/// `checkpoint`. So a session may hold
/// drawings beside other calls and runs, as `hold_each_acknowledged` requires. If a drawing onto a new project is
/// stopped before or within any write, each image stands for the map of a prefix of the accepted commands that holds
/// every acknowledged one, and that is what `open` gives. The prefix has all commands of a group or none. The body only
/// cites the law of sessions: the contract is a law.
pub fn drawings_hold_acknowledged<D: Disk>()
    ensures calls { (first : State D) (last : Drawing D) (verbose : Bool)
        (lines : List (ℕ × List ℕ)) (result : Result (Option Stop) ScriptError)
        (u w : Option (List ℕ))
        → IsScriptDrawn (project_canvas D.Disk) verbose lines result (first_drawing first) u last w
        → (calls : List ProjectCall) × AllMade D.Disk first calls last.project }
    ensures any_moment { (cap : ℕ) (first : State D) (last : Drawing D) (verbose : Bool)
        (lines : List (ℕ × List ℕ)) (result : Result (Option Stop) ScriptError)
        (u w : Option (List ℕ)) → Creates D.Disk cap first
        → IsScriptDrawn (project_canvas D.Disk) verbose lines result (first_drawing first) u last w
        → (calls : List ProjectCall) × AllMade D.Disk first calls last.project
        × HoldsAtMoments D.Disk cap first calls last.project }
{
    hold_each_acknowledged::<D>();
}

/// The commands that a shape becomes wait together, so that they go to the disk by one call of `put`: it leaves all of
/// them or none. Otherwise each command is put by itself, as the answers are written; or they are longer than an empty
/// journal holds. So a shape that is refused has left no part of it on the disk: it was refused before its first
/// command; or those before the refused one only wait; or all were put by one call, which failed.
pub fn shapes_wait_together<D: Disk>()
    ensures drawn { (old : Drawing D) (new : Drawing D) (line : List ℕ) (answer : ℕ)
        → old.is_alone ≡ false
        → DrawsShape (project_canvas D.Disk) line old (Ok answer) new
        → IsDrawnWhole D.Disk line old answer new }
    ensures refused { (old : Drawing D) (new : Drawing D) (line : List ℕ) (code : ℕ)
        → old.is_alone ≡ false
        → DrawsShape (project_canvas D.Disk) line old (Err code) new
        → IsRefusedWhole D.Disk line old code new }
{}
