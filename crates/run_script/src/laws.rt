//! A law of drawings: maps that keep the origins of their items are drawn as maps alone.
ghost use Rattle.std.specs.Prelude.{ℕ, Bool, List, Option, Result};
ghost use Rattle.map_blocks.specs.declared.stop.Stop.{Stop};
ghost use Rattle.run_canvas.specs.Canvases.{draft_canvas};
ghost use Rattle.run_canvas.specs.Origins.{OriginMaps, origin_canvas};
ghost use Rattle.run_canvas.specs.declared.error.ScriptError.{ScriptError};
ghost use Rattle.run_script.specs.Drawn.{IsScriptDrawn};

/// What a script draws onto an `OriginDraft`, it draws onto the `Draft` of the same maps, and it ends in the same way.
/// The contract is a law, and the body does nothing.
pub fn origins_draw_the_same_maps()
    ensures { (verbose : Bool) (lines : List (ℕ × List ℕ))
        (result : Result (Option Stop) ScriptError) (old new : OriginMaps)
        (u w : Option (List ℕ)) → IsScriptDrawn origin_canvas verbose lines result old u new w
        → IsScriptDrawn draft_canvas verbose lines result old.draft u new.draft w }
{}
