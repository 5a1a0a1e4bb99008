//! What a run works on: the trait that maps in memory and project files implement.
ghost use Rattle.std.specs.Prelude.{◌≡◌, ◌≤◌, ◌++◌, ◌∷◌, [], ℕ, List, OnOk, length, take};
ghost use Rattle.run_edit.specs.Runs.{Exchange, TakesLines, none_waits};

use crate::error::EditorError;
use std::alloc::Global;
use std::io::Write;

/// The maps or the project that a run queries and changes. Lines of one turn may wait for their answers.
pub trait Session {
    /// Lines that were decided, and wait to be answered together.
    type Waiting: Drop;

    // How lines were answered in turn: the state before them, the lines with their texts, and the state after them.
    ghost goes: { Self → List Exchange → Self → Type 0 };

    // These lines wait.
    ghost waits: { Self → Self.Waiting → List (List ℕ) → Type 0 };

    /// No line waits.
    fn none_waiting() -> Self::Waiting
        ensures { (session : Self) → waits session result [] };

    /// Answers a line and those that wait, or lets it wait behind them if it may. `line` is at most its first 257
    /// bytes.
    ///
    /// # Errors
    ///
    /// Only `WriterFailed`.
    fn take<W: Write>(
        &mut self,
        alloc: Global,
        waiting: &mut Self::Waiting,
        line: &[u8],
        may_wait: bool,
        writer: &mut W,
    ) -> Result<(), EditorError>
        requires waiting { (lines : List (List ℕ)) × waits self.old waiting.old lines }
        requires short { length line.now ≤ 257 }
        ensures { (lines : List (List ℕ)) (whole : List ℕ) → waits self.old waiting.old lines
            → line.now ≡ take 257 whole
            → TakesLines goes (waits self.new waiting.new) result self.old self.new
            (lines ++ whole ∷ []) (W.contents writer.old) (W.contents writer.new) };

    /// Answers the lines that wait. Then none waits.
    ///
    /// # Errors
    ///
    /// Only `WriterFailed`.
    fn settle<W: Write>(
        &mut self,
        waiting: &mut Self::Waiting,
        writer: &mut W,
    ) -> Result<(), EditorError>
        requires { (lines : List (List ℕ)) × waits self.old waiting.old lines }
        ensures taken { (lines : List (List ℕ)) → waits self.old waiting.old lines
            → TakesLines goes none_waits result self.old self.new lines
            (W.contents writer.old) (W.contents writer.new) }
        ensures left { OnOk result (waits self.new waiting.new []) };

    // No line leads nowhere.
    ghost none: { (session : Self) → goes session [] session };

    // Some lines and then others.
    ghost then_more: { (old mid new : Self) (xs ys : List Exchange) → goes old xs mid
        → goes mid ys new → goes old (xs ++ ys) new };
}
