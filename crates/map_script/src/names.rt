//! The names that lines of a script define, and what they stand for.
ghost use Rattle.std.specs.Prelude.{◌≡◌, [], option_copied};
ghost use Rattle.map_script.specs.Frames.{layers_in_front};
ghost use Rattle.map_script.specs.Layers.{layered};
ghost use Rattle.map_script.specs.Meant.{meant_by, meant_in};
ghost use Rattle.map_script.specs.Scopes.{later_of};

use crate::error::DrawError;
use crate::firsts::{NO_FIRSTS, Numbers};
use crate::frame::Frame;
use crate::meaning::Meaning;
use crate::placing::{Placing, UNPLACED};
use crate::referent::{Answer, Referent};
use map_tables::Kind;
use std::alloc::Global;

/// What a block leaves as it was when it ends.
#[derive(Clone, Copy)]
pub struct Mark {
    /// How many names blocks held.
    pub held: usize,
    /// How many shapes were being drawn.
    pub shapes: usize,
    /// How lines were placed.
    pub placing: Placing,
    /// Whether a block was open.
    pub is_within: bool,
    /// What was answered last before it.
    pub answered: Option<Answer>,
}

/// The names defined so far, and how the open blocks place a line. A name that is defined again stands for what is
/// newer. Names of open blocks, the newest last, hide those of the script, and go with their block. A shape has names
/// of its own, which hide those of outside and go when its drawing ends. What the script, or the shape, answered last
/// is known too.
#[derive(Drop)]
pub struct Names {
    own: Frame,
    outer: Vec<Frame>,
    placing: Placing,
    is_within: bool,
    answered: Option<Answer>,
}

// What was answered later, or else earlier.
fn later_of(answered: Option<Answer>, before: Option<Answer>) -> Option<Answer>
    ensures { result ≡ later_of answered before }
{
    match answered {
        Some(answer) => Some(answer),
        None => before,
    }
}

// What a name stands for in the last frame that has it.
#[tactic(auto, using(crate::proofs::Layering::found_more, crate::proofs::Layering::found_all))]
fn find_in<'a>(frames: &'a [Frame], name: &[u8]) -> Option<&'a Meaning>
    ensures { meant_in (option_copied result)
        ≡ meant_by (layered (layers_in_front frames.now [])) name.now }
{
    let mut found = None;
    for frame in frames {
        if let Some(meaning) = frame.find(name) {
            found = Some(meaning);
        }
    }
    found
}

impl Names {
    ghost use Rattle.std.specs.Prelude.{◌≡◌, IfOk, IsOkUnless, OnErr, option_copied};
    ghost use Rattle.map_script.specs.declared.error.DrawError.TheVariants.{OutOfMemory};
    ghost use Rattle.map_script.specs.Known.{scope_of};
    ghost use Rattle.map_script.specs.Meant.{meant_by, meant_in, numbered, worded, worded_as};
    ghost use Rattle.map_script.specs.Scopes.{first_scope, left, mark_of, released, visible, with_answer, with_given, with_block, with_held, with_let, with_shape, with_turn_name};

    /// Without any name. It allocates no memory.
    pub fn new(alloc: Global) -> Self
        ensures { scope_of result ≡ first_scope }
    {
        Names {
            own: Frame::new(alloc),
            outer: Vec::new(alloc),
            placing: UNPLACED,
            is_within: false,
            answered: None,
        }
    }

    /// Defines a name by the numbers of a command: it stands for the number that the command answered, which is the
    /// number of `referent`.
    ///
    /// # Errors
    ///
    /// `OutOfMemory`: the names are unchanged.
    pub fn define(
        &mut self,
        alloc: Global,
        name: &[u8],
        numbers: Numbers,
        referent: Referent,
    ) -> Result<(), DrawError>
        ensures ok { IfOk result (λ _. scope_of self.new
            ≡ with_given (scope_of self.old) name.now (numbered numbers referent)) }
        ensures memory { IsOkUnless result OutOfMemory }
        ensures refused { OnErr result (scope_of self.new ≡ scope_of self.old) }
    {
        let answer = numbers.answer;
        let digits = format!(in alloc; "{answer}")?;
        self.own
            .give(alloc, name, digits.as_bytes(), referent, numbers.firsts)
    }

    /// Defines a name that stands for words, separated by single spaces, and for the number of an item of a kind, if
    /// one is given. Where a block is open, the block holds it.
    ///
    /// # Errors
    ///
    /// `OutOfMemory`: the names are unchanged.
    pub fn define_words(
        &mut self,
        alloc: Global,
        name: &[u8],
        words: &[u8],
        kind: Option<Kind>,
    ) -> Result<(), DrawError>
        ensures ok { IfOk result (λ _. scope_of self.new
            ≡ with_let (scope_of self.old) name.now (worded_as words.now kind)) }
        ensures memory { IsOkUnless result OutOfMemory }
        ensures refused { OnErr result (scope_of self.new ≡ scope_of self.old) }
    {
        let referent = Referent::of_kind(kind);
        if self.is_within {
            self.own.hold(alloc, name, words, referent, NO_FIRSTS)
        } else {
            self.own.give(alloc, name, words, referent, NO_FIRSTS)
        }
    }

    /// Holds a name that stands for words, until the block ends.
    ///
    /// # Errors
    ///
    /// `OutOfMemory`: the names are unchanged.
    pub fn hold(&mut self, alloc: Global, name: &[u8], words: &[u8]) -> Result<(), DrawError>
        ensures ok { IfOk result
            (λ _. scope_of self.new ≡ with_held (scope_of self.old) name.now (worded words.now)) }
        ensures memory { IsOkUnless result OutOfMemory }
        ensures refused { OnErr result (scope_of self.new ≡ scope_of self.old) }
    {
        self.own
            .hold(alloc, name, words, Referent::Nothing, NO_FIRSTS)
    }

    /// Holds the name of a loop, which stands for the number of its turn, until the turn ends.
    ///
    /// # Errors
    ///
    /// `OutOfMemory`: the names are unchanged.
    pub fn hold_number(&mut self, alloc: Global, name: &[u8], number: i64) -> Result<(), DrawError>
        ensures ok { IfOk result
            (λ _. scope_of self.new ≡ with_turn_name (scope_of self.old) name.now number) }
        ensures memory { IsOkUnless result OutOfMemory }
        ensures refused { OnErr result (scope_of self.new ≡ scope_of self.old) }
    {
        let digits = format!(in alloc; "{number}")?;
        self.hold(alloc, name, digits.as_bytes())
    }

    /// A command has answered a number.
    pub fn put_answer(&mut self, answer: Answer)
        ensures { scope_of self.new ≡ with_answer (scope_of self.old) answer }
    {
        self.answered = Some(answer);
    }

    /// What the script, or the shape that is being drawn, answered last.
    pub fn answered(&self) -> Option<Answer>
        ensures { result ≡ (scope_of self.now).answered }
    {
        self.answered
    }

    /// How many names blocks hold, how many shapes are being drawn, how lines are placed, whether a block is open, and
    /// the last answer.
    pub fn mark(&self) -> Mark
        ensures { result ≡ mark_of (scope_of self.now) }
    {
        Mark {
            held: self.own.held.len(),
            shapes: self.outer.len(),
            placing: self.placing,
            is_within: self.is_within,
            answered: self.answered,
        }
    }

    // Lets go of the names of the innermost shape, if more shapes than so many are being drawn.
    fn leave_shape(&mut self, shapes: usize)
        ensures { scope_of self.new ≡ left (scope_of self.old) shapes }
    {
        if self.outer.len() <= shapes {
            return;
        }
        if let Some(frame) = self.outer.pop() {
            self.own = frame;
        }
    }

    /// Ends the innermost block, which began at a mark: lets go of the names of its shape, if it is one's, and of the
    /// newest held names, but for as many as at the mark. All else is as there, but for an answer since then.
    pub fn release(&mut self, mark: Mark)
        ensures { scope_of self.new ≡ released (scope_of self.old) mark }
    {
        self.leave_shape(mark.shapes);
        self.own.release(mark.held);
        self.placing = mark.placing;
        self.is_within = mark.is_within;
        self.answered = later_of(self.answered, mark.answered);
    }

    /// How lines are placed.
    pub fn placing(&self) -> Placing
        ensures { result ≡ (scope_of self.now).placing }
    {
        self.placing
    }

    /// A block has been opened, which places lines so.
    pub fn enter(&mut self, placing: Placing)
        ensures { scope_of self.new ≡ with_block (scope_of self.old) placing }
    {
        self.placing = placing;
        self.is_within = true;
    }

    /// The drawing of a shape begins, which has no name of its own yet and has answered nothing.
    ///
    /// # Errors
    ///
    /// `OutOfMemory`: the names are unchanged.
    pub fn enter_shape(&mut self, alloc: Global) -> Result<(), DrawError>
        ensures ok { IfOk result (λ _. scope_of self.new ≡ with_shape (scope_of self.old)) }
        ensures memory { IsOkUnless result OutOfMemory }
        ensures refused { OnErr result (scope_of self.new ≡ scope_of self.old) }
    {
        self.outer.reserve(1)?;
        let outer = std::mem::replace(&mut self.own, Frame::new(alloc));
        match self.outer.push(outer) {
            Ok(()) => {
                self.answered = None;
                Ok(())
            }
            Err(_) => unreachable!(),
        }
    }

    /// What a name stands for, if it is defined.
    pub fn find(&self, name: &[u8]) -> Option<&Meaning>
        ensures { meant_in (option_copied result)
            ≡ meant_by (visible (scope_of self.now)) name.now }
    {
        match self.own.find(name) {
            Some(meaning) => Some(meaning),
            None => find_in(&self.outer, name),
        }
    }
}
