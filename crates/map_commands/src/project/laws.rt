//! Laws of lines and commands. The functions have no bodies: their contracts are the laws.
ghost use Rattle.map_commands.specs.ProjectLaws.{CommandsHaveForms, LinesEndInOneWay, LinesLeadToOneProject, LinesSpellOneCommand, SpellingsAreAccepted};

/// A line spells at most one command.
pub fn spell_one_command()
    ensures { LinesSpellOneCommand }
{}

/// The line of a command in range is accepted as a line.
pub fn accept_each_spelling()
    ensures { SpellingsAreAccepted }
{}

/// A line has at most one outcome over a project, and leaves at most one project.
pub fn end_in_one_way()
    ensures { LinesEndInOneWay }
{}

/// Accepted lines lead from a project to at most one project.
pub fn lead_to_one_project()
    ensures { LinesLeadToOneProject }
{}

/// `FORMS` has one form for each command, with a word for each of its words, and `DEEDS` one deed.
pub fn have_a_form_each()
    ensures { CommandsHaveForms }
{}
