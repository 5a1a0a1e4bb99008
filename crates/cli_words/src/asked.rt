//! What the program's arguments ask for, or why they are no request.
use crate::topic::Topic;
use lump_records::Bounds;
use thiserror::Error;

/// What the program is asked to do. Each file is the path that was given.
#[derive(Drop)]
pub enum Request {
    /// Answer the lines of standard input over maps in memory.
    Scratch,
    /// Make a project with slots and journals of these lengths, in bytes.
    Create {
        file: String,
        slot: u32,
        journal: u32,
    },
    /// Answer the lines of standard input over a project.
    Edit {
        file: String,
    },
    /// Print what is wrong or unfinished in a map of a project or a level of a WAD: the one with this name, or else the
    /// current map or the first level.
    Check {
        file: String,
        map: Option<String>,
    },
    /// Print what is wrong, unfinished or doubtful in each map of a project or level of a WAD, or in the one with this
    /// name, and which flats and textures the WAD `iwad` lacks, if it is given. Print only lines with the words `only`,
    /// or those of all rules if there are none, and none with the words `except`.
    Lint {
        file: String,
        map: Option<String>,
        iwad: Option<String>,
        only: Vec<String>,
        except: Vec<String>,
    },
    /// Draw the lines of a script onto a project: of the file `script`, or of standard input. If `verbose`, print the
    /// answers to commands too, and not only those to queries.
    Draw {
        file: String,
        script: Option<String>,
        verbose: bool,
    },
    /// Try the lines of a script over maps in memory: over those of the project `over`, or else over the empty project.
    TryScript {
        script: String,
        over: Option<String>,
        verbose: bool,
    },
    /// Print the commands that draw the maps of a project, or the levels of a WAD, again: the last one with each of
    /// these names, or all if there is no name. If `exact`, leave out each level that needs a change.
    Dump {
        file: String,
        names: Vec<String>,
        exact: bool,
    },
    /// Print the commands that draw the maps of a damaged project again, as far as they can be read.
    Salvage {
        file: String,
    },
    /// Draw a map of a project or a level of a WAD as a picture: the one with this name, or else the current map or the
    /// first level. Write it to the file `out`, or to standard output. Add the numbers of items, the tree, marks for
    /// what `lint` prints, the heights of floors, and a grid, each if asked for. Show only the box `crop` if there is
    /// one; it isn't empty, and its left and lower edges come before the right and upper ones.
    Picture {
        file: String,
        map: Option<String>,
        out: Option<String>,
        numbers: bool,
        nodes: bool,
        lint: bool,
        heights: bool,
        grid: bool,
        crop: Option<Bounds>,
    },
    /// Build the maps of a project into a PWAD.
    Build {
        file: String,
        out: String,
    },
    /// Build the nodes of a WAD's levels anew, and write the new WAD to `out`: of the last level with each of these
    /// names, or of all if there is no name.
    Rebuild {
        wad: String,
        out: String,
        maps: Vec<String>,
    },
    /// Print how long the lumps of a level are, and whether the level is sound.
    Inspect {
        wad: String,
        name: String,
    },
    /// Print the names of a WAD's levels.
    Levels {
        wad: String,
    },
}

/// Why the arguments are no request.
#[derive(Debug, Drop, Error)]
pub enum RequestError {
    /// clap refuses the arguments, or they ask for help or the version.
    #[error(transparent)]
    Words(#[from] clap::Error),
    /// The arguments are `help TOPIC`.
    #[error("help is asked for")]
    Help(Topic),
    /// clap accepted an argument without a value within its limits.
    #[error("a number is outside its limits")]
    Number,
    /// `dump --salvage` has a name or `--exact`.
    #[error("with --salvage FILE is the only argument, and --exact can't be given")]
    WholeAlone,
    /// `lint` is given a word that no rule has.
    #[error("no rule has the word {0}")]
    NotARule(String),
    /// `picture` is given a text that writes no box, or an empty one.
    #[error("no box X1,Y1,X2,Y2 of whole numbers of 16 bits, or an empty one: {0}")]
    NotABox(String),
    /// There is no memory for a text of the request.
    #[error("out of memory")]
    Memory,
}
