//! What `--help` prints after the list of arguments, for the program and for each subcommand.

/// The commands and queries of `scratch` and `edit`, the statuses, and where more is said.
pub const PROGRAM: &str = "\
Commands of `scratch` and `edit`, one on each line of the input. The answer is `ok N`,
where N is the number of the item or the map (0 for `name`), or `no CODE` if the command
is refused. A refused command changes nothing.
  name MARKER                               renames the current map: MAP01, E1M1
  map MARKER                                makes a map current; adds it if need be
  drop-map MARKER                           removes a map that isn't current
  vertex X Y                                a point where lines end
  sector F C FN CN LIGHT SPECIAL TAG        floor, ceiling, their flats, light
  side XO YO UP LOW MID SECTOR              offsets, textures, the sector it faces
  line V1 V2 FLAGS SPECIAL TAG RIGHT LEFT   a line with its sides; LEFT may be -
  thing X Y ANGLE TYPE OPTIONS              a start, a monster, an item
  room X1 Y1 X2 Y2 F C FN CN WALL LIGHT     four walls round a new sector
  split LINE X Y                            divides a line at a new vertex
  move-vertex I X Y                         moves a vertex and the line ends there
  set-sector I .., set-side I .., set-line I .., set-thing I ..
                                            replaces all fields of an item
  drop KIND I                               removes a vertex, sector, side, line or
                                            thing; greater numbers fall by one
Queries, which change nothing:
  count                                     how many items the current map has
  check                                     what is wrong or unfinished in it
  maps                                      the names of the maps, and the current one
  build                                     how many records the PWAD of all maps would
                                            have, and its length in bytes
  hex LUMP                                  the bytes of a lump of the current map:
                                            THINGS, LINEDEFS, SIDEDEFS, VERTEXES,
                                            SECTORS, SEGS, SSECTORS, NODES, REJECT,
                                            BLOCKMAP, or ADDED: the vertices that a
                                            build adds
The program ends when its input ends. A last line without a newline is answered too.

Exit status: 0 done; 1 refused, with `leveled: CODE NAME` on standard error; 2 the
arguments are wrong; 3 `check` or `lint` has findings, `inspect` found a fault, a line of a
script was refused, or `dump` or `rebuild` skipped a level.

`leveled help SUBCOMMAND` explains a subcommand. `leveled help codes` says what to do
about each CODE, `leveled help scripts` what the lines of a script may be. `make install`
also installs the manual page leveled(1) and, in share/doc/leveled, COMMANDS.md (every
command and refusal) and FIRST_LEVEL.md (a first level step by step).";

/// `scratch`.
pub const SCRATCH: &str = "\
Reads commands from standard input and answers each on standard output. The maps are in
memory only, and are lost when the program ends: to keep them, use `create` and `edit`.
`leveled --help` lists the commands.";

/// `create`.
pub const CREATE: &str = "\
Makes the project file FILE with one empty map, MAP01, and prints `created`. A FILE that
exists and isn't empty is refused. --slot and --journal are lengths in bytes: 33 to
2007015 for a slot, 512 to 1048576 for a journal. A slot holds all maps as they were last
written out, a journal the commands since then. A command after which the maps would no
longer fit in a slot is answered `no 14`.";

/// `edit`.
pub const EDIT: &str = "\
Reads commands from standard input and answers each on standard output. A command that
was answered `ok N` is on the disk, whatever stops the program afterwards. `no 30` means
that the disk failed: each later line is answered `no 32` until FILE is opened again.
`leveled --help` lists the commands.";

/// `check`.
pub const CHECK: &str = "\
Prints what is wrong or unfinished in the map MAP of FILE, by default the current map: a
line for each finding, then `findings N`. The status is 3 unless N is 0. FILE may also be
a WAD: MAP is then one of its levels, by default the first. Or FILE is a script, or - for
one on standard input: it is drawn in memory, and its maps are looked at. FILE isn't
changed.";

/// `lint`.
pub const LINT: &str = "\
Checks every map of FILE, or only MAP. Prints what `check` finds, and what probably won't
play as intended. Each line begins with the map's name, for example
`MAP01 line-crossed 12 at (64,64) (128,-64)`; the last line is `findings N`. The status
is 3 unless N is 0. FILE may also be a WAD: then its levels are checked, and
`E1M1 no-map REASON` means that a level can't be made a map. Or FILE is a script, or - for
one on standard input: it is drawn in memory, and its maps are checked. With --iwad it
also prints which flats and textures of the maps WAD lacks; WAD is usually an IWAD, for
example doom2.wad. --only prints only the lines with WORD, such as line-crossed, or check
for the lines of `check`; --except leaves them out. Each may be given several times.
COMMANDS.md says what to do about each line. FILE isn't changed.";

/// `draw`.
pub const DRAW: &str = "\
Draws the lines of SCRIPT, or of standard input, in order, each as `edit` would. They are
tried in memory first: if one is refused, nothing is drawn, and standard error says which
one it is and what is wrong with it; the status is then 3. A script may have blank lines,
indentation, several spaces between words, and comments: a word that begins with # starts one.
`hall = room ..` keeps the numbers of the new items, so that `$hall.line+2` stands for the
third wall of this room in the lines that follow, and `$line(256,128)` for the line at this
place. Four words draw shapes by several commands: `area` a sector inside some corners,
`pillar` walls round nothing, `door` a door in place of a sector, `change` an item with
other values, as `change line $line(256,128) SPECIAL=11`. --verbose prints the answer to
each command. A line `include FILE` stands for the lines of another file. `draw --check
SCRIPT` tries a script on maps in memory, and `draw --check SCRIPT FILE` over the maps of
a project, which stays as it is; SCRIPT may be -, standard input.";

/// `dump`.
pub const DUMP: &str = "\
Prints commands that draw all maps of FILE again, with the same numbers, in a new project:
`leveled dump a.lv | leveled edit b.lv` copies the maps into another file. With NAMEs it
prints the commands for these maps alone, which draw them in a project that lacks them.
FILE may also be a WAD of any editor: then its levels, or the last one of each NAME, are
printed as commands. If a level must be changed to become a map, standard error has each
change, for example `MAP01: thing 3: angle 360 is 0`. A level that can't be made a map
even so is left out, standard error says why, and the status is 3. With --exact each level
that needs a change is left out too. Or FILE is a script, or - for one on standard input:
it is drawn in memory, and its maps are printed as commands without names and sums.
--salvage prints the maps of a damaged project as far as its commands can be read, and
takes neither NAME nor --exact; standard error says where FILE is damaged, how many
commands are kept and how many are not. FILE isn't changed.";

/// `picture`.
pub const PICTURE: &str = "\
Draws the map MAP of FILE, by default the current map, as SVG, which a browser shows. FILE
may also be a WAD: MAP is then one of its levels, by default the first. Or FILE is a
script, or - for one on standard input, which is drawn in memory. A short tick marks the
right side of each line. In a browser, point at a line, a vertex or a thing to read its
fields.
The picture goes to standard output, or to OUT, which may be a new path, an empty file or
a picture that this program made. --numbers adds the numbers of sectors, lines, vertices
and things, as many as fit. --nodes adds the partitions and subsectors that `build` makes
of the map; for a level of a WAD, those that the WAD has. --lint adds a red mark for each
line that `lint` prints: point at a mark to read its text. --heights fills each closed sector in a colour
by its floor's height, with a legend; point at a sector to read its fields. --grid draws
lines at the multiples of 64, and a bar of 256 units. With --crop=X1,Y1,X2,Y2 the page
shows only that box; X1,Y1 and X2,Y2 are two opposite corners.
`leveled: 18 NoSuchMap` means that FILE has no map MAP, `leveled: 72 NoSuchLevel` that the
WAD has no level MAP. FILE isn't changed.";

/// `build`.
pub const BUILD: &str = "\
Builds all maps of FILE into one PWAD, writes it to OUT, and prints how many records it
has and its length. If a map can't be built, OUT stays as it was, and a second line on
standard error names the map and says why: `leveled: 60 NothingToBuild` means that it has
no line. OUT may be a new path, an empty file or a PWAD; any other file, such as an IWAD
or a project, is never replaced. FILE may also be a script, or - for one on standard
input, which is drawn in memory: if a line is refused, OUT stays as it was, standard error
says which one, and the status is 3. FILE isn't changed.";

/// `rebuild`.
pub const REBUILD: &str = "\
Builds the nodes and the blockmap of each level of the WAD IN anew, or only of the last
one of each --map NAME, and writes the new WAD to OUT. A reject table stays if it is long
enough, and otherwise becomes zeros. GL nodes are left out. Things, lines, sides, sectors
and all lumps outside these levels stay byte for byte. OUT may be a new path, an empty
file, a PWAD, or IN itself, even if IN is an IWAD; any other file is never replaced.
Prints a line for each level, then a total. A level that can't be built stays as it was:
its line says why, and the status is 3. Standard error has a line for each two-sided line
of a rebuilt level that has no left side, for example
`E3M7: line 1733 is two-sided and has no left side`.";

/// `inspect`.
pub const INSPECT: &str = "\
Reads the level NAME, for example MAP01 or E1M1, of a PWAD or an IWAD. Prints how long its
lumps are, then `sound` or the first fault, for example `fault LineVertex 0` if line 0
names a vertex that doesn't exist; the status is then 3. Without NAME it prints the names
of the WAD's levels.";

/// The lines and words of scripts. Printed for `help scripts`.
pub const SCRIPTS: &str = "\
`draw` draws a script, and a script may stand in place of a project. Each of its lines is
a command or a query as `leveled --help` lists them, or one of those below. Words are
separated by spaces or tabs; one that begins with # begins a comment. The words behind
the first may be those of the second table.
  NAME = COMMAND            NAME stands for what the command adds
  area F C FN CN WALL LIGHT X Y X Y X Y ..
                            a sector inside the corners, which shares what is there
  pillar WALL X Y X Y X Y ..
                            walls round nothing
  door SECTOR FACE TRACK [SPECIAL]
                            a door in place of the sector
  change KIND N NAME=VALUE ..
                            the item N with other values
  let NAME WORD ..          NAME stands for these words
  for NAME FROM TO          draws the lines up to its `end` for each whole number
  at X Y [ANGLE]            turns and moves the places in the lines up to its `end`
  define NAME PARAM ..      makes a shape of the lines up to its `end`
  NAME WORD ..              draws the shape NAME, with a WORD for each PARAM
  OTHER = NAME WORD ..      the same; OTHER stands for what it adds
  end                       ends the nearest `for`, `at` or `define`
  include FILE              stands for the lines of FILE, a path beside this script

  $NAME                     the number that the command of NAME answered, or a word
  $NAME.vertex              the first vertex that it added; also .line, .side, .sector
                            and .thing
  $NAME.north               the northern wall of a room; also .east, .south and .west
  $vertex(X,Y)              the vertex at a place; also $line, $sector and $thing
  $NAME.line+2              two more
  $w*2, 64-$w, ($a+$b)/2    sums, without blanks
A script is drawn whole or not at all. COMMANDS.md, \"Scripts\", says all of it, with
examples.";

/// The refusals: the number of each, its name, and what to do. Printed for `help codes`.
pub const CODES: &str = "\
A refused line is answered `no CODE`; a refused request prints `leveled: CODE NAME` to
standard error. The maps in memory stay as they were. Numbers 1 to 19 refuse a command,
numbers 20 to 29, 45 and 46 a line of a script; 30 to 38 come from the disk, from memory, or
from the input or output, 40 to 44 from a project file, 60 to 66 from a build, and 50
and 70 to 78 from a WAD. What is wrong, or what to do about it:

 1 NotACommand         look for two spaces, a blank line, CR, a tab, a missing word
 2 OutOfRange          COMMANDS.md has the ranges; a room begins at its lower left corner
 3 NoVertex            `count` prints how many there are; numbers begin at 0
 4 NoSector            as for 3
 5 NoSide              as for 3; `-` means no left side
 6 NoLine              as for 3
 7 NoThing             as for 3
 8 InUse               first drop or change the line or side that names the item
 9 SameEnds            give the line two different vertices
10 PlaceTaken          use the vertex that is already at this place
11 TwoSidedWithoutLeft give a left side, or leave out the flag 4
12 TableFull           the level is as big as the formats allow
13 LineTooLong         longer than 32767: split the line, or draw it in parts
14 ProjectFull         make a project with a larger slot; copy the maps to it with `dump`
15 BadName             names are in capitals, 1 to 8 bytes; markers are like MAP01 or E1M1
16 TooManyMaps         there are 32: drop one
17 MapNameTaken        choose another name
18 NoSuchMap           `maps` lists the names
19 CurrentMap          make another map current first
20 NotAName            in a script: a name is a letter, then letters, digits and _
21 NotAReference       in a script: give $NAME, $NAME.KIND or $KIND(X,Y), of the kind wanted
22 UnknownName         in a script: no earlier line has this name; check its spelling
23 NothingAdded        in a script: name an item that the command adds
24 NumberTooLarge      in a script: the sum is above 32767; check the +N
25 NotAPolygon         in a script: give the corners of a shape in order, each once
26 Crossing            in a script: move a corner; lines cross at whole places only
27 SeveralSectors      in a script: draw each part as an area of its own
28 NotEmpty            in a script: draw the outer area first, then what is in it
29 NoDoor              in a script: draw the sectors on both sides of the door first
30 Device              check the disk, or end the program that has FILE open; reopen it
31 Memory              free some memory, and give the line again
32 Reopen              open FILE again; every acknowledged command is there
33 GenerationsSpent    draw on in a new project; copy the maps to it with `dump`
34 JournalFull         nothing to do: a project makes room by itself
35 SlotFull            nothing to do: 14 comes first
36 InputTooLong        give the input in parts
37 ReaderFailed        the input or a script can't be read; what was answered is done
38 WriterFailed        check where the output goes; what was answered is done
40 Damaged             use a copy from before the damage, or `dump --salvage`
41 Blank               `create` was stopped: remove FILE, and create it again
42 NotAProject         check FILE's name: it is empty, or no project, WAD or script
43 NotEmpty            choose another name for a new project
44 BadGeometry         a slot has 33 to 2007015 bytes, a journal 512 to 1048576
45 NothingThere        in a script: look at `picture --numbers`, or draw it first
46 BadSum              in a script: correct the sum that the line below names
47 OpenBlock           in a script: give each `for`, `at`, `define` its `end`; include less deep
48 TooManyLines        in a script: let the loops have fewer turns, or include fewer files
50 LumpLength          the WAD is damaged
60 NothingToBuild      a map has no line: draw one, or drop the map
61 TooManyVertices     draw fewer lines, or fewer crossings
62 TooManySegs         as for 61
63 TooManySubsectors   as for 61
64 TooDeep             as for 61
65 Stuck               never answered
66 BlockmapTooLarge    make the level smaller, or draw fewer lines across many blocks
70 NotAWad             check the WAD's name
71 DirectoryOutside    the WAD is cut off
72 NoSuchLevel         check NAME: MAP01, E1M1
73 LumpMissing         the level was never built: build its nodes with `leveled rebuild`
74 LumpOutside         the WAD is cut off
75 HexenLevel          nothing to do: levels in Hexen's format aren't read
76 TextureLump         the WAD is damaged
77 NotAMap             the second line says what in the level no map may have
78 TreeOutside         build its nodes anew with `leveled rebuild`";
