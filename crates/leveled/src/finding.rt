//! Where a WAD is found whose name has no folder (docs/COMMANDS.md, "Where WADs are found").
ghost use Rattle.std.specs.Prelude.{◌≡◌, IfOk, IfSome, option_map, string_bytes};
ghost use Rattle.leveled.specs.Finding.{AreFound, ArePathsOf, IsInFolder, IsPathOf, has_no_folder};

use cli_words::Request;
use std::alloc::{AllocError, Global};
use std::{env, fs};

// Where a distribution's packages put the WADs of games.
const FOLDERS: [&str; 4] = [
    "/usr/local/share/doom",
    "/usr/local/share/games/doom",
    "/usr/share/doom",
    "/usr/share/games/doom",
];

// Whether a name has no folder before it.
fn has_no_folder(name: &str) -> bool
    ensures { result ≡ has_no_folder name.now }
{
    name.as_bytes().iter().all(|byte| *byte != b'/')
}

// Whether a path leads to something, or the system doesn't say that it doesn't.
fn is_there(rt: &HostRuntime, path: &str) -> bool {
    !matches!(fs::exists(rt, path), Ok(false))
}

// The path of a name in a folder.
fn path_in(alloc: Global, folder: &str, name: &str) -> Result<String, AllocError>
    ensures { IfOk result (λ path. IsInFolder name.now (string_bytes path)) }
{
    let mut path = String::new(alloc);
    path.push_str(folder)?;
    path.push_str("/")?;
    path.push_str(name)?;
    Ok(path)
}

// The path of a name in a folder, if it leads to something, and there is memory for it.
fn in_folder(rt: &HostRuntime, folder: &str, name: &str) -> Option<String>
    ensures { IfSome result (λ path. IsInFolder name.now (string_bytes path)) }
{
    if folder.is_empty() {
        return None;
    }
    match path_in(rt.alloc(), folder, name) {
        Ok(path) => {
            if is_there(rt, &path) {
                Some(path)
            } else {
                None
            }
        }
        Err(_) => None,
    }
}

// The same in the first that has it of the folders which a variable of the environment names, with `:` between them.
fn in_variable(rt: &HostRuntime, variable: &str, name: &str) -> Option<String>
    ensures { IfSome result (λ path. IsInFolder name.now (string_bytes path)) }
{
    let Ok(folders) = env::var(rt, variable) else {
        return None;
    };
    for folder in folders.split(':') {
        let path = in_folder(rt, folder, name);
        if path.is_some() {
            return path;
        }
    }
    None
}

// The same in the first that has it of the folders of games.
fn in_games(rt: &HostRuntime, name: &str) -> Option<String>
    ensures { IfSome result (λ path. IsInFolder name.now (string_bytes path)) }
{
    for folder in FOLDERS {
        let path = in_folder(rt, folder, name);
        if path.is_some() {
            return path;
        }
    }
    None
}

// The path at which a WAD of a name is found: the name itself, if it has a folder, or there is such a file here, or
// nowhere else.
fn found(rt: &HostRuntime, name: String) -> String
    ensures { IsPathOf (string_bytes name) (string_bytes result) }
{
    if !has_no_folder(&name) || is_there(rt, &name) {
        return name;
    }
    if let Some(path) = in_variable(rt, "DOOMWADDIR", &name) {
        return path;
    }
    if let Some(path) = in_variable(rt, "DOOMWADPATH", &name) {
        return path;
    }
    match in_games(rt, &name) {
        Some(path) => path,
        None => name,
    }
}

/// The request with the path at which each WAD is found that it reads.
pub fn with_found(rt: &HostRuntime, request: Request) -> Request
    ensures { AreFound request result }
{
    match request {
        Request::Lint {
            file,
            map,
            iwad,
            only,
            except,
        } => Request::Lint {
            file: found(rt, file),
            map,
            iwad: found_if_any(rt, iwad),
            only,
            except,
        },
        Request::Dump { file, names, exact } => Request::Dump {
            file: found(rt, file),
            names,
            exact,
        },
        Request::Rebuild { wad, out, maps } => Request::Rebuild {
            wad: found(rt, wad),
            out,
            maps,
        },
        Request::Inspect { wad, name } => Request::Inspect {
            wad: found(rt, wad),
            name,
        },
        Request::Levels { wad } => Request::Levels {
            wad: found(rt, wad),
        },
        other => other,
    }
}

// The same of a name, if there is one.
fn found_if_any(rt: &HostRuntime, name: Option<String>) -> Option<String>
    ensures { ArePathsOf (option_map string_bytes name) (option_map string_bytes result) }
{
    match name {
        Some(name) => Some(found(rt, name)),
        None => None,
    }
}
