//! What the program's arguments ask for, as a text.

use cli_words::{Request, RequestError, Topic, request};
use std::alloc::Global;
use std::test::Fail;
use tests_rows::said;

// The text of a request, or of why there is none. It says of a picture the upper, lower, left and right edge of its
// box, and of clap's answer the status and the text.
fn told(alloc: Global, asked: &Result<Request, RequestError>) -> Result<String, Fail> {
    match asked {
        Ok(Request::Scratch) => Ok(format!(in alloc; "scratch")?),
        Ok(Request::Picture { crop, .. }) => {
            said(
                alloc,
                &crop.map(|it| [it.top, it.bottom, it.left, it.right]),
            )
        }
        Ok(_) => Ok(format!(in alloc; "another request")?),
        Err(RequestError::Words(error)) => Ok(format!(in alloc; "{} {error}", error.exit_code())?),
        Err(RequestError::Help(Topic::Codes)) => Ok(format!(in alloc; "codes")?),
        Err(RequestError::Help(Topic::Scripts)) => Ok(format!(in alloc; "scripts")?),
        Err(RequestError::NotARule(word)) => Ok(format!(in alloc; "no rule {word}")?),
        Err(RequestError::NotABox(text)) => Ok(format!(in alloc; "no box {text}")?),
        Err(RequestError::WholeAlone) => Ok(format!(in alloc; "whole alone")?),
        Err(_) => Ok(format!(in alloc; "another refusal")?),
    }
}

/// What these words ask for. A request is large, so each test asks here for its text.
pub fn asked(alloc: Global, words: &[&str]) -> Result<String, Fail> {
    let asked = request(alloc, words);
    told(alloc, &asked)
}
