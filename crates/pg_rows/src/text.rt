// Texts as they stand in rows.
use pg_base::decoded;
use std::alloc::{AllocError, Global};

/// The text that a row has: each `{N|piece}` stands for `piece` N times, where N is a number of at most five digits, and
/// then escapes are read as in a text of a game: `\n`, `\t`, `\\`, `\"`, `\{`, and besides `\r`, a carriage return. It
/// fails only for want of memory.
pub fn text_in(alloc: Global, row: &str) -> Result<String, AllocError> {
    let long = repeated(alloc, row)?;
    let returned = with_returns(alloc, long.as_str())?;
    decoded(alloc, returned.as_str())
}

/// The text with a carriage return in place of each `\r`.
fn with_returns(alloc: Global, text: &str) -> Result<String, AllocError> {
    let mut out = String::new(alloc);
    let mut escaped = false;
    for c in text.chars() {
        if escaped && c == 'r' {
            out.push('\r')?;
        } else if escaped {
            out.push('\\')?;
            out.push(c)?;
        } else if c != '\\' {
            out.push(c)?;
        }
        escaped = c == '\\' && !escaped;
    }
    if escaped {
        out.push('\\')?;
    }
    Ok(out)
}

/// The text with its repetitions written out.
fn repeated(alloc: Global, row: &str) -> Result<String, AllocError> {
    let mut out = String::new(alloc);
    let mut rest = row;
    for _ in 0..row.len() {
        let Some((before, behind)) = rest.split_once('{') else {
            break;
        };
        out.push_str(before)?;
        rest = match repetition(behind) {
            Some((times, piece, after)) => {
                push_times(&mut out, piece, times)?;
                after
            }
            None => {
                out.push_str("{")?;
                behind
            }
        };
    }
    out.push_str(rest)?;
    Ok(out)
}

/// `N|piece}` at the front of a text: the number, the piece, and what stands behind them.
fn repetition(text: &str) -> Option<(u16, &str, &str)> {
    let (number, behind) = text.split_once('|')?;
    let (piece, after) = behind.split_once('}')?;
    match number.parse::<u16>() {
        Ok(times) => Some((times, piece, after)),
        Err(_) => None,
    }
}

fn push_times(out: &mut String, piece: &str, times: u16) -> Result<(), AllocError> {
    for _ in 0..times {
        out.push_str(piece)?;
    }
    Ok(())
}
