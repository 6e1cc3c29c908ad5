//! Whole scripts.
ghost use Rattle.std.specs.Prelude.{◌≡◌, ◌<◌, ◌++◌, List, ℕ, Option, Result, vec_len, vec_capacity};
ghost use Rattle.lh_script.specs.Lines.{words};
ghost use Rattle.lh_script.specs.Scripts.{Gives, added, fault_in, script};
ghost use Rattle.lh_script.specs.declared.fault.LineFault.{LineFault};
ghost use Rattle.lh_script.specs.declared.notation.Notation.{Notation};

use crate::fault::{LineFault, ParseError, ScriptFault};
use crate::lines::first_line;
use crate::notation::Notation;
use std::alloc::Global;

/// What a line of a script may say.
pub trait Statement: Copy {
    /// What the words of a line say, in a notation.
    ghost reads: { Notation → List (List ℕ) → Result (Option Self) LineFault };

    /// Adds the statement of a line, if it has one, to the statements before it, which have room for one more.
    fn read(notation: Notation, line: &[u8], statements: &mut Vec<Self>) -> Result<(), LineFault>
        requires { vec_len statements.old < vec_capacity statements.old }
        ensures fault { result ≡ fault_in (reads notation (words line.now)) }
        ensures added { statements.new.items ≡ statements.old.items ++ added (reads notation (words line.now)) };
}

/// Adds what was said, if it is a statement.
pub fn keep<S: Copy>(
    said: Result<Option<S>, LineFault>,
    statements: &mut Vec<S>,
) -> Result<(), LineFault>
    requires { vec_len statements.old < vec_capacity statements.old }
    ensures fault { result ≡ fault_in said }
    ensures added { statements.new.items ≡ statements.old.items ++ added said }
{
    match said {
        Ok(Some(statement)) => {
            statements.push_reserved(statement);
            Ok(())
        }
        Ok(None) => Ok(()),
        Err(fault) => Err(fault),
    }
}

/// The most bytes that a script may have.
pub const MOST_BYTES: usize = 16_777_216;

/// The statements of a script, in their order, or its first fault.
///
/// Lines end with LF, before which one CR is dropped, and are numbered from 1. Spaces and tabs separate words. A line
/// without words, and one whose first word begins with `#`, says nothing. So of the three lines `# none`, `search 61`
/// and `frob` a command script is at fault by the third: `line 3: unknown word`.
///
/// Besides the text it takes memory for the statements alone.
#[tactic(auto, using(crate::proofs::Scripts::line_by_line))]
pub fn parse<S: Statement>(
    alloc: Global,
    notation: Notation,
    text: &[u8],
) -> Result<Vec<S>, ParseError>
    ensures { Gives (λ v. v.items) result (script (S.reads notation) text.now) }
{
    if text.len() > MOST_BYTES {
        return Err(ParseError::Fault(ScriptFault::TooLong));
    }
    let mut statements = Vec::new(alloc);
    let mut rest = text;
    let mut line = 1;
    while !rest.is_empty() {
        let (first, behind) = first_line(rest);
        if statements.reserve(1).is_err() {
            return Err(ParseError::Memory);
        }
        if let Err(fault) = S::read(notation, first, &mut statements) {
            return Err(ParseError::Fault(ScriptFault::AtLine(line, fault)));
        }
        rest = behind;
        line += 1;
    }
    Ok(statements)
}
