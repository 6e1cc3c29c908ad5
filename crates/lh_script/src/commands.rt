//! The lines of a command script.
ghost use Rattle.std.specs.Prelude.{◌≡◌, ◌<◌, ◌++◌, vec_len, vec_capacity};
ghost use Rattle.lh_script.specs.Commands.{command};
ghost use Rattle.lh_script.specs.Lines.{words};

use crate::calls::read_call;
use crate::fault::LineFault;
use crate::lines::statement_words;
use crate::notation::Notation;
use crate::script::{Statement, keep};
use lh_bucket::Call;

/// What a line of a command script says.
#[tactic(auto, unfolding(crate::specs::Commands::command))]
fn read_command(notation: Notation, line: &[u8]) -> Result<Option<Call>, LineFault>
    ensures { result ≡ command notation (words line.now) }
{
    let Some((verb, rest)) = statement_words(line) else {
        return Ok(None);
    };
    let ((), call) = read_call(notation, Ok(()), verb, rest)?;
    Ok(Some(call))
}

impl Statement for Call {
    ghost reads = { command };

    fn read(notation: Notation, line: &[u8], statements: &mut Vec<Call>) -> Result<(), LineFault> {
        keep(read_command(notation, line), statements)
    }
}
