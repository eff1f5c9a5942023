//! The text of a script, for the commands that return what they print.
ghost use Rattle.std.specs.Prelude.{◌≡◌, ◌≢◌, List, ℕ, Ok, IfOk, IfErr, IfSome};
ghost use Rattle.std.specs.Io.KnownBytes.{Consumes};
ghost use Rattle.ra_script.specs.ScriptText.{script_of};
ghost use Rattle.ra_cluster.specs.declared.cluster_run.ClusterError.{ClusterError};
ghost use Rattle.ra_cli.specs.ClusterRun.{RefusesRun};
ghost use Rattle.ra_cli.specs.InputOutput.{ReadsInput};

use crate::error::RunScriptError;
use ra_schedule::Script;
use ra_script::{MAX_SCRIPT, read_script};
use ra_text::read_up_to;
use std::alloc::Global;
use std::io::Read;

/// Reads the text of a script.
///
/// # Errors
///
/// `Read`, `Script` and `Memory`, as [`RunScriptError`] says.
pub fn script_from<R: Read>(alloc: Global, reader: &mut R) -> Result<Script, RunScriptError>
    ensures ok { IfOk result (λ script. IfSome (R.remaining reader.old) (λ input.
        (script_of input ≡ Ok script) × Consumes (R.remaining reader.old) (R.remaining reader.new) input)) }
    // If the reader tells nothing of its input, this still holds of some input.
    ensures read { IfOk result (λ script. (input : List ℕ) × (script_of input ≡ Ok script)) }
    ensures reads { ReadsInput RunScriptError.Read 65537 RefusesRun (R.remaining reader.old)
        (R.remaining reader.new) result }
    ensures unrun { IfErr result (λ fault. (why : ClusterError) → fault ≢ RunScriptError.Cluster why) }
{
    let text = read_up_to(alloc, reader, MAX_SCRIPT + 1)?;
    let script = read_script(alloc, &text)?;
    Ok(script)
}
