//! What is true of the arguments of a command line. Each function does nothing, and its contract is the law.
ghost use Rattle.std.specs.Prelude.{◌≡◌, ◌≤◌, ℕ, List};
ghost use Rattle.ra_arguments.specs.Asked.{AreSameCommand, Asks};
ghost use Rattle.ra_arguments.specs.declared.command.Command.{Command};
ghost use Rattle.ra_arguments.specs.declared.command_line.Task.{Task};
ghost use Rattle.ra_arguments.specs.declared.command_line.search.SurveyTask.{SurveyTask};

/// Arguments ask for one command, unless memory runs out: with the same parameters, wherever the text of choices lies
/// and whatever a text of help says.
pub fn arguments_ask_for_one_command()
    ensures { (arguments : List (List ℕ)) (a b : Command) → Asks arguments a → Asks arguments b → AreSameCommand a b }
{}

/// The first seed of a survey that arguments ask for is at most the last.
pub fn surveyed_seeds_are_in_order()
    ensures { (arguments : List (List ℕ)) (asked : SurveyTask) → Asks arguments (Command.Task (Task.Survey asked))
        → asked.seeds.first ≤ asked.seeds.last }
{}
