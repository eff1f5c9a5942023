//! Options that are given but have no effect.
use crate::given_options::is_given;
use crate::notice::write_line;
use ra_arguments::{InputKind, PolicyName, Task, sim_options};
use std::io::Write;

/// Returns the word for the policy of a task, or `None` if the task has no policy.
fn policy_word(task: &Task<'_>) -> Option<&'static str> {
    match task {
        Task::Sim { policy, .. } => Some(match policy {
            PolicyName::Oldest => "oldest",
            PolicyName::Newest => "newest",
            PolicyName::Seeded(_) => "seeded",
            PolicyName::Faulty { .. } => "faulty",
            PolicyName::Listed => "listed",
        }),
        Task::Survey(survey) => Some(if survey.faults.is_some() {
            "faulty"
        } else {
            "seeded"
        }),
        _ => None,
    }
}

/// Writes a line for each option that is given for a task but has no effect. It does not allocate, and ignores a failure
/// of the writer.
pub fn write_unused_options<N: Write>(arguments: &[String], task: &Task<'_>, notes: &mut N) {
    if let Task::Check { .. } | Task::CheckMarks { .. } = task
        && is_given(arguments, "every")
    {
        write_line(notes, "--every is ignored: only --follow uses it");
    }
    if let Task::CheckAll { .. } = task
        && is_given(arguments, "every")
    {
        write_line(notes, "--every is ignored: --all does not use it");
    }
    if let Task::Check { .. }
    | Task::Follow {
        kind: InputKind::Trace,
        ..
    } = task
        && is_given(arguments, "all")
    {
        write_line(notes, "--all is ignored: only --marks uses it");
    }
    if let Task::CheckAll { .. } = task
        && is_given(arguments, "json")
    {
        write_line(notes, "--json is ignored: --all prints words");
    }
    let Some(policy) = policy_word(task) else {
        return;
    };
    for option in sim_options() {
        if let Some(text) = option.unused_under(policy)
            && is_given(arguments, option.name())
        {
            write_line(notes, text);
        }
    }
    match task {
        Task::Sim {
            policy: PolicyName::Listed,
            choices,
            ..
        } if choices.is_empty() => write_line(
            notes,
            "--policy listed has nothing to do: --choices is missing or empty",
        ),
        Task::Survey(_) if is_given(arguments, "seed") => {
            write_line(notes, "--seed is ignored: --seeds gives the seeds");
        }
        _ => {}
    }
}
