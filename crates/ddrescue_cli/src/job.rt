//! What the words ask for, read and checked before anything else is touched.
ghost use Rattle.std.specs.Prelude.{IfOk, IfErr};
ghost use Rattle.ddrescue_words.specs.Asking.{IsAsked, IsTask, told_by};
ghost use Rattle.ddrescue_cli.specs.Aims.{task_for};
ghost use Rattle.ddrescue_cli.specs.Jobs.{IsAnswered, IsJobFor};

use crate::aim::Aim;
use ddrescue_words::command::{Command, Task, read_command};
use option_words::command_error::CommandError;
use option_words::words::Words;
use std::alloc::Global;
use task_files::checked::{CheckedCommand, check_command};
use task_files::ending::{Ended, Ending};

/// What a call has to do.
#[derive(Drop)]
pub(crate) enum Job<'a> {
    /// The work on files that have different names.
    Files {
        checked: CheckedCommand<'a>,
        aim: Aim,
    },
    /// The rescue of a sample of this size in KiB, without a message if that is asked for.
    Sample {
        kib: u64,
        quiet: bool,
    },
}

/// The work on the files of a command. Two files with the same name are refused.
fn check_files<'a>(
    alloc: Global,
    words: &Words,
    aim: Aim,
    command: Command<'a>,
) -> Result<Job<'a>, Ended>
    requires { IsAsked words.now (task_for aim (told_by command)) }
    ensures job { IfOk result (λ job. IsJobFor words.now job) }
    ensures refused { IfErr result (λ ended. IsAnswered words.now ended) }
{
    let heard = !command.options.quiet;
    match check_command(alloc, words, command) {
        Ok(checked) => Ok(Job::Files { checked, aim }),
        Err(ending) => Err(Ended { ending, heard }),
    }
}

/// The job of a task that the words ask for.
fn check_task<'a>(alloc: Global, words: &Words, task: Task<'a>) -> Result<Job<'a>, Ended>
    requires { IsTask words.now task }
    ensures job { IfOk result (λ job. IsJobFor words.now job) }
    ensures refused { IfErr result (λ ended. IsAnswered words.now ended) }
{
    match task {
        Task::Rescue(command) => check_files(alloc, words, Aim::Rescue, command),
        Task::Fill { types, command } => check_files(alloc, words, Aim::Fill(types), command),
        Task::Generate(command) => check_files(alloc, words, Aim::Generate, command),
        Task::Sample { kib, quiet } => Ok(Job::Sample { kib, quiet }),
    }
}

/// The job that the words ask for; or else how the call ends without one, and whether that is to be said.
pub(crate) fn read_job(alloc: Global, words: &Words) -> Result<Job<'_>, Ended>
    ensures job { IfOk result (λ job. IsJobFor words.now job) }
    ensures refused { IfErr result (λ ended. IsAnswered words.now ended) }
{
    match read_command(alloc, words) {
        Ok(task) => check_task(alloc, words, task),
        Err(CommandError::NoMemory) => Err(Ended {
            ending: Ending::NoMemory,
            heard: true,
        }),
        Err(CommandError::Usage { fault, quiet }) => Err(Ended {
            ending: Ending::Usage(fault),
            heard: !quiet,
        }),
    }
}
