// Which commands take a script, and which make their report whole.

ghost use Rattle.std.specs.Prelude.{◌≡◌};
ghost use Rattle.engine.specs.Commands.{is_whole, takes_script};

use ped_words::Command;

/// Whether the command's report is made whole before it is written. That of `stream` isn't.
pub fn is_whole(command: &Command) -> bool
    ensures { result ≡ is_whole command.now }
{
    !matches!(command, Command::Stream { .. })
}

/// Whether the command reads a script from the source.
pub fn takes_script(command: &Command) -> bool
    ensures { result ≡ takes_script command.now }
{
    !matches!(
        command,
        Command::Hash { .. } | Command::Gen { .. } | Command::Stream { .. }
    )
}
