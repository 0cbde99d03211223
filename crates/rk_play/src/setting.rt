// How many masters and backups a script asks for, before its other commands.
ghost use Rattle.std.specs.Prelude.{All, IfErr, IfOk};
ghost use Rattle.rk_script.specs.Lawful.{IsLawful};
ghost use Rattle.rk_play.specs.Settings.{IsOpened, IsRefusedEarly};

use rk_script::{Command, Numbered};

/// How many masters and backups a script asks for, if it does, and how many commands it takes to say so.
#[derive(Clone, Copy)]
pub(crate) struct Opening {
    pub(crate) masters: Option<u8>,
    pub(crate) backups: Option<u8>,
    pub(crate) count: usize,
}

/// Reads the numbers that commands set before all others. If one is set twice, the answer is the line of that command.
pub(crate) fn read_opening(commands: &[Numbered]) -> Result<Opening, u32>
    requires { All IsLawful commands.now }
    ensures ok { IfOk result (IsOpened commands.now) }
    ensures err { IfErr result (IsRefusedEarly commands.now) }
{
    let mut opening = Opening {
        masters: None,
        backups: None,
        count: 0,
    };
    'commands: for numbered in commands {
        match numbered.command {
            Command::Masters(masters) => {
                if opening.masters.is_some() {
                    return Err(numbered.line);
                }
                opening.masters = Some(masters);
            }
            Command::Backups(backups) => {
                if opening.backups.is_some() {
                    return Err(numbered.line);
                }
                opening.backups = Some(backups);
            }
            _ => return Ok(opening),
        }
        opening.count += 1;
    }
    Ok(opening)
}
