// The commands of a script that are still to come.
ghost use Rattle.std.specs.Prelude.{◌≡◌, ◌≤◌, ◌∷◌, [], drop, length, IfSome, IfNone};

use rk_script::Numbered;
use std::marker::Model;

/// Below so many commands no memory is given back.
const FEW: usize = 1_024;

/// The commands that are still to come. They give their memory back as they are taken, so that a long script is not held in memory
/// beside what its calls leave behind.
#[derive(Drop)]
pub(crate) struct Coming {
    // The next one is the last.
    reversed: Vec<Numbered>,
}

impl Model for Coming {
    ghost use Rattle.std.specs.Prelude.{List, reverse};
    ghost use Rattle.rk_script.specs.declared.command.Numbered.{Numbered};

    ghost Value = { List Numbered };

    ghost view = { λ coming. reverse coming.reversed.items };
}

impl Coming {
    /// The commands behind the first ones, of which there are at least so many.
    pub(crate) fn behind(commands: Vec<Numbered>, count: usize) -> Coming
        requires { count ≤ length commands.items }
        ensures { result ≡ drop count commands.items }
    {
        let left = commands.len() - count;
        let mut reversed = commands;
        reversed.reverse();
        reversed.truncate(left);
        Coming { reversed }
    }

    /// Takes the next command; none comes exactly if none is left.
    pub(crate) fn next(&mut self) -> Option<Numbered>
        ensures some { IfSome result (λ first. self.old ≡ first ∷ self.new) }
        ensures none { IfNone result (self.old ≡ []) }
    {
        let next = self.reversed.pop();
        let room = self.reversed.capacity();
        if room > FEW && self.reversed.len() <= room / 2 {
            self.reversed.shrink_to_fit();
        }
        next
    }
}
