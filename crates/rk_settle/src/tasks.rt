ghost use Rattle.std.specs.Prelude.{◌≡◌, ◌++◌, ◌∷◌, [], None, IfSome, OnOk};

use crate::task::Task;
use rk_types::NoMemory;
use std::alloc::Global;
use std::marker::Model;

// From the first one on there is room for so many tasks, so that a command seldom takes memory again.
const ROOM: usize = 16;

/// The tasks that are left. Contracts see their list, the next one first.
#[derive(Drop)]
pub(crate) struct Tasks {
    // The next one last.
    stack: Vec<Task>,
}

impl Model for Tasks {
    ghost use Rattle.std.specs.Prelude.{List, reverse};
    ghost use Rattle.rk_settle.specs.declared.task.Task.{Task as Step};

    ghost Value = { List Step };

    ghost view = { λ tasks. reverse tasks.stack.items };
}

impl Tasks {
    /// No tasks, which takes no memory.
    pub(crate) fn new(alloc: Global) -> Tasks
        ensures { result ≡ [] }
    {
        Tasks {
            stack: Vec::new(alloc),
        }
    }

    /// Takes the next task out.
    pub(crate) fn pop(&mut self) -> Option<Task>
        ensures some { IfSome result (λ task. self.old ≡ task ∷ self.new) }
        ensures none { result ≡ None → self.old ≡ [] }
        ensures left { result ≡ None → self.new ≡ [] }
    {
        self.stack.pop()
    }

    /// Puts a task before all others.
    pub(crate) fn push(&mut self, task: Task) -> Result<(), NoMemory>
        ensures { OnOk result (self.new ≡ task ∷ self.old) }
    {
        make_room(&mut self.stack)?;
        self.stack.push(task)?;
        Ok(())
    }

    /// Puts tasks before all others, the first of them first.
    pub(crate) fn push_all(&mut self, tasks: &[Task]) -> Result<(), NoMemory>
        ensures { OnOk result (self.new ≡ tasks.now ++ self.old) }
    {
        make_room(&mut self.stack)?;
        self.stack.extend(tasks.iter().rev().copied())?;
        Ok(())
    }

    /// Where what is made takes its memory.
    pub(crate) fn alloc(&self) -> Global {
        *self.stack.allocator()
    }
}

// There is room for the first tasks.
fn make_room(stack: &mut Vec<Task>) -> Result<(), NoMemory>
    ensures { OnOk result (stack.new.items ≡ stack.old.items) }
{
    if stack.capacity() < ROOM {
        stack.reserve(ROOM)?;
    }
    Ok(())
}
