//! How far a script is.
ghost use Rattle.std.specs.Prelude.{◌≡◌, ◌<◌, ◌^◌, None, IfOk, OnOk, OnErr, option_copied, slice_get};
ghost use Rattle.mq_spec_node.specs.Words.{fresh, deadline_kept};
ghost use Rattle.mq_progress.specs.Course.{Finished, call_in, until_in};

use mq_base::NoMemory;
use mq_history::{Call, Reply, ScriptLine, ScriptPart};
use mq_lines::{Memory, deadline_of, line_call, wait_of};
use std::alloc::Global;
use std::marker::Model;

/// How far a script is: the number of lines that are done, what it remembers, and the deadline of a get that waits.
#[derive(Drop)]
pub struct Progress {
    alloc: Global,
    memory: Memory,
    lines: usize,
    until: Option<u64>,
}

impl Model for Progress {
    ghost use Rattle.mq_progress.specs.Course.{Course};

    ghost Value = { Course };

    ghost view = { λ p. record { memory = p.memory.memory; room = p.memory.room; done = p.lines; until = p.until } };
}

/// The deadline that is kept; else the one of a get that is first tried now.
fn kept_or(until: Option<u64>, moment: u64, wait: Option<u64>) -> Option<u64>
    ensures { result ≡ deadline_kept until moment wait }
{
    match until {
        None => deadline_of(moment, wait),
        Some(until) => Some(until),
    }
}

impl Progress {
    /// A script that has done nothing. It takes no memory.
    pub fn new(alloc: Global) -> Progress
        ensures { result ≡ record { memory = fresh; room = 0; done = 0; until = None } }
    {
        Progress {
            alloc,
            memory: Memory::new(alloc),
            lines: 0,
            until: None,
        }
    }

    /// The next line; none where the script is at its end.
    pub fn line<'a>(&self, part: &'a ScriptPart) -> Option<&'a ScriptLine>
        ensures { option_copied result ≡ slice_get part.now.lines self.now.done }
    {
        part.lines.get(self.lines)
    }

    /// The moment up to which the get of a line may wait, in milliseconds since 1970: kept since its first try, or from now on.
    pub fn until(&self, moment: u64, line: &ScriptLine) -> Option<u64>
        ensures { result ≡ until_in self.now moment line.now }
    {
        kept_or(self.until, moment, wait_of(line))
    }

    /// The call of a line of the script, at this moment.
    ///
    /// # Errors
    ///
    /// No memory for the body or the command that the call has.
    pub fn call(&self, part: &ScriptPart, moment: u64, line: &ScriptLine) -> Result<Call, NoMemory>
        ensures { IfOk result (λ call. call ≡ call_in part.now self.now moment line.now) }
    {
        let until = self.until(moment, line);
        line_call(self.alloc, &part.label, &self.memory, until, line)
    }

    /// Takes memory, so that the answer of one line more can be remembered.
    ///
    /// # Errors
    ///
    /// No memory; nothing has changed.
    pub fn make_room(&mut self) -> Result<(), NoMemory>
        ensures same { self.new ≡ record self.old { room = self.new.room } }
        ensures ok { OnOk result (0 < self.new.room) }
    {
        self.memory.make_room()
    }

    /// The get of the next line waits until this moment. It takes no memory.
    pub fn wait(&mut self, until: Option<u64>)
        ensures { self.new ≡ record self.old { until = until } }
    {
        self.until = until;
    }

    /// The next line is done, and was answered so. It takes no memory.
    pub fn finish(&mut self, line: &ScriptLine, reply: &Reply)
        requires room { 0 < self.old.room }
        requires more { self.old.done < 2 ^ 32 }
        ensures { Finished line.now reply.now self.old self.new }
    {
        self.memory.remember(line, reply);
        self.lines += 1;
        self.until = None;
    }
}
