//! Who uses a queue, counted for each name: handles that have it open for input, and those over whose path it leads.

ghost use Rattle.std.specs.Prelude.{◌≡◌, true, None, OnOk, OnErr, IfSome};
ghost use Rattle.std.specs.Str.{bytes_eq};
ghost use Rattle.std.specs.HashMap.{get};
ghost use Rattle.mq_handles.specs.Users.Key.{Reader, Alone, OnPath};
ghost use Rattle.mq_handles.specs.Users.{Key, no_count, count_in, input_count, one_step, plus, name_weight, reader_weight, path_weight, weight_by, handle_weight, weight_of, key_weight, tally, AreAmong, IsPartOf, IsMore, IsSame, IsPut, IsLess};

use mq_base::{NoMemory, QName};
use mq_calls::below::{PathStep, RouteEnd};
use mq_calls::{Handle, Input, Open};
use std::alloc::Global;
use std::collections::HashMap;

/// How many handles use a queue.
#[derive(Clone, Copy)]
pub struct Count {
    /// Have it open for input.
    readers: u64,
    /// Have it open for input, alone.
    alone: u64,
    /// How often it stands on their paths.
    steps: u64,
}

/// Who uses each queue and the manager's DEFXMITQ.
#[derive(Drop)]
pub struct Users {
    /// For each name that is used.
    counts: HashMap<QName, Count>,
    /// How often DEFXMITQ stands on paths.
    defxmitq: u64,
}

impl Count {
    /// Of no handle.
    fn none() -> Count
        ensures { result ≡ no_count }
    {
        Count {
            readers: 0,
            alone: 0,
            steps: 0,
        }
    }

    /// Of a handle that has it open for so much input.
    fn of_input(input: Input) -> Count
        ensures { result ≡ input_count input }
    {
        match input {
            Input::No => Count::none(),
            Input::Shared => Count {
                readers: 1,
                alone: 0,
                steps: 0,
            },
            Input::Exclusive => Count {
                readers: 1,
                alone: 1,
                steps: 0,
            },
        }
    }

    /// Of a step of a path.
    fn step() -> Count
        ensures { result ≡ one_step }
    {
        Count {
            readers: 0,
            alone: 0,
            steps: 1,
        }
    }

    fn is_none(&self) -> bool
        ensures none { result ≡ true → self.now ≡ no_count }
        ensures some { self.now ≡ no_count → result ≡ true }
    {
        self.readers == 0 && self.alone == 0 && self.steps == 0
    }

    fn checked_add(&self, more: &Count) -> Option<Count>
        ensures { IfSome result (λ sum. sum ≡ plus self.now more.now) }
    {
        Some(Count {
            readers: self.readers.checked_add(more.readers)?,
            alone: self.alone.checked_add(more.alone)?,
            steps: self.steps.checked_add(more.steps)?,
        })
    }

    fn less(&self, less: &Count) -> Count
        requires { IsLess less.now self.now }
        ensures { plus result less.now ≡ self.now }
    {
        Count {
            readers: self.readers - less.readers,
            alone: self.alone - less.alone,
            steps: self.steps - less.steps,
        }
    }
}

impl Users {
    /// Nobody uses anything. It takes no memory.
    pub fn new(alloc: Global) -> Users
        ensures { (key : Key) → tally key result ≡ 0 }
    {
        Users {
            counts: HashMap::new(alloc),
            defxmitq: 0,
        }
    }

    fn count(&self, name: &QName) -> Count
        ensures { result ≡ count_in name.now self.now }
    {
        match self.counts.get(name) {
            None => Count::none(),
            Some(count) => *count,
        }
    }

    /// How many handles have a queue open for input.
    pub fn readers(&self, name: &QName) -> u64
        ensures { result ≡ tally (Reader name.now) self.now }
    {
        self.count(name).readers
    }

    /// How many handles have a queue open for input, alone.
    pub fn alone(&self, name: &QName) -> u64
        ensures { result ≡ tally (Alone name.now) self.now }
    {
        self.count(name).alone
    }

    /// How often a step stands on paths.
    pub fn steps(&self, step: &PathStep) -> u64
        ensures { result ≡ tally (OnPath step.now) self.now }
    {
        match step {
            PathStep::Queue(name) => self.count(name).steps,
            PathStep::DefXmitq => self.defxmitq,
        }
    }

    /// A name has another count.
    fn put(&mut self, name: &QName, count: Count) -> Result<(), NoMemory>
        ensures ok { OnOk result (IsPut name.now count self.old self.new) }
        ensures err { OnErr result (IsSame self.old self.new) }
        ensures absent { OnErr result (get bytes_eq self.old.counts name.now ≡ None) }
    {
        match self.counts.insert(*name, count) {
            Ok(_) => Ok(()),
            Err(_) => Err(NoMemory),
        }
    }

    fn add_count(&mut self, name: &QName, more: &Count) -> Result<(), NoMemory>
        ensures ok { OnOk result (IsMore (name_weight name.now more.now) self.old self.new) }
        ensures err { OnErr result (IsSame self.old self.new) }
    {
        match self.count(name).checked_add(more) {
            None => Err(NoMemory),
            Some(sum) => self.put(name, sum),
        }
    }

    fn drop_count(&mut self, name: &QName)
        ensures { IsPut name.now no_count self.old self.new }
    {
        self.counts.remove(name);
    }

    fn take_count(&mut self, name: &QName, less: &Count)
        requires { IsLess less.now (count_in name.now self.old) }
        ensures { IsMore (name_weight name.now less.now) self.new self.old }
    {
        let rest = self.count(name).less(less);
        if rest.is_none() {
            self.drop_count(name);
            return;
        }
        match self.put(name, rest) {
            Ok(()) => {}
            Err(_) => unreachable!(),
        }
    }

    fn add_reader(&mut self, input: Input, end: &RouteEnd) -> Result<(), NoMemory>
        ensures ok { OnOk result (IsMore (reader_weight input end.now) self.old self.new) }
        ensures err { OnErr result (IsSame self.old self.new) }
    {
        match end {
            RouteEnd::Local(queue) => self.add_input(queue, input),
            RouteEnd::Via { .. } => Ok(()),
        }
    }

    fn add_input(&mut self, queue: &QName, input: Input) -> Result<(), NoMemory>
        ensures ok { OnOk result (IsMore (name_weight queue.now (input_count input)) self.old self.new) }
        ensures err { OnErr result (IsSame self.old self.new) }
    {
        match input {
            Input::No => Ok(()),
            _ => self.add_count(queue, &Count::of_input(input)),
        }
    }

    fn take_reader(&mut self, input: Input, end: &RouteEnd)
        requires { AreAmong (reader_weight input end.now) self.old }
        ensures { IsMore (reader_weight input end.now) self.new self.old }
    {
        match end {
            RouteEnd::Local(queue) => self.take_input(queue, input),
            RouteEnd::Via { .. } => {}
        }
    }

    fn take_input(&mut self, queue: &QName, input: Input)
        requires { AreAmong (name_weight queue.now (input_count input)) self.old }
        ensures { IsMore (name_weight queue.now (input_count input)) self.new self.old }
    {
        match input {
            Input::No => {}
            _ => self.take_count(queue, &Count::of_input(input)),
        }
    }

    fn add_step(&mut self, step: &PathStep) -> Result<(), NoMemory>
        ensures ok { OnOk result (IsMore (λ key. key_weight key step.now) self.old self.new) }
        ensures err { OnErr result (IsSame self.old self.new) }
    {
        match step {
            PathStep::Queue(name) => self.add_count(name, &Count::step()),
            PathStep::DefXmitq => match self.defxmitq.checked_add(1) {
                None => Err(NoMemory),
                Some(more) => {
                    self.defxmitq = more;
                    Ok(())
                }
            },
        }
    }

    fn take_step(&mut self, step: &PathStep)
        requires { AreAmong (λ key. key_weight key step.now) self.old }
        ensures { IsMore (λ key. key_weight key step.now) self.new self.old }
    {
        match step {
            PathStep::Queue(name) => self.take_count(name, &Count::step()),
            PathStep::DefXmitq => self.defxmitq -= 1,
        }
    }

    fn take_path(&mut self, path: &[PathStep])
        requires { AreAmong (path_weight path.now) self.old }
        ensures { IsMore (path_weight path.now) self.new self.old }
    {
        for step in path {
            self.take_step(step);
        }
    }

    fn add_path(&mut self, path: &[PathStep]) -> Result<(), NoMemory>
        ensures ok { OnOk result (IsMore (path_weight path.now) self.old self.new) }
        ensures err { OnErr result (IsSame self.old self.new) }
    {
        for at in 0..path.len() {
            match self.add_step(&path[at]) {
                Ok(()) => {}
                Err(_) => {
                    let (done, _) = path.split_at(at);
                    self.take_path(done);
                    return Err(NoMemory);
                }
            }
        }
        Ok(())
    }

    /// Counts a handle in.
    ///
    /// # Errors
    ///
    /// No memory, or a count above its type; the same is counted as before.
    pub fn add(&mut self, how: &Open, end: &RouteEnd, path: &[PathStep]) -> Result<(), NoMemory>
        ensures ok { OnOk result (IsMore (weight_by how.now end.now path.now) self.old self.new) }
        ensures err { OnErr result (IsSame self.old self.new) }
    {
        match self.add_reader(how.input, end) {
            Ok(()) => self.add_path_behind(how.input, end, path),
            Err(_) => Err(NoMemory),
        }
    }

    /// Counts a path in; where that fails, the reader that was counted in before is counted out.
    fn add_path_behind(
        &mut self,
        input: Input,
        end: &RouteEnd,
        path: &[PathStep],
    ) -> Result<(), NoMemory>
        requires { AreAmong (reader_weight input end.now) self.old }
        ensures ok { OnOk result (IsMore (path_weight path.now) self.old self.new) }
        ensures err { OnErr result (IsMore (reader_weight input end.now) self.new self.old) }
    {
        match self.add_path(path) {
            Ok(()) => Ok(()),
            Err(_) => {
                self.take_reader(input, end);
                Err(NoMemory)
            }
        }
    }

    /// Counts a handle out. It takes no memory.
    pub fn take(&mut self, handle: &Handle)
        requires { AreAmong (λ key. handle_weight key handle.now) self.old }
        ensures { IsMore (λ key. handle_weight key handle.now) self.new self.old }
    {
        self.take_path(handle.path.as_slice());
        self.take_reader(handle.how.input, &handle.leads);
    }

    /// Counts handles out. It takes no memory.
    pub fn take_all(&mut self, handles: &[Handle])
        requires { IsPartOf handles.now self.old }
        ensures { IsMore (λ key. weight_of (handle_weight key) handles.now) self.new self.old }
    {
        for handle in handles {
            self.take(handle);
        }
    }
}
