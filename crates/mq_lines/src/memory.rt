//! What a script remembers of what it was answered: its connection, its handles, the message that it got last.
ghost use Rattle.std.specs.Prelude.{◌≡◌, ◌<◌, ◌≤◌, [], ◌∷◌, OnOk, OnErr, not, vec_len, vec_capacity};
ghost use Rattle.std.specs.Str.{bytes_eq};
ghost use Rattle.mq_spec_node.specs.Scripts.{fresh, hconn_or, hobj, hobj_in, connected, unbound, bound, closed, got, remembers};

use mq_base::{Label, NoMemory};
use mq_calls::{Answer, Hconn, Hobj};
use mq_message::Md;
use mq_spec_node::below::{Reply, ScriptLine};
use std::alloc::Global;
use std::marker::Model;

/// A label that is bound to an open handle.
#[derive(Drop)]
pub(crate) struct Bound {
    pub label: Label,
    pub handle: Hobj,
}

impl Model for Bound {
    ghost use Rattle.mq_spec_node.specs.Scripts as scripts;

    ghost Value = { scripts.Bound };

    ghost view = { λ b. record { label = b.label; handle = b.handle } };
}

/// What a script remembers, and room for what it is answered next: remembering takes no memory and cannot fail.
#[derive(Drop)]
pub struct Memory {
    connection: Option<Hconn>,
    handles: Vec<Bound>,
    last: Option<Md>,
    /// So many more labels can be bound.
    room: usize,
}

impl Model for Memory {
    ghost use Rattle.std.specs.Prelude.{◌+◌, ◌≤◌, vec_len, vec_capacity};
    ghost use Rattle.mq_lines.specs.Recalls.{Recall};

    ghost Value = { Recall };

    ghost view = { λ m. record { memory = record { connection = m.connection; handles = m.handles.items; last = m.last }; room = m.room } };

    ghost invariant = { λ m. vec_len m.handles + m.room ≤ vec_capacity m.handles };
}

/// The handle of a label; none where it isn't bound.
fn hobj_in(label: &Label, handles: &[Bound]) -> Hobj
    ensures { result ≡ hobj_in label.now handles.now }
{
    for bound in handles {
        if *label == bound.label {
            return bound.handle;
        }
    }
    Hobj { number: 0 }
}

fn is_other(label: &Label, bound: &Bound) -> bool
    ensures { result ≡ not (bytes_eq label.now bound.now.label) }
{
    !(*label == bound.label)
}

/// The label is bound no more.
fn drop_label(handles: &mut Vec<Bound>, label: &Label)
    ensures handles { handles.new.items ≡ unbound label.now handles.old.items }
    ensures shorter { vec_len handles.new ≤ vec_len handles.old }
    ensures capacity { vec_capacity handles.new ≡ vec_capacity handles.old }
{
    handles.retain(|bound| is_other(label, bound));
}

/// The connection that was answered.
pub fn connected(reply: &Reply) -> Option<Hconn>
    ensures { result ≡ connected reply.now }
{
    match reply {
        Reply::Connected(Answer::Ok(hc)) => Some(*hc),
        _ => None,
    }
}

impl Memory {
    /// A script that has done nothing remembers nothing. It takes no memory.
    pub fn new(alloc: Global) -> Memory
        ensures { result ≡ record { memory = fresh; room = 0 } }
    {
        Memory {
            connection: None,
            handles: Vec::new(alloc),
            last: None,
            room: 0,
        }
    }

    /// Takes memory, so that one more answer can be remembered.
    ///
    /// # Errors
    ///
    /// No memory; nothing has changed.
    pub fn make_room(&mut self) -> Result<(), NoMemory>
        ensures memory { self.new.memory ≡ self.old.memory }
        ensures ok { OnOk result (0 < self.new.room) }
        ensures err { OnErr result (self.new ≡ self.old) }
    {
        if self.room > 0 {
            return Ok(());
        }
        if self.handles.reserve(1).is_err() {
            return Err(NoMemory);
        }
        self.room = 1;
        Ok(())
    }

    /// The connection; a handle that is none where there is no connection.
    pub(crate) fn hconn(&self) -> Hconn
        ensures { result ≡ hconn_or self.now.memory.connection }
    {
        match self.connection {
            None => Hconn {
                manager: 0,
                incarnation: 0,
                number: 0,
            },
            Some(hc) => hc,
        }
    }

    /// The handle of a label; none where it isn't bound.
    pub(crate) fn hobj(&self, label: &Label) -> Hobj
        ensures { result ≡ hobj label.now self.now.memory }
    {
        hobj_in(label, self.handles.as_slice())
    }

    /// The descriptor of the message that was got last.
    pub(crate) fn last(&self) -> &Option<Md>
        ensures { result.now ≡ self.now.memory.last }
    {
        &self.last
    }

    /// It has this connection, and no label is bound.
    fn restart(&mut self, connection: Option<Hconn>)
        ensures { self.new.memory ≡ record self.old.memory { connection = connection; handles = [] } }
    {
        self.connection = connection;
        self.handles.clear();
    }

    fn unbind(&mut self, label: &Label)
        ensures memory { self.new.memory ≡ record self.old.memory { handles = unbound label.now self.old.memory.handles } }
        ensures room { self.new.room ≡ self.old.room }
    {
        drop_label(&mut self.handles, label);
    }

    fn bind(&mut self, label: &Label, handle: Hobj)
        requires { 0 < self.old.room }
        ensures { self.new.memory ≡ record self.old.memory { handles = record { label = label.now; handle = handle } ∷ unbound label.now self.old.memory.handles } }
    {
        self.unbind(label);
        self.room -= 1;
        let bound = Bound {
            label: *label,
            handle,
        };
        self.handles.insert(0, bound).unwrap();
    }

    fn open(&mut self, label: &Label, reply: &Reply)
        requires { 0 < self.old.room }
        ensures { self.new.memory ≡ bound label.now reply.now self.old.memory }
    {
        match reply {
            Reply::Opened(Answer::Ok(handle)) => self.bind(label, *handle),
            _ => {}
        }
    }

    fn close(&mut self, label: &Label, reply: &Reply)
        ensures { self.new.memory ≡ closed label.now reply.now self.old.memory }
    {
        match reply {
            Reply::Ended(Answer::Ok(())) => self.unbind(label),
            _ => {}
        }
    }

    fn get(&mut self, reply: &Reply)
        ensures { self.new.memory ≡ got reply.now self.old.memory }
    {
        match reply {
            Reply::Got(Answer::Ok(got)) => self.last = Some(got.md),
            Reply::Got(Answer::Warning(_, got)) => self.last = Some(got.md),
            _ => {}
        }
    }

    /// What a line was answered. It takes no memory.
    pub fn remember(&mut self, line: &ScriptLine, reply: &Reply)
        requires { 0 < self.old.room }
        ensures { self.new.memory ≡ remembers line.now reply.now self.old.memory }
    {
        match line {
            ScriptLine::Mqconn(_) => self.restart(connected(reply)),
            ScriptLine::Mqdisc => self.restart(None),
            ScriptLine::Mqopen { handle, .. } => self.open(handle, reply),
            ScriptLine::Mqclose(handle) => self.close(handle, reply),
            ScriptLine::Mqget { .. } => self.get(reply),
            _ => {}
        }
    }
}
