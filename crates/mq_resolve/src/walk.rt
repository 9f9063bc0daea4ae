//! The walk from a name to where it leads, over aliases and remote queues.
ghost use Rattle.std.specs.Prelude.{◌≡◌, ◌≤◌, ◌++◌, ◌∷◌, length, [], Some, Ok, false, IfOk, IsTrue};
ghost use Rattle.mq_objects.specs.Names.{queue_of};
ghost use Rattle.mq_objects.specs.declared.object.Object.TheVariants as objects;
ghost use Rattle.mq_resolve.specs.declared.route.PathStep.TheVariants.{Queue};
ghost use Rattle.mq_resolve.specs.Resolved.{is_blank, is_here, here, via, transmission, remote_table, look_up, look_up_table, whole_table, resolve, end_stands};

use crate::path::Path;
use crate::route::{PathStep, Route, RouteEnd};
use crate::way::{Way, transmission};
use mq_codes::Reason;
use mq_objects::below::QName;
use mq_objects::{AliasQueue, Defs, Object, RemoteQueue};

/// The blank name and the own name stand for this manager.
fn is_here(own: &QName, manager: &QName) -> bool
    ensures { result ≡ is_here own.now manager.now }
{
    manager.is_blank() || manager.text() == own.text()
}

/// On by a transmission queue, for a queue of another manager.
fn via(
    name: &QName,
    manager: &QName,
    before: Path,
    way: Result<Way, Reason>,
) -> Result<Route, Reason>
    requires { length before ≤ 3 }
    ensures { result ≡ via name.now manager.now before way }
{
    let way = way?;
    let mut path = before;
    if way.by_default {
        path.push(PathStep::DefXmitq);
    }
    path.push(PathStep::Queue(way.queue));
    Ok(Route {
        end: RouteEnd::Via {
            xq: way.queue,
            rq: *name,
            rqm: *manager,
        },
        path,
    })
}

/// The local queue of a name.
fn here(name: &QName, before: Path) -> Route
    requires { length before ≤ 4 }
    ensures { here name.now before ≡ Ok result }
{
    let mut path = before;
    path.push(PathStep::Queue(*name));
    Route {
        end: RouteEnd::Local(*name),
        path,
    }
}

/// On by a remote definition that stands under a name.
fn by_remote(
    defs: &Defs,
    own: &QName,
    name: &QName,
    remote: &RemoteQueue,
    before: Path,
) -> Result<Route, Reason>
    requires { length before ≤ 2 }
    ensures { result ≡ remote_table own.now name.now (Some (objects.Remote remote.now)) before defs.now.definitions }
{
    if remote.remote_name.is_blank() {
        return Err(Reason::RemoteQueueNameError);
    }
    if is_here(own, &remote.remote_manager) {
        return Err(Reason::UnknownRemoteQueueManager);
    }
    let mut path = before;
    path.push(PathStep::Queue(*name));
    let way = transmission(defs, &remote.remote_manager, &remote.transmission_queue);
    via(&remote.remote_name, &remote.remote_manager, path, way)
}

/// On by an alias that stands under a name.
fn by_alias(
    defs: &Defs,
    own: &QName,
    name: &QName,
    alias: &AliasQueue,
    before: Path,
) -> Result<Route, Reason>
    requires { length before ≤ 1 }
    ensures { result ≡ look_up_table own.now name.now (Some (objects.Alias alias.now)) (queue_of alias.now.target defs.now.definitions) before defs.now.definitions }
{
    if alias.target.is_blank() {
        return Err(Reason::UnknownAliasBaseQueue);
    }
    let mut path = before;
    path.push(PathStep::Queue(*name));
    match defs.queue(&alias.target) {
        Some(Object::Alias(_)) => Err(Reason::AliasBaseQueueTypeError),
        Some(Object::Local(_)) => Ok(here(&alias.target, path)),
        Some(Object::Remote(remote)) => by_remote(defs, own, &alias.target, remote, path),
        _ => Err(Reason::UnknownAliasBaseQueue),
    }
}

/// Looks a name up among the queues of this manager.
fn look_up(defs: &Defs, own: &QName, name: &QName, before: Path) -> Result<Route, Reason>
    requires { length before ≤ 1 }
    ensures { result ≡ look_up own.now name.now before defs.now.definitions }
{
    match defs.queue(name) {
        Some(Object::Local(_)) => Ok(here(name, before)),
        Some(Object::Alias(alias)) => by_alias(defs, own, name, alias, before),
        Some(Object::Remote(remote)) => by_remote(defs, own, name, remote, before),
        _ => Err(Reason::UnknownObjectName),
    }
}

/// On by a remote definition that stands under the name of a manager.
fn by_manager_alias(
    defs: &Defs,
    own: &QName,
    name: &QName,
    manager: &QName,
    alias: &RemoteQueue,
) -> Result<Route, Reason>
    requires name { is_blank name.now ≡ false }
    requires manager { is_here own.now manager.now ≡ false }
    ensures { result ≡ whole_table own.now name.now manager.now (Some (objects.Remote alias.now)) defs.now.definitions }
{
    if !alias.remote_name.is_blank() {
        return Err(Reason::UnknownRemoteQueueManager);
    }
    let mut path = Path::new();
    path.push(PathStep::Queue(*manager));
    if is_here(own, &alias.remote_manager) {
        return look_up(defs, own, name, path);
    }
    let way = transmission(defs, &alias.remote_manager, &alias.transmission_queue);
    via(name, &alias.remote_manager, path, way)
}

/// On by a transmission queue for a manager of that very name.
fn direct(defs: &Defs, name: &QName, manager: &QName) -> Result<Route, Reason>
    ensures { result ≡ via name.now manager.now [] (transmission manager.now [] defs.now.definitions) }
{
    let way = transmission(defs, manager, &QName::blank());
    via(name, manager, Path::new(), way)
}

/// On by the name of another manager.
fn elsewhere(defs: &Defs, own: &QName, name: &QName, manager: &QName) -> Result<Route, Reason>
    requires name { is_blank name.now ≡ false }
    requires manager { is_here own.now manager.now ≡ false }
    ensures { result ≡ resolve defs.now.definitions own.now name.now manager.now }
{
    match defs.queue(manager) {
        Some(Object::Remote(alias)) => by_manager_alias(defs, own, name, manager, alias),
        _ => direct(defs, name, manager),
    }
}

fn walk_from(defs: &Defs, own: &QName, name: &QName, manager: &QName) -> Result<Route, Reason>
    ensures { result ≡ resolve defs.now.definitions own.now name.now manager.now }
{
    if name.is_blank() && is_here(own, manager) {
        return Err(Reason::UnknownObjectName);
    }
    if name.is_blank() {
        return Err(Reason::RemoteQueueNameError);
    }
    if is_here(own, manager) {
        return look_up(defs, own, name, Path::new());
    }
    elsewhere(defs, own, name, manager)
}

/// Where a queue's name at a manager's name leads, by the definitions of the manager `own`: to a
/// local queue, or by a transmission queue to another manager. The blank manager's name is the own.
/// It takes no memory.
///
/// # Errors
/// The reason of the first row that applies (IBM MQ: "Name resolution"): 2001, 2082, 2085, 2087,
/// 2091, 2092, 2184, 2196, 2197, 2198 or 2199.
pub fn resolve(defs: &Defs, own: &QName, name: &QName, manager: &QName) -> Result<Route, Reason>
    ensures answer { result ≡ resolve defs.now.definitions own.now name.now manager.now }

    // A route ends at a defined local queue, or goes by a defined transmission queue with no blank name.
    ensures end { IfOk result (λ route. IsTrue (end_stands route.end defs.now.definitions)) }
{
    walk_from(defs, own, name, manager)
}
