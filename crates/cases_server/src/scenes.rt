//! Sessions and workers that share a server, each time one without entries.
ghost use Rattle.std.specs.Prelude.{◌≡◌, false, Some};

use crate::looks::{print_beside, print_claims_later};
use crate::passes::{Server, print_split, print_work, split_off};
use crate::runs::service;
use crate::threads::{print_gate, print_race};
use cal_base::NoMemory;
use cal_book::Book;
use std::alloc::Global;
use std::io;
use std::sync::Wait;
use std::thread::Threads;
use turn_lock::Pass;

/// What is shown of two passes, or of a third beside them.
#[derive(Clone, Copy)]
enum Scene {
    /// What a session sees that another pass put.
    Split,
    /// What a worker does.
    Work,
    /// What two sessions in two threads are answered that change one object by one tag.
    Race,
    /// That a query is answered while the expansion of a worker is held.
    Gate,
    /// What a report shows that is held while it is worked out, and what others put and read meanwhile.
    Beside,
    /// How many pieces are claimed behind a report of a later year.
    Later,
}

/// All of it, in the order in which it is printed.
const SCENES: [Scene; 6] = [
    Scene::Split,
    Scene::Work,
    Scene::Race,
    Scene::Gate,
    Scene::Beside,
    Scene::Later,
];

/// Prints what is shown of the first pass of a server and of one that is split from it.
fn print_at<R: Threads + Wait + Sync + Print>(
    rt: &R,
    server: &Server<'_, Book>,
    first: Pass<Book>,
    scene: Scene,
) -> io::Result<()>
    requires first { (first.lock ≡ server.now.lock.now) × (first.holds_turn ≡ false) × (first.base ≡ Some server.now.users.now) }
{
    let mut first = first;
    match split_off(rt, server, &mut first) {
        Ok(second) => match scene {
            Scene::Split => print_split(rt, server, first, second),
            Scene::Work => print_work(rt, server, first, second),
            Scene::Race => print_race(rt, server, first, second),
            Scene::Gate => print_gate(rt, server, first, second),
            Scene::Beside => print_beside(rt, server, first, second),
            Scene::Later => print_claims_later(rt, server, first, second),
        },
        Err(NoMemory) => println!(rt; "out of memory"),
    }
}

/// Prints it at a server without entries.
fn print_scene<R: Threads + Wait + Sync + Print>(
    rt: &R,
    alloc: Global,
    scene: Scene,
) -> io::Result<()> {
    match service(alloc) {
        Ok((service, first, users)) => {
            let server = Server {
                alloc,
                lock: service.lock(),
                users: &users,
            };
            print_at(rt, &server, first, scene)
        }
        Err(NoMemory) => println!(rt; "out of memory"),
    }
}

/// Prints all that is shown of two passes.
pub fn print_scenes<R: Threads + Wait + Sync + Print>(rt: &R, alloc: Global) -> io::Result<()> {
    for scene in SCENES {
        print_scene(rt, alloc, scene)?;
    }
    Ok(())
}
