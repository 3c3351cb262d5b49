//! The whole service.

ghost use Rattle.std.specs.Prelude.{◌≡◌, ◌↔◌, [], None, true};
ghost use Rattle.ks_outside.specs.Faults.{CountsFaults, Rises};
ghost use Rattle.ks_outside.specs.Images.{AllImages, tells};
ghost use Rattle.journal_records.specs.LastingPart.{Lasting};
ghost use Rattle.key_database.specs.Store.{StandsFor};
ghost use Rattle.rule_model.specs.Setup.{Setup};
ghost use Rattle.keystore_core.specs.Engine.{Stands, StandsAtFirst, StoreStands};
ghost use Rattle.keystore_server.specs.declared.end.ServeStatus.TheVariants as statuses;
ghost use Rattle.keystore_server.specs.Ends.{IsCompleted, Serves, ServesOn, is_listen_fault, refusal_of, status_of, without_memory};
ghost use Rattle.keystore_server.specs.Words.{IsWithin, form_of};

use crate::end::{ServeEnd, ServeStatus};
use crate::listening::serve_listener;
use crate::words::{ServeForm, serve_form_of};
use connection_workers::Attendance;
use keystore_core::{Engine, OpenFault};
use ks_outside::{Clock, Disk, Entropy, Gate};
use outside_net::HangsUp;
use shared_service::Shared;
use std::alloc::Global;
use std::sync::Wait;
use std::thread::Threads;
use tags::{DeviceSecrets, NoMemory, Policy};

/// The slots of a service's engine.
const SLOTS: usize = 16;

/// The status of a service whose store was not opened.
fn refusal(fault: OpenFault) -> ServeStatus
    ensures { result ≡ refusal_of fault }
{
    match fault {
        OpenFault::Device => ServeStatus::DiskFault,
        OpenFault::Corrupted { offset } => ServeStatus::Corrupted { offset },
        OpenFault::Memory => ServeStatus::Memory,
    }
}

/// The status of a service whose connections were attended so.
fn status_after(attendance: Attendance) -> ServeStatus
    ensures { result ≡ status_of attendance }
{
    match attendance {
        Attendance::Served => ServeStatus::Ok,
        Attendance::ListenFault => ServeStatus::ListenFault,
        Attendance::Memory => ServeStatus::Memory,
    }
}

/// The end of a service for which there was no memory.
fn ended_without_memory<B, D, N>(listener: B, back: (NoMemory, Engine, D, N)) -> ServeEnd<B, D, N>
    ensures { result ≡ without_memory listener back.2 back.3 }
{
    let (NoMemory, engine, disk, entropy) = back;
    drop(engine);
    ServeEnd {
        status: ServeStatus::Memory,
        listener,
        disk,
        entropy,
        book: None,
    }
}

/// Serves the connections of a listener over an engine as it was opened.
fn serve_opened<
    R: Threads + Wait + Sync,
    B: HangsUp + Send + Drop,
    D: Disk + Send + Drop,
    N: Entropy + Send + Drop,
    C: Clock + Sync,
    G: Gate + Sync,
>(
    rt: &R,
    alloc: Global,
    form: ServeForm,
    engine: Engine,
    listener: B,
    disk: D,
    entropy: N,
    clock: &C,
    gate: &G,
) -> ServeEnd<B, D, N>
where
    B::L: Send,
    requires within { IsWithin form }
    requires first { StandsAtFirst engine }
    requires store { (setup : Setup) → Stands setup engine [] → StoreStands D.Disk setup engine disk [] }
    ensures serves { (setup : Setup) → Stands setup engine [] → ServesOn B.Listener B.L.Link D.Disk N.Entropy (C.shows clock.now) B.leaves setup form listener disk entropy result }
{
    match Shared::new(alloc, engine, disk, entropy, form.workers) {
        Ok((shared, passes)) => {
            let connections = u64::from(form.connections);
            let (passes, listener, attendance) = serve_listener(
                rt,
                alloc,
                &shared,
                passes,
                listener,
                connections,
                clock,
                gate,
            );
            let (engine, disk, entropy, book) = shared.close(rt, passes);
            drop(engine);
            ServeEnd {
                status: status_after(attendance),
                listener,
                disk,
                entropy,
                book: Some(book),
            }
        }
        Err(back) => ended_without_memory(listener, back),
    }
}

/// Serves the words `serve PORT CONNECTIONS WORKERS`, and optionally `--trace`, which is its caller's matter: opens the store of the disk, and serves so many connections of the listener over it,
/// or as many as come, so many of them at a time where threads can be made. The port is the listener's matter. Each connection is served
/// as `serve_connection` says, all on one shared service, which is closed at the end. The gate is called between the
/// two turns of each call that has a work.
pub fn serve_words<
    R: Threads + Wait + Sync,
    B: HangsUp + Send + Drop,
    D: Disk + Send + Drop,
    N: Entropy + Send + Drop,
    C: Clock + Sync,
    G: Gate + Sync,
>(
    rt: &R,
    alloc: Global,
    words: &[String],
    device: &DeviceSecrets,
    policy: &Policy,
    listener: B,
    disk: D,
    entropy: N,
    clock: &C,
    gate: &G,
) -> ServeEnd<B, D, N>
where
    B::L: Send,
    // Usage exactly where the words are no form, and then nothing is listened to, read, drawn or changed.
    ensures usage { (result.status ≡ statuses.Usage) ↔ (form_of words.now ≡ None) }
    ensures untouched { result.status ≡ statuses.Usage → (result.listener ≡ listener) × (result.disk ≡ disk) × (result.entropy ≡ entropy) × (result.book ≡ None) }

    // What the form came to, over the lasting part that the store stood for.
    ensures serves { (form : ServeForm) → form_of words.now ≡ Some form → Serves B.Listener B.L.Link D.Disk N.Entropy (C.shows clock.now) B.leaves device.now policy.now form listener disk entropy result }

    // A call of the listener failed exactly where the status says so; where it says that the disk failed it did.
    ensures listen_faults { CountsFaults (B.Listener.fault_count listener) (B.Listener.fault_count result.listener) (is_listen_fault result.status) }
    ensures disk_faults { result.status ≡ statuses.DiskFault → Rises (D.fault_count disk) (D.fault_count result.disk) }

    // Over a formatted disk that tells its content the store is opened, unless memory is wanting or the disk fails.
    ensures complete { (part : Lasting) → AllImages D.Disk disk (StandsFor part) → tells D.Disk disk ≡ true → IsCompleted result.status }
{
    let Some(form) = serve_form_of(words) else {
        return ServeEnd {
            status: ServeStatus::Usage,
            listener,
            disk,
            entropy,
            book: None,
        };
    };
    let mut disk = disk;
    match Engine::open(alloc, device, policy, SLOTS, &mut disk) {
        Ok(engine) => serve_opened(
            rt, alloc, form, engine, listener, disk, entropy, clock, gate,
        ),
        Err(fault) => ServeEnd {
            status: refusal(fault),
            listener,
            disk,
            entropy,
            book: None,
        },
    }
}
