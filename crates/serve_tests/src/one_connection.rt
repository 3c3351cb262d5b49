//! One connection to a service of its own, and how it ends.

ghost use Rattle.std.specs.Prelude.{◌≡◌, ◌≤◌, None, false, length, IfOk, IfSome};
ghost use Rattle.shared_service.specs.Passes.{IsOurs, connected_of};

use crate::service::{FORMATTED, NOW, disk_of, link_of};
use crate::sessions::{ROWS, SESSION, cut_end, replies};
use connections::End;
use disk_model::MemoryDisk;
use keystore_core::Engine;
use keystore_server::serve_connection;
use ks_outside::{Failed, FaultCount, FixedClock, Link, MemoryLink, OpenGate, SteadyEntropy};
use shared_service::{Pass, Shared};
use std::alloc::Global;
use std::sync::Wait;
use tags::{DeviceSecrets, Policy};

type Service = Shared<MemoryDisk<'static>, SteadyEntropy>;

/// A service with one pass, where there is memory.
fn opened(alloc: Global) -> Option<(Service, Pass<SteadyEntropy>)>
    ensures ours { IfSome result (λ r. IsOurs r.0 r.1) }
    ensures free { IfSome result (λ r. connected_of r.1 ≡ false) }
{
    let policy = Policy::demo(alloc).ok()?;
    let mut disk = disk_of(alloc, FORMATTED)?;
    let device = DeviceSecrets::demo();
    let engine = Engine::open(alloc, &device, &policy, 16, &mut disk);
    drop(policy);
    let Ok(engine) = engine else {
        drop(disk);
        return None;
    };
    match Shared::new(alloc, engine, disk, SteadyEntropy::counting(), 1) {
        Ok((shared, mut passes)) => {
            let pass = passes.swap_remove(0);
            drop(passes);
            Some((shared, pass))
        }
        Err(back) => {
            drop(back);
            None
        }
    }
}

/// How a connection ends.
fn end_of<R: Wait, L: Link>(rt: &R, alloc: Global, link: &mut L) -> Option<End> {
    let (shared, pass) = opened(alloc)?;
    let clock = FixedClock::at(NOW);
    let (pass, end) = serve_connection(rt, alloc, &shared, pass, link, &clock, &OpenGate);
    drop(pass);
    drop(shared);
    Some(end)
}

/// Whether a connection of these bytes ends so, with so many bytes of the replies written.
fn ends<R: Wait>(
    rt: &R,
    alloc: Global,
    sent: &[u8],
    failing: &[u64],
    end: End,
    written: usize,
) -> bool {
    let Some(mut link) = link_of(alloc, sent, failing) else {
        return false;
    };
    let found = end_of(rt, alloc, &mut link);
    let same = link.written() == replies(written);
    drop(link);
    found == Some(end) && same
}

#[test]
fn each_connection_ends_as_it_should(rt: HostRuntime) {
    for row in &ROWS {
        let as_wanted = ends(&rt, rt.alloc(), row.sent, row.failing, row.end, row.written);
        assert!(&rt; as_wanted);
    }
}

// A stream that ends at each of its bytes.
#[test]
fn a_session_ends_at_each_byte(rt: HostRuntime) {
    for cut in 0..27 {
        let (end, written) = cut_end(cut);
        let sent = SESSION.get(..cut).unwrap_or(&[]);
        let as_wanted = ends(&rt, rt.alloc(), sent, &[], end, written);
        assert!(&rt; as_wanted);
    }
}

/// A link whose first read gives so many bytes at most. It tells nothing of content.
#[derive(Drop)]
struct CutLink<'a> {
    link: MemoryLink<'a>,
    first: usize,
    faults: FaultCount,
}

impl Link for CutLink<'_> {
    ghost incoming = { λ _. None };

    ghost outgoing = { λ _. None };

    ghost fault_count = { λ s. s.faults.count };

    fn read(&mut self, out: &mut [u8]) -> Result<usize, Failed> {
        let room = self.first.min(out.len());
        self.first = usize::MAX;
        let answer = self.link.read(&mut out[..room]);
        self.faults = self.faults.after(&answer);
        answer
    }

    fn write(&mut self, piece: &[u8]) -> Result<usize, Failed> {
        let answer = self.link.write(piece);
        self.faults = self.faults.after(&answer);
        answer
    }
}

/// Whether the session is answered as a whole where its first read gives so many bytes.
fn is_answered_in_two<R: Wait>(rt: &R, alloc: Global, first: usize) -> bool {
    let Some(link) = link_of(alloc, &SESSION, &[]) else {
        return false;
    };
    let mut link = CutLink {
        link,
        first,
        faults: FaultCount::new(),
    };
    let found = end_of(rt, alloc, &mut link);
    let same = link.link.written() == replies(38);
    drop(link);
    found == Some(End::EndOfInput) && same
}

#[test]
fn a_session_is_cut_in_two_at_each_byte(rt: HostRuntime) {
    for first in 1..26 {
        let as_wanted = is_answered_in_two(&rt, rt.alloc(), first);
        assert!(&rt; as_wanted);
    }
}
