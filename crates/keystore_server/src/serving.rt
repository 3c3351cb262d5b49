//! One connection.

ghost use Rattle.std.specs.Prelude.{◌≡◌, false};
ghost use Rattle.connections.specs.Ends.{Serves};
ghost use Rattle.connection_workers.specs.Workers.{Completes};
ghost use Rattle.shared_service.specs.Passes.{IsOurs, connected_of, number_of};
ghost use Rattle.keystore_server.specs.Calling.{IsAnswered};

use crate::caller::ServicePass;
use connections::{End, serve_link};
use ks_outside::{Clock, Disk, Entropy, Gate, Link};
use shared_service::{Pass, Shared};
use std::alloc::Global;
use std::sync::Wait;

/// Serves a connection by a pass of the service that has no client: one call for each request, in their order, and its reply, until
/// an end; whatever the end is, a client that has come is then disconnected. A connection takes memory for one frame and its
/// requests. The clocks are read once for each call. Where the link brings whole frames of requests that are due and does not fail, all are
/// answered, unless the run is full or memory is wanting.
pub fn serve_connection<R: Wait, L: Link, D: Disk, N: Entropy, C: Clock, G: Gate>(
    rt: &R,
    alloc: Global,
    shared: &Shared<D, N>,
    pass: Pass<N>,
    link: &mut L,
    clock: &C,
    gate: &G,
) -> (Pass<N>, End)
    requires ours { IsOurs shared.now pass }
    requires free { connected_of pass ≡ false }
    ensures serves { Serves L.Link (IsAnswered shared.now (C.shows clock.now)) link.old link.new pass result.0 result.1 }
    ensures complete { Completes L.Link (IsAnswered shared.now (C.shows clock.now)) link.old link.new pass result.1 }
    ensures ours { IsOurs shared.now result.0 }
    ensures number { number_of result.0 ≡ number_of pass }
    ensures free { connected_of result.0 ≡ false }
{
    let caller = ServicePass::new(shared, pass, clock, gate);
    let (caller, end) = serve_link(rt, alloc, link, caller);
    (caller.into_pass(), end)
}
