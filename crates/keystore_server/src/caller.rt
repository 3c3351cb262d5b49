//! A pass of a service that answers a connection.

ghost use Rattle.std.specs.Prelude.{◌≡◌};
ghost use Rattle.shared_service.specs.Passes.{IsOurs};
ghost use Rattle.keystore_server.specs.Equality.{IsEqualInOneWay};

use connections::Answerer;
use ks_outside::{Clock, Disk, Entropy, Gate};
use rule_model::{Reply, Request};
use shared_service::{Pass, Served, ServiceId, Shared};
use std::sync::Wait;

/// A pass of a service, with the clocks and the gate of its calls.
#[derive(Drop)]
pub struct ServicePass<'a, D: Disk, N: Entropy, C, G> {
    pub(crate) shared: &'a Shared<D, N>,
    pub(crate) pass: Pass<N>,
    pub(crate) clock: &'a C,
    pub(crate) gate: &'a G,
    ghost ours: { ∥ IsOurs shared.now pass ∥₁ },
}

impl<'a, D: Disk, N: Entropy, C, G> ServicePass<'a, D, N, C, G> {
    /// A caller by a pass of the service.
    pub(crate) fn new(
        shared: &'a Shared<D, N>,
        pass: Pass<N>,
        clock: &'a C,
        gate: &'a G,
    ) -> ServicePass<'a, D, N, C, G>
        requires ours { IsOurs shared.now pass }
        ensures shared { result.shared.now ≡ shared.now }
        ensures pass { result.pass ≡ pass }
        ensures clock { result.clock.now ≡ clock.now }
    {
        ServicePass {
            shared,
            pass,
            clock,
            gate,
        }
    }

    /// Its pass.
    pub(crate) fn into_pass(self) -> Pass<N>
        ensures { result ≡ self.entry.pass }
    {
        let ServicePass { pass, .. } = self;
        pass
    }
}

/// Two values of a type are equal in one way alone, so a fact that is known to hold may be taken for granted where it is an equation
/// of such values.
fn equal_in_one_way<T>()
    ensures { IsEqualInOneWay T }
{}

impl<'a, D: Disk, N: Entropy, C: Clock, G: Gate> Answerer for ServicePass<'a, D, N, C, G> {
    ghost use Rattle.std.specs.Prelude.{◌≡◌};
    ghost use Rattle.shared_service.specs.Passes.{connected_of};
    ghost use Rattle.keystore_server.specs.Calling.{IsAnswered};

    ghost answers = { λ old act reply new. (new.shared.now ≡ old.shared.now) × (new.clock.now ≡ old.clock.now) × IsAnswered old.shared.now (C.shows old.clock.now) old.pass act reply new.pass };

    ghost connected = { λ caller. connected_of caller.pass };

    fn answer<R: Wait>(self, rt: &R, request: Request) -> (Self, Reply) {
        equal_in_one_way::<ServiceId<N>>();
        let ServicePass {
            shared,
            pass,
            clock,
            gate,
        } = self;
        let reading = clock.now();
        let (pass, served) = shared.call(rt, pass, reading, request, gate);
        let Served { reply, .. } = served;
        let caller = ServicePass::new(shared, pass, clock, gate);
        (caller, reply)
    }
}
