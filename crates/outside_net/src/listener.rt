//! A listener on a port.

ghost use Rattle.std.specs.Prelude.{◌≡◌, IfOk, IsSome};
ghost use Rattle.ks_outside.specs.Faults.{HasCause, count_after};
ghost use Rattle.ks_outside.specs.Listening.{given_after, ended_after};

use crate::passing::pause_after;
use crate::patience::Patience;
use ks_outside::{Failed, FaultCount, Listener, StreamLink};
use std::io::{Error, ErrorKind};
use std::net::{Ipv4Addr, Net, OpenListener, TcpListener, TcpStream};
use std::thread;
use std::time::{Clock, Duration};

/// Connections to a port of this machine. Each connection that cannot be taken is one fault, and so is each call where the port could not be
/// had. It never says that no more come.
#[derive(Drop)]
pub struct PortListener<'a, L, C> {
    listener: Option<L>,
    clock: &'a C,
    patience: Patience,
    trouble: Option<Error>,
    faults: FaultCount,
    given: u64,
    ended: u64,
}

/// Listens on 127.0.0.1 at the port; at port 0 the system chooses one that is free. Where the port cannot be had, each call of `next` fails;
/// none has failed so far.
pub fn listen<R: Net<Listener = TcpListener, Stream = TcpStream> + Clock>(
    rt: &R,
    port: u16,
    patience: Patience,
) -> PortListener<'_, TcpListener, R>
    ensures faults { result.faults.count ≡ 0 }
    ensures given { result.given ≡ 0 }
    ensures ended { result.ended ≡ 0 }
{
    match TcpListener::bind(rt, (Ipv4Addr::LOCALHOST, port)) {
        Ok(listener) => PortListener::over(Some(listener), None, rt, patience),
        Err(error) => PortListener::over(None, Some(error), rt, patience),
    }
}

impl<'a, L, C> PortListener<'a, L, C> {
    /// Takes the connections of a listener of the system; where there is none, each call of `next` fails, for this reason. None has failed so
    /// far.
    pub fn over(
        listener: Option<L>,
        trouble: Option<Error>,
        clock: &'a C,
        patience: Patience,
    ) -> PortListener<'a, L, C>
        ensures faults { result.faults.count ≡ 0 }
        ensures given { result.given ≡ 0 }
        ensures ended { result.ended ≡ 0 }
    {
        PortListener {
            listener,
            clock,
            patience,
            trouble,
            faults: FaultCount::new(),
            given: 0,
            ended: 0,
        }
    }

    /// The system's word on the port that could not be had, or on the last connection that could not be taken.
    pub fn trouble(&self) -> Option<&Error> {
        self.trouble.as_ref()
    }

    /// How many calls of `next` failed.
    pub fn faults(&self) -> u64
        ensures { result ≡ self.now.faults.count }
    {
        self.faults.count()
    }
}

impl<L: OpenListener<Stream = TcpStream>, C: Clock> PortListener<'_, L, C> {
    /// The port, where it could be had.
    pub fn port(&self) -> Option<u16> {
        let address = self.listener.as_ref()?.local_addr().ok()?;
        Some(address.port())
    }

    /// The next connection, with its listener's patience. It sends each piece at once, where the system lets it.
    fn accept(&self) -> Result<StreamLink<TcpStream>, Error> {
        let Some(listener) = &self.listener else {
            return Err(Error::from(ErrorKind::NotConnected));
        };
        let (stream, _) = listener.accept()?;
        let _ = stream.set_nodelay(true);
        self.patience.set_on(&stream)?;
        Ok(StreamLink::new(stream))
    }

    /// The next connection. A failure that passes is waited for, a minute at most.
    fn accept_in_time(&self) -> Result<StreamLink<TcpStream>, Error> {
        let mut waited = 0;
        'tries: loop {
            let error = match self.accept() {
                Ok(link) => return Ok(link),
                Err(error) => error,
            };
            let Some(pause) = pause_after(&error, waited) else {
                return Err(error);
            };
            thread::sleep(self.clock, Duration::from_millis(pause));
            waited += pause;
        }
    }
}

impl<L: OpenListener<Stream = TcpStream>, C: Clock> Listener for PortListener<'_, L, C> {
    type L = StreamLink<TcpStream>;

    ghost given = { λ s. s.given };

    ghost ended = { λ s. s.ended };

    ghost fault_count = { λ s. s.faults.count };

    fn next(&mut self) -> Result<Option<StreamLink<TcpStream>>, Failed>
        ensures gives { self.new.given ≡ given_after result self.old.given }
        ensures ends { self.new.ended ≡ ended_after result self.old.ended }
        ensures cause { HasCause self.old.faults.count self.new.faults.count result }
        ensures some { IfOk result (λ link. IsSome link) }
        ensures counts { self.new.faults.count ≡ count_after result self.old.faults.count }
    {
        match self.accept_in_time() {
            Ok(link) => {
                self.given = self.given.saturating_add(1);
                Ok(Some(link))
            }
            Err(error) => {
                self.trouble = Some(error);
                self.faults.rise();
                Err(Failed)
            }
        }
    }

    /// Closes a connection that was not hung up.
    fn done(&mut self, link: StreamLink<TcpStream>)
        ensures gives { self.new.given ≡ self.old.given }
        ensures ends { self.new.ended ≡ self.old.ended }
        ensures faults { self.new.faults.count ≡ self.old.faults.count }
    {
        drop(link);
    }
}
