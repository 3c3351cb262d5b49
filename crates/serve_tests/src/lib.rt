//! The tests of the service over a listener, in a crate above all that it stands on: connections in memory, over a store in memory. What
//! many clients of a real port see, `tools/ks check service` shows.
#![tactic(auto)]

#[cfg(test)]
mod connections_end;
#[cfg(test)]
mod one_connection;
#[cfg(test)]
mod service;
#[cfg(test)]
mod services_end;
#[cfg(test)]
mod sessions;
#[cfg(test)]
mod silent_clients;
#[cfg(test)]
mod traces;
#[cfg(test)]
mod two_connections;
