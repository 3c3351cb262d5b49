//! The form of the command line that serves.

ghost use Rattle.std.specs.Prelude.{◌≡◌, IfSome};
ghost use Rattle.keystore_server.specs.Words as spec;
ghost use Rattle.keystore_server.specs.Words.{IsWithin};

use byte_strings::{number_in, threads_in};

/// What the words of a service ask for.
#[derive(Clone, Copy, Debug, PartialEq, Eq)]
pub struct ServeForm {
    /// the port to listen on
    pub port: u16,
    /// how many connections are served
    pub connections: u32,
    /// how many of them at a time
    pub workers: u32,
    /// whether the book is written at the end, as a trace
    pub traced: bool,
}

/// The form of three words that give a port, connections and workers.
fn form_in(port: &[u8], connections: &[u8], workers: &[u8], traced: bool) -> Option<ServeForm>
    ensures form { result ≡ spec.form_in port.now connections.now workers.now traced }
    ensures within { IfSome result IsWithin }
{
    let port = number_in(0, 65535, port)?;
    let connections = number_in(1, 65536, connections)?;
    let workers = threads_in(workers)?;
    Some(ServeForm {
        port: port as u16,
        connections: connections as u32,
        workers,
        traced,
    })
}

/// The form of the words `serve PORT CONNECTIONS WORKERS`, and optionally `--trace`: a port up to 65,535, 1 to 65,536 connections and 1 to
/// 64 workers. Other words are none. It takes no memory.
pub fn serve_form_of(words: &[String]) -> Option<ServeForm>
    ensures form { result ≡ spec.form_of words.now }
    ensures within { IfSome result IsWithin }
{
    match words {
        [first, port, connections, workers] => {
            if first.as_str() == "serve" {
                form_in(
                    port.as_bytes(),
                    connections.as_bytes(),
                    workers.as_bytes(),
                    false,
                )
            } else {
                None
            }
        }
        [first, port, connections, workers, last] => {
            if first.as_str() == "serve" && last.as_str() == "--trace" {
                form_in(
                    port.as_bytes(),
                    connections.as_bytes(),
                    workers.as_bytes(),
                    true,
                )
            } else {
                None
            }
        }
        _ => None,
    }
}
