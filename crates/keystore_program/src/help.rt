//! The help text of the command line. It tells of the words; `words` reads them.

use clap::Command;
use std::alloc::{AllocError, Global};

const FORMS: &str = "Forms:
  keystore2 init
  keystore2 run [--fresh] [--slots N] [--trace]
                                       N from 1 to 1024, and 16 where it is not said
  keystore2 soak SEED N                SEED from 0 to 18446744073709551615, N from 1 to 100000
  keystore2 serve PORT CONNECTIONS WORKERS [--trace]
                                       PORT from 0 to 65535, CONNECTIONS from 1 to 65536, WORKERS from 1 to 64
  keystore2 --help
  keystore2 --version

The store is the file store.ks of the current folder; a script is a line of JSON for each call, on standard input.
A service listens on 127.0.0.1; docs/PROTOCOL.md tells its protocol.

Examples:
  keystore2 init
  keystore2 run --slots 4 < examples/hmac.jsonl
  keystore2 run --fresh < examples/hmac.jsonl
  keystore2 run --fresh --trace < examples/hmac.jsonl
  keystore2 soak 7 1000";

/// The version, with the logic of the toolchain that proves these sources (`rt version`).
const VERSION: &str = "0.1.0 (logic dac8208d650f15bf)";

/// The command, whose subcommands are the first words of the forms.
fn command(alloc: Global) -> Result<Command<'static>, AllocError> {
    let init = Command::new(alloc, "init").about("Makes an empty store; what it held is lost");
    let run = Command::new(alloc, "run").about(
        "Serves a script over the store, which --fresh makes anew, with N slots for operations; --trace writes its history, keys in the clear",
    );
    let soak = Command::new(alloc, "soak").about(
        "Serves the load of a seed over a store in memory, and prints its summary",
    );
    let serve = Command::new(alloc, "serve").about(
        "Serves so many connections to a port of this machine over the store, by so many workers; --trace writes its history at the end, keys in the clear",
    );
    Command::new(alloc, "keystore2")
        .version(VERSION)
        .about(
            "The key service of an Android device for symmetric keys, over a script of calls, or over connections",
        )
        .override_usage("keystore2 FORM")
        .disable_help_flag(true)
        .disable_help_subcommand(true)
        .disable_version_flag(true)
        .after_help(FORMS)
        .subcommand(init)?
        .subcommand(run)?
        .subcommand(soak)?
        .subcommand(serve)
}

/// The help text, with its last LF.
pub fn help_text(alloc: Global) -> Result<String, AllocError> {
    command(alloc)?.render_help()
}

/// The program's name and version, with its LF.
pub fn version_text(alloc: Global) -> Result<String, AllocError> {
    command(alloc)?.render_version()
}
