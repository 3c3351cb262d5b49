//! Entropy from the system's random device. It tells nothing of content.

ghost use Rattle.std.specs.Prelude.{◌≡◌, None, Some, IsOk, IsSome, OnOk, is_ok, option_and_then};
ghost use Rattle.std.specs.Io.KnownBytes.{Consumes};
ghost use Rattle.ks_outside.specs.Adapters.{DrawsFrom, fills};
ghost use Rattle.ks_outside.specs.Faults.{HasCause, count_after};

use crate::edge::RealReader;
use crate::entropy::Entropy;
use crate::faults::{Failed, FaultCount};
use std::fs;
use std::rt::Files;

/// The system's random device.
const DEVICE: &str = "/dev/urandom";

/// Entropy over a reader, as the system's random device. Each error of the reader is one fault, and so is a read that
/// leaves a part of `out`, and a draw where the device could not be opened.
#[derive(Drop)]
pub struct DeviceEntropy<R> {
    reader: Option<R>,
    faults: FaultCount,
}

impl<R> DeviceEntropy<R> {
    /// Takes the reader; no fault so far.
    pub fn new(reader: R) -> DeviceEntropy<R>
        ensures reader { result.reader ≡ Some reader }
        ensures faults { result.faults.count ≡ 0 }
    {
        DeviceEntropy {
            reader: Some(reader),
            faults: FaultCount::new(),
        }
    }
}

/// Opens the system's random device. Where it cannot be opened, each draw fails; no draw has failed so far.
pub fn open_device<R: Files>(rt: &R) -> DeviceEntropy<R::File>
    ensures faults { result.faults.count ≡ 0 }
{
    open_device_at(rt, DEVICE)
}

/// Opens the random device of this path. Where it cannot be opened, each draw fails; no draw has failed so far.
pub fn open_device_at<R: Files>(rt: &R, path: &str) -> DeviceEntropy<R::File>
    ensures faults { result.faults.count ≡ 0 }
{
    DeviceEntropy {
        reader: fs::open(rt, path).ok(),
        faults: FaultCount::new(),
    }
}

/// Whether `size` bytes were filled.
fn filled(answer: Option<usize>, size: usize) -> Result<(), Failed>
    ensures { is_ok result ≡ fills size answer }
{
    if answer == Some(size) {
        Ok(())
    } else {
        Err(Failed)
    }
}

impl<R: RealReader> DeviceEntropy<R> {
    /// The one call of the device, where it was opened.
    fn ask(&mut self, out: &mut [u8]) -> Result<(), Failed>
        ensures open { IsOk result → IsSome self.old.reader }
        ensures reader { OnOk result (Consumes (option_and_then R.left self.old.reader) (option_and_then R.left self.new.reader) out.new) }
        ensures answer { DrawsFrom R.answered self.old.reader self.new.reader out.new (is_ok result) }
        ensures faults { self.new.faults ≡ self.old.faults }
    {
        match &mut self.reader {
            Some(reader) => filled(reader.ask(out), out.len()),
            None => Err(Failed),
        }
    }
}

impl<R: RealReader> Entropy for DeviceEntropy<R> {
    ghost content = { λ _. None };

    ghost fault_count = { λ s. s.faults.count };

    fn draw(&mut self, out: &mut [u8]) -> Result<(), Failed>
        ensures cause { HasCause self.old.faults.count self.new.faults.count result }
        ensures open { IsOk result → IsSome self.old.reader }
        ensures reader { OnOk result (Consumes (option_and_then R.left self.old.reader) (option_and_then R.left self.new.reader) out.new) }
        ensures answer { DrawsFrom R.answered self.old.reader self.new.reader out.new (is_ok result) }
        ensures counts { self.new.faults.count ≡ count_after result self.old.faults.count }
    {
        let answer = self.ask(out);
        self.faults = self.faults.after(&answer);
        answer
    }

    fn faults(&self) -> u64 {
        self.faults.count()
    }
}
