//! What lies outside of the key service, as traits that a caller hands in: where script bytes come from, where reply
//! bytes go, the disk and the entropy. Beside them the forms in memory for tests, the adapters over standard input
//! and output and the system's random device.
//!
//! The one contract: the content (bytes left, bytes written, bytes to come), where an object tells it, moves exactly as a call
//! answers and stays where it fails; and the object's count of faults rises in a call that fails, and stays as it was in a call that answers Ok. Of
//! a disk it says besides what a crash may leave now, and might have left since an earlier moment.
#![tactic(auto)]

mod adapters;
mod calls;
mod clock;
mod counting;
mod device;
mod disk;
mod edge;
mod endless;
mod entropy;
mod faults;
mod gate;
mod link;
mod listener;
mod seeded;
mod sink;
mod source;
mod stream_link;

pub use adapters::{ReaderSource, WriterSink};
pub use calls::FailingCalls;
pub use clock::{Clock, FixedClock, MachineClock, Reading};
pub use counting::{MemoryEntropy, SteadyEntropy};
pub use device::{DeviceEntropy, open_device, open_device_at};
pub use disk::Disk;
pub use edge::{RealReader, RealWriter};
pub use entropy::Entropy;
pub use faults::{Failed, FaultCount};
pub use gate::{Gate, OpenGate};
pub use link::{Link, MemoryLink};
pub use listener::{Listener, MemoryListener};
pub use seeded::SeededEntropy;
pub use sink::{MemorySink, Sink};
pub use source::{MemorySource, Source, SteadySource};
pub use stream_link::StreamLink;
