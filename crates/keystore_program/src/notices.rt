//! What is said on standard error behind a status: its cause in words, and what a user should know. A line that cannot be written is left.

use crate::misuse::misuse_of;
use crate::tally::{ReplyCounts, Told};
use device_files::FileTrouble;
use file_disk::{FileDisk, StoreFile};
use keystore_process::{DEVICE, STORE};
use keystore_run::Status;
use outside_net::PortListener;
use service_book::{Book, CALL_BYTES, MOST_BYTES, MOST_ENTRIES};
use std::fs;
use std::os::unix::fs::PermissionsExt;
use std::rt::Files;
use tags::FRAME_BYTES;

/// The permissions of a file for others than its owner.
const FOR_OTHERS: u32 = 0o077;

/// The most entries that a call makes.
const CALL_ENTRIES: u64 = 3;

/// Why a run or a service that ended so could not use its store.
pub fn tell_store<R: Files<File = fs::File>>(
    rt: &HostRuntime,
    status: Status,
    disk: &FileDisk<StoreFile<'_, R>>,
) {
    let file = disk.file();
    if let (Status::DiskFault, Some(trouble)) = (status, file.trouble()) {
        let _ = eprintln!(rt; "keystore2: {STORE}: {trouble}");
    }
    if status == (Status::Corrupted { offset: 0 }) {
        if file.is_absent() {
            let _ = eprintln!(rt;
                "keystore2: {STORE}: it is not in this folder; 'keystore2 init' makes an empty one"
            );
        } else {
            let _ = eprintln!(rt; "keystore2: {STORE}: it does not begin as a store does");
        }
    }
}

/// Why a port could not be had, or a connection not be taken.
pub fn tell_port<L, C>(rt: &HostRuntime, port: u16, listener: &PortListener<'_, L, C>) {
    if let Some(error) = listener.trouble() {
        let _ = eprintln!(rt; "keystore2: port {port}: {error}");
    }
}

/// Why a file of the device was not taken.
pub fn tell_file(rt: &HostRuntime, path: &str, trouble: &FileTrouble) {
    let _ = eprintln!(rt; "keystore2: {path}: {trouble}");
}

/// Which of the words is wrong.
pub fn tell_misuse(rt: &HostRuntime, words: &[String]) {
    if let Ok(Some(misuse)) = misuse_of(rt.alloc(), words) {
        let _ = eprintln!(rt; "keystore2: {misuse}");
    }
}

/// That the device protects nothing, or less than it could.
pub fn tell_device(rt: &HostRuntime, is_demo: bool) {
    if is_demo {
        let _ = eprintln!(rt;
            "keystore2: {DEVICE}: it is not in this folder; the demo device is taken, which protects nothing: anybody knows its keys"
        );
        return;
    }
    let Ok(data) = fs::metadata(rt, DEVICE) else {
        return;
    };
    if data.permissions().mode() & FOR_OTHERS != 0 {
        let _ = eprintln!(rt;
            "keystore2: {DEVICE}: others than its owner may use it; 'chmod 600 {DEVICE}' ends that"
        );
    }
}

/// How often something was told, where it was.
fn tell_one(rt: &HostRuntime, told: Told, what: &str) {
    let Told { count, first } = told;
    if count > 0 {
        let _ = eprintln!(rt; "keystore2: {what}: {count}, the first to line {first}");
    }
}

/// What the replies of a run told.
pub fn tell_counts(rt: &HostRuntime, counts: ReplyCounts) {
    tell_one(
        rt,
        counts.malformed,
        "replies to malformed lines (code 20, rule L1)",
    );
    tell_one(
        rt,
        counts.faulted,
        "replies after a failed call of the store (code 4)",
    );
    tell_one(rt, counts.wanting, "replies for want of memory (code -41)");
}

/// Whether a call may have been answered that the run is full, with so many workers: of the others each may have had a call under way, for
/// whose reply bytes were set aside.
fn may_have_filled(entries: u64, bytes: u64, workers: u32) -> bool {
    let aside = CALL_BYTES
        .saturating_mul(u64::from(workers))
        .saturating_add(FRAME_BYTES as u64);
    entries.saturating_add(CALL_ENTRIES) > MOST_ENTRIES || bytes.saturating_add(aside) > MOST_BYTES
}

/// How full the run of a service was, where a call may have been answered that it is full.
pub fn tell_full(rt: &HostRuntime, book: &Book, workers: u32) {
    let entries = book.entries().len() as u64;
    let bytes = book.bytes();
    if may_have_filled(entries, bytes, workers) {
        let _ = eprintln!(rt;
            "keystore2: the run was full: {entries} of {MOST_ENTRIES} entries, {bytes} of {MOST_BYTES} bytes; the next one begins empty, and fewer connections keep it from filling"
        );
    }
}
