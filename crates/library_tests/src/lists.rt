//! Authorization lists against another reader of the format, each fault with its offset, and the longest list.

ghost use Rattle.std.specs.Prelude.{◌≤◌};

use std::alloc::{AllocError, Global};
use tag_lists::{AuthList, ListFault};
use tags::{Param, ParamValue, Tag};

/// The format's tags, as its description lists them: the 28 low bits and the type.
static TAGS: [(u32, u32); 28] = [
    (1, 2),
    (2, 1),
    (3, 3),
    (4, 2),
    (5, 2),
    (6, 2),
    (7, 7),
    (8, 3),
    (305, 7),
    (400, 6),
    (401, 6),
    (402, 6),
    (404, 3),
    (405, 3),
    (501, 3),
    (502, 10),
    (503, 7),
    (504, 1),
    (505, 3),
    (509, 7),
    (601, 9),
    (700, 9),
    (701, 6),
    (702, 1),
    (705, 3),
    (706, 3),
    (1001, 9),
    (1003, 3),
];

/// What `read` and then `write` make of the bytes.
fn again(alloc: Global, bytes: &[u8]) -> Result<Vec<u8>, ListFault> {
    let list = AuthList::read(alloc, bytes)?;
    match list.write(alloc) {
        Ok(bytes) => Ok(bytes.into_vec()),
        Err(_) => Err(ListFault::Memory),
    }
}

/// The next number of a xorshift generator.
fn next(state: &mut u64) -> u64 {
    let mut x = *state;
    x ^= x.wrapping_mul(1 << 13);
    x ^= x / (1 << 7);
    x ^= x.wrapping_mul(1 << 17);
    *state = x;
    x
}

/// The bytes of a parameter that is often right, and how many of them count.
fn made_up_param(state: &mut u64) -> ([u8; 12], usize)
    ensures { result.1 ≤ 12 }
{
    let (low, own) = TAGS[(next(state) % 28) as usize];
    let kind = if next(state) % 32 == 0 {
        (next(state) % 16) as u32
    } else {
        own
    };
    let mut bytes = [0; 12];
    bytes[..4].copy_from_slice(&(kind % 16 * (1 << 28) + low % 1024).to_be_bytes());
    let mut size = 8;
    match kind {
        5 | 6 | 10 => {
            bytes[11] = (next(state) % 3) as u8;
            size = 12;
        }
        7 => {
            bytes[4] = (next(state) % 8 / 2 % 2) as u8;
            size = 5;
        }
        9 => {
            let length = (next(state) % 4) as usize;
            bytes[5] = length as u8;
            for place in 0..length {
                bytes[6 + place] = (next(state) % 256) as u8;
            }
            size = 6 + length;
        }
        _ => bytes[7] = (next(state) % 3) as u8,
    }
    (bytes, size)
}

/// Adds bytes that are often, and not always, a list.
fn put_made_up(bytes: &mut Vec<u8>, state: &mut u64) -> Result<(), AllocError> {
    let count = next(state) % 6;
    bytes.extend_from_slice(&(count as u16).to_be_bytes())?;
    for _ in 0..count {
        let (param, size) = made_up_param(state);
        bytes.extend_from_slice(&param[..size])?;
    }
    match next(state) % 8 {
        0 => {
            bytes.pop();
        }
        1 => bytes.push(1)?,
        _ => {}
    }
    Ok(())
}

/// The digest gone on with over the next made-up bytes.
fn digest_of_next(alloc: Global, state: &mut u64, total: u64) -> u64 {
    let mut bytes = Vec::new(alloc);
    match put_made_up(&mut bytes, state) {
        Ok(()) => digest_of(total, &again(alloc, &bytes)),
        Err(_) => 0,
    }
}

/// The digest FNV-1a of 64 bits, gone on over these bytes.
fn digest(total: u64, bytes: &[u8]) -> u64 {
    let mut total = total;
    for byte in bytes {
        total = (total ^ *byte as u64).wrapping_mul(0x100_0000_01b3);
    }
    total
}

/// The digest with what was read: the canonical spelling, or the fault's number and its offset.
fn digest_of(total: u64, read: &Result<Vec<u8>, ListFault>) -> u64 {
    let (number, at) = match read {
        Ok(bytes) => return digest(digest(total, &[0]), bytes),
        Err(ListFault::Truncated { at }) => (1, *at),
        Err(ListFault::UnknownTag { at }) => (2, *at),
        Err(ListFault::WrongKind { at }) => (3, *at),
        Err(ListFault::Repeated { at }) => (4, *at),
        Err(ListFault::Trailing { at }) => (5, *at),
        Err(ListFault::Memory) => (6, 0),
    };
    digest(digest(total, &[number]), &at.to_be_bytes())
}

/// The digest after each 500 of 4,000 byte strings, by `tools/ks make made_lists`, which reads them by the format's description.
static DIGESTS: [u64; 8] = [
    0x27e2f5f5c6eba560,
    0x95338563a63bff45,
    0x4e62938106315ed3,
    0xc004f22f15fc74bc,
    0xe12049c755c90a45,
    0xb5ac6237fffe2480,
    0x5fff6ed5b692dffb,
    0x2a8dec5ef24bb85e,
];

/// The digest gone on with over 500 made-up byte strings.
fn digest_of_many(alloc: Global, state: &mut u64, total: u64) -> u64 {
    let mut total = total;
    for _ in 0..500 {
        total = digest_of_next(alloc, state, total);
    }
    total
}

#[test]
fn random_bytes_read_as_another_reader_reads_them(rt: HostRuntime) {
    let mut state = 88172645463325252u64;
    let mut total = 0xcbf29ce484222325u64;
    for (row, expected) in DIGESTS.iter().enumerate() {
        total = digest_of_many(rt.alloc(), &mut state, total);
        assert!(rt; total == *expected, "among the strings of row {row}");
    }
}

/// Bytes, and the fault of least offset.
static FAULTS: [(&[u8], ListFault); 25] = [
    (b"", ListFault::Truncated { at: 0 }),
    (b"\x00", ListFault::Truncated { at: 0 }),
    (b"\x00\x01", ListFault::Truncated { at: 2 }),
    (b"\x00\x01\x20\x00\x00", ListFault::Truncated { at: 2 }),
    (
        b"\x00\x01\x20\x00\x00\x01\x00\x00",
        ListFault::Truncated { at: 2 },
    ),
    (
        b"\x00\x01\x70\x00\x09\x99\x01",
        ListFault::UnknownTag { at: 2 },
    ),
    (b"\x00\x01\x00\x00\x00\x00", ListFault::UnknownTag { at: 2 }),
    (
        b"\x00\x01\x10\x00\x00\x01\x00\x00\x00\x02",
        ListFault::WrongKind { at: 2 },
    ),
    (
        b"\x00\x01\x80\x00\x02\x59\x00\x00",
        ListFault::WrongKind { at: 2 },
    ),
    (
        b"\x00\x01\x70\x00\x01\xf7\x02",
        ListFault::WrongKind { at: 2 },
    ),
    (
        b"\x00\x01\x70\x00\x01\xf7\x00",
        ListFault::WrongKind { at: 2 },
    ),
    (b"\x00\x01\x70\x00\x01\xf7", ListFault::Truncated { at: 2 }),
    (
        b"\x00\x02\x70\x00\x01\xf7\x01\x70\x00\x01\xf7\x01",
        ListFault::Repeated { at: 7 },
    ),
    (
        b"\x00\x02\x70\x00\x01\xf7\x01\x70\x00\x01\xf7\x02",
        ListFault::WrongKind { at: 7 },
    ),
    (
        b"\x00\x02\x70\x00\x01\xf7\x01\x70\x00\x01\xf7",
        ListFault::Repeated { at: 7 },
    ),
    (
        b"\x00\x02\x30\x00\x00\x03\x00\x00\x00\x80\x30\x00\x00\x03\x00\x00\x01\x00",
        ListFault::Repeated { at: 10 },
    ),
    (
        b"\x00\x02\x30\x00\x00\x03\x00\x00\x00\x80\x30\x00\x00\x03\x00\x00",
        ListFault::Repeated { at: 10 },
    ),
    (
        b"\x00\x02\x90\x00\x02\x59\x00\x01\xaa\x90\x00\x02\x59\x00\x01\xbb",
        ListFault::Repeated { at: 9 },
    ),
    (
        b"\x00\x01\x90\x00\x02\x59\x00\x02\xaa",
        ListFault::Truncated { at: 2 },
    ),
    (
        b"\x00\x01\x90\x00\x02\x59\x00",
        ListFault::Truncated { at: 2 },
    ),
    (
        b"\x00\x02\x70\x00\x09\x99\x01\x70\x00\x01\xf7\x02",
        ListFault::UnknownTag { at: 2 },
    ),
    (
        b"\x00\x01\x70\x00\x01\xf7\x01\x00",
        ListFault::Trailing { at: 7 },
    ),
    (b"\x00\x00\xff", ListFault::Trailing { at: 2 }),
    (
        b"\x00\x02\x70\x00\x01\xf7\x01",
        ListFault::Truncated { at: 7 },
    ),
    (
        b"\xff\xff\x20\x00\x00\x01\x00\x00\x00\x02\x70\x00\x01\xf7\x01",
        ListFault::Truncated { at: 15 },
    ),
];

/// The row of the first bytes that have another fault.
fn first_other(alloc: Global) -> Option<usize> {
    let mut first = None;
    for (row, (bytes, fault)) in FAULTS.iter().enumerate() {
        let found = AuthList::read(alloc, bytes).err();
        if first.is_none() && found != Some(*fault) {
            first = Some(row);
        }
    }
    first
}

#[test]
fn each_fault_has_its_offset(rt: HostRuntime) {
    let other = first_other(rt.alloc());
    assert_eq!(rt; other, None);
}

/// Spellings of one list: its canonical one, and others that read alike.
static ALIKE: [&[u8]; 3] = [
    b"\x00\x02\x20\x00\x00\x01\x00\x00\x00\x02\x70\x00\x01\xf7\x01",
    b"\x00\x02\x70\x00\x01\xf7\x01\x20\x00\x00\x01\x00\x00\x00\x02",
    b"\x00\x03\x20\x00\x00\x01\x00\x00\x00\x02\x70\x00\x01\xf7\x01\x20\x00\x00\x01\x00\x00\x00\x02",
];

/// Whether a list is written so.
fn is_written(alloc: Global, list: &AuthList, bytes: &[u8]) -> bool {
    match list.write(alloc) {
        Ok(written) => written.as_slice() == bytes,
        Err(_) => false,
    }
}

/// What is told of a list: how many parameters it has, and of PURPOSE, and of some whether they are there.
fn told(list: &AuthList) -> (usize, usize, [bool; 4]) {
    let here = [
        list.has(Tag::Purpose, 2),
        list.has(Tag::Purpose, 3),
        list.one(Tag::NoAuthRequired).is_some(),
        list.one(Tag::KeySize).is_some(),
    ];
    (list.params().len(), list.all(Tag::Purpose).len(), here)
}

/// Whether bytes read as the list of ALIKE.
fn is_alike(alloc: Global, bytes: &[u8]) -> bool {
    match AuthList::read(alloc, bytes) {
        Ok(list) => {
            let written = is_written(alloc, &list, ALIKE[0]);
            let told = told(&list);
            drop(list);
            written && told == (2, 1, [true, false, true, false])
        }
        Err(_) => false,
    }
}

#[test]
fn two_parameters_read_alike_in_either_order(rt: HostRuntime) {
    let mut alike = AuthList::empty(rt.alloc()).params().is_empty();
    for bytes in &ALIKE {
        alike &= is_alike(rt.alloc(), bytes);
    }
    assert!(rt; alike);
}

/// Adds a list of 65,535 parameters, in falling order.
fn put_longest(bytes: &mut Vec<u8>) -> Result<(), AllocError> {
    bytes.extend_from_slice(b"\xff\xff")?;
    for i in 0..65535u64 {
        bytes.extend_from_slice(b"\xa0\x00\x01\xf6")?;
        bytes.extend_from_slice(&(65535 - i).to_be_bytes())?;
    }
    Ok(())
}

/// How many parameters bytes have as a list, and whether it has these secure ids.
fn ids_of(alloc: Global, bytes: &[u8]) -> (usize, [bool; 4]) {
    match AuthList::read(alloc, bytes) {
        Ok(list) => {
            let ids = [
                list.has(Tag::UserSecureId, 0),
                list.has(Tag::UserSecureId, 1),
                list.has(Tag::UserSecureId, 65535),
                list.has(Tag::UserSecureId, 65536),
            ];
            let count = list.params().len();
            drop(list);
            (count, ids)
        }
        Err(_) => (0, [false; 4]),
    }
}

/// What the longest list has.
fn ids_of_longest(alloc: Global) -> Option<(usize, [bool; 4])> {
    let mut bytes = Vec::new(alloc);
    match put_longest(&mut bytes) {
        Ok(()) => Some(ids_of(alloc, &bytes)),
        Err(_) => None,
    }
}

#[test]
fn the_longest_list_is_sorted(rt: HostRuntime) {
    let told = ids_of_longest(rt.alloc());
    assert_eq!(rt; told, Some((65535, [false, true, true, false])));
}

/// A list without its purposes, and with another key size.
fn changed(alloc: Global, bytes: &[u8]) -> Option<AuthList> {
    let kept = AuthList::read(alloc, bytes).ok()?.without(Tag::Purpose);
    if kept.params().len() > 100 {
        return None;
    }
    let size = Param {
        tag: Tag::KeySize,
        value: ParamValue::Number(256),
    };
    kept.with(size).ok()
}

/// Whether a list is written so, where there is one.
fn is_changed(alloc: Global, list: Option<AuthList>, bytes: &[u8]) -> bool {
    match list {
        Some(list) => {
            let written = is_written(alloc, &list, bytes);
            drop(list);
            written
        }
        None => false,
    }
}

#[test]
fn a_parameter_takes_the_place_of_its_tags_others(rt: HostRuntime) {
    let bytes =
        b"\x00\x04\x20\x00\x00\x01\x00\x00\x00\x02\x20\x00\x00\x01\x00\x00\x00\x03\x30\x00\x00\x03\x00\x00\x00\x80\x70\x00\x01\xf7\x01";
    let wanted = b"\x00\x02\x30\x00\x00\x03\x00\x00\x01\x00\x70\x00\x01\xf7\x01";
    let list = changed(rt.alloc(), bytes);
    assert!(rt; is_changed(rt.alloc(), list, wanted));
}
