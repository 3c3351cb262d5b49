//! The lines of the load, one after another.

ghost use Rattle.std.specs.Prelude.{◌≡◌, IfOk, ◌<◌, ◌≤◌, ◌+◌, ◌^◌, [], ◌∷◌, None, Some, get_or, string_bytes};
ghost use Rattle.soak_lines.specs.Lines as spec;
ghost use Rattle.soak_lines.specs.Lines.{opening};

use crate::call::DrawnWords;
use crate::line::SoakLine;
use rand_chacha::ChaCha20Rng;
use rand_core::SeedableRng;
use rand_core::utils::NextWord;
use std::alloc::{AllocError, Global};
use std::marker::Model;

/// The lines with which each load begins: three clients, three keys and a grant.
const OPENING: [&str; 7] = [
    "{\"t\":[1,1001],\"do\":\"connect\",\"uid\":10001}",
    "{\"t\":[2,1002],\"do\":\"connect\",\"uid\":10002}",
    "{\"t\":[3,1003],\"do\":\"connect\",\"uid\":1000}",
    "{\"t\":[4,1004],\"c\":1,\"do\":\"importKey\",\"key\":{\"domain\":0,\"alias\":\"h\"},\"params\":[[\"PURPOSE\",2],[\"PURPOSE\",3],[\"ALGORITHM\",128],[\"DIGEST\",4],[\"MIN_MAC_LENGTH\",64],[\"NO_AUTH_REQUIRED\",true]],\"format\":3,\"material\":\"1111111111111111111111111111111111111111111111111111111111111111\"}",
    "{\"t\":[5,1005],\"c\":1,\"do\":\"importKey\",\"key\":{\"domain\":0,\"alias\":\"a\"},\"params\":[[\"PURPOSE\",0],[\"PURPOSE\",1],[\"ALGORITHM\",32],[\"BLOCK_MODE\",1],[\"BLOCK_MODE\",2],[\"BLOCK_MODE\",3],[\"BLOCK_MODE\",32],[\"PADDING\",1],[\"PADDING\",64],[\"MIN_MAC_LENGTH\",96],[\"CALLER_NONCE\",true],[\"NO_AUTH_REQUIRED\",true]],\"format\":3,\"material\":\"22222222222222222222222222222222\"}",
    "{\"t\":[6,1006],\"c\":1,\"do\":\"importKey\",\"key\":{\"domain\":0,\"alias\":\"u\"},\"params\":[[\"PURPOSE\",2],[\"PURPOSE\",3],[\"ALGORITHM\",128],[\"DIGEST\",4],[\"MIN_MAC_LENGTH\",64],[\"NO_AUTH_REQUIRED\",true],[\"USAGE_COUNT_LIMIT\",50]],\"format\":3,\"material\":\"3333333333333333333333333333333333333333333333333333333333333333\"}",
    "{\"t\":[7,1007],\"c\":1,\"do\":\"grant\",\"key\":{\"domain\":0,\"alias\":\"a\"},\"uid\":10002,\"bits\":260}",
];

/// How many lines the opening has.
const OPENING_LINES: u64 = 7;

/// The most lines of a load behind its opening.
pub const MOST_LINES: u64 = 100_000;

/// The lines of a load behind its opening that are still to come. It is seen as the list of their texts.
#[derive(Drop)]
struct Generated {
    left: u64,
    /// how many lines the script has before them
    number: u64,
    /// how many of those begin an operation
    begins: u64,
    generator: ChaCha20Rng,
    ghost few_lines: { number + left ≤ 100007 },
    ghost few_begins: { begins ≤ number },
}

impl Model for Generated {
    ghost use Rattle.std.specs.Prelude.{List, ℕ};
    ghost use Rattle.soak_lines.specs.Lines.{lines_from};

    ghost Value = { List (List ℕ) };

    ghost view = { λ s. lines_from s.left (record { number = s.number; begins = s.begins; generator = s.generator }) };
}

/// The lines of a load that are still to come. It is seen as the list of their texts, without their LF.
#[derive(Drop)]
pub struct SoakScript {
    /// how many lines of the opening were given
    opened: usize,
    rest: Generated,
    ghost few_opened: { opened ≤ 7 },
}

impl Model for SoakScript {
    ghost use Rattle.std.specs.Prelude.{List, ℕ, ◌++◌, drop};
    ghost use Rattle.soak_lines.specs.Lines.{opening};

    ghost Value = { List (List ℕ) };

    ghost view = { λ s. drop s.opened opening ++ s.rest };
}

/// The seed of a generator: the number as eight bytes, the lowest first, one byte that tells the generators of a load apart, and
/// zeros.
pub fn seed_of(seed: u64, which: u8) -> [u8; 32]
    ensures { result ≡ spec.seed_of seed which }
{
    let mut bytes = [0; 32];
    bytes[..8].copy_from_slice(&seed.to_le_bytes());
    bytes[8] = which;
    bytes
}

/// The line of the opening at a place.
fn opening_line(place: usize) -> &'static str
    requires { place < 7 }
    ensures { result.now ≡ get_or opening place [] }
{
    OPENING[place]
}

/// A text of its own.
fn owned(alloc: Global, text: &str) -> Result<String, AllocError>
    ensures { IfOk result (λ copy. string_bytes copy ≡ text.now) }
{
    let mut copy = String::new(alloc);
    copy.push_str(text)?;
    Ok(copy)
}

/// Four words.
fn words_of(generator: &mut ChaCha20Rng) -> DrawnWords
    ensures words { result ≡ (spec.words_at generator.old).0 }
    ensures after { generator.new ≡ (spec.words_at generator.old).1 }
{
    let kind = generator.next_word();
    let client = generator.next_word();
    let op = generator.next_word();
    let input = generator.next_word();
    DrawnWords {
        kind,
        client,
        op,
        input,
    }
}

impl Generated {
    /// The next line, and `None` exactly where all were given. After want of memory the lines are not gone on with.
    fn next(&mut self, alloc: Global) -> Result<Option<String>, AllocError>
        ensures next { IfOk result (λ found. spec.Gives found self.old self.new) }
    {
        if self.left == 0 {
            return Ok(None);
        }
        let words = words_of(&mut self.generator);
        let call = words.call(self.begins);
        let number = self.number + 1;
        self.left -= 1;
        self.number = number;
        self.begins += u64::from(call.is_begin());
        let text = SoakLine { number, call }.text(alloc)?;
        Ok(Some(text))
    }
}

impl SoakScript {
    /// The load of a seed, of at most 100,000 lines behind its opening.
    pub fn new(seed: u64, lines: u64) -> SoakScript
        requires few { lines ≤ 100000 }
        ensures { result ≡ spec.lines_of seed lines }
    {
        let rest = Generated {
            left: lines,
            number: OPENING_LINES,
            begins: 0,
            generator: ChaCha20Rng::from_seed(seed_of(seed, 0)),
        };
        SoakScript { opened: 0, rest }
    }

    /// The next line, and `None` exactly where all were given. After want of memory the load is not gone on with.
    pub fn next(&mut self, alloc: Global) -> Result<Option<String>, AllocError>
        ensures next { IfOk result (λ found. spec.Gives found self.old self.new) }
    {
        if self.opened < OPENING.len() {
            let text = owned(alloc, opening_line(self.opened))?;
            self.opened += 1;
            return Ok(Some(text));
        }
        self.rest.next(alloc)
    }
}
