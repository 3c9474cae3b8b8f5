// The bytes of headers, further secrets, saved estimators, saved enforcers, judgements, releases, explorations, first leaks, written sizes, the runs of
// witnesses and what their checker says, as specs/Layout has them, each read from its bytes and written to them. What is required is that the bytes have
// room: who calls tests their length. Every place and size is a constant of `sizes`.
#![tactic(auto)]

ghost use Rattle.std.specs.Prelude.{◌≡◌, [], ◌∷◌, ℕ, ◌+◌, ◌*◌, ◌≤◌, ◌<◌, ◌^◌, length, get_or};
ghost use Rattle.opacity.specs.Verdicts.{steps_of};
ghost use Rattle.verifier.specs.Replies.{told_of};
ghost use Rattle.layout.specs.Sizes as sizes;
ghost use Rattle.layout.specs.Layout.{Stored, little_endian_at, little_endian_bytes, word_at, word_bytes, words_at, words_bytes, bytes_at};
ghost use Rattle.layout.specs.Layout.{header_at, header_bytes, place_at, place_bytes, further_at, further_bytes, FurtherSized};
ghost use Rattle.layout.specs.Layout.{estimator_at, estimator_bytes, EstimatorSized, notion_at, notion_byte, enforcer_at, enforcer_bytes, EnforcerSized};
ghost use Rattle.layout.specs.Layout.{verdict_byte, told_bytes, all_findings, judgement_bytes, release_bytes, exploration_bytes};
ghost use Rattle.layout.specs.Layout.{run_bytes, valid_bytes};

use automaton::Header;
use enforcer::{Enforcer, Release};
use explore::Exploration;
use opacity::{Further, Notion, Secret, Verdict, Verdicts};
use verifier::{Estimator, Judgement};

pub mod sizes;

// ---- numbers and arrays

// An array of bytes as they are.
fn array_at<const N: usize>(bytes: &[u8], at: usize) -> [u8; N]
    requires { at + N ≤ length bytes.now }
    ensures { result ≡ bytes_at bytes.now at N }
{
    let mut array = [0u8; N];
    array.copy_from_slice(&bytes[at..at + N]);
    array
}

fn half_at(bytes: &[u8], at: usize) -> u32
    requires { at + sizes.half_size ≤ length bytes.now }
    ensures { result ≡ little_endian_at bytes.now at sizes.half_size }
{
    u32::from_le_bytes(array_at(bytes, at))
}

fn word_at(bytes: &[u8], at: usize) -> u64
    requires { at + sizes.word_size ≤ length bytes.now }
    ensures { result ≡ word_at bytes.now at }
{
    u64::from_le_bytes(array_at(bytes, at))
}

fn put(bytes: &mut [u8], at: usize, byte: u8)
    requires { at < length bytes.old }
    ensures { Stored bytes.old at (byte ∷ []) bytes.new }
{
    bytes[at] = byte;
}

fn store_bytes(bytes: &mut [u8], at: usize, array: &[u8])
    requires { at + length array.now ≤ length bytes.old }
    ensures { Stored bytes.old at array.now bytes.new }
{
    bytes[at..at + array.len()].copy_from_slice(array);
}

// Writes the `n` lowest bytes of a number from `at` on.
fn store_number(bytes: &mut [u8], at: usize, n: usize, number: u64)
    requires { (n ≤ sizes.word_size) × (at + n ≤ length bytes.old) }
    ensures { Stored bytes.old at (little_endian_bytes n number) bytes.new }
{
    let all = number.to_le_bytes();
    store_bytes(bytes, at, &all[..n]);
}

// An array of words.
fn load_words(bytes: &[u8], at: usize, words: &mut [u64])
    requires { at + sizes.word_size * length words.old ≤ length bytes.now }
    ensures { words.new ≡ words_at bytes.now at (length words.old) }
{
    for (i, word) in words.iter_mut().enumerate() {
        *word = word_at(bytes, at + sizes::WORD_SIZE * i);
    }
}

fn store_words(bytes: &mut [u8], at: usize, words: &[u64])
    requires { at + sizes.word_size * length words.now ≤ length bytes.old }
    ensures { ((l : ℕ) → get_or words.now l 0 < 2 ^ 64)
        × Stored bytes.old at (words_bytes words.now) bytes.new }
{
    for (i, word) in words.iter().enumerate() {
        store_number(bytes, at + sizes::WORD_SIZE * i, sizes::WORD_SIZE, *word);
    }
}

// ---- headers

pub fn read_header(bytes: &[u8]) -> Header
    requires { length bytes.now ≡ sizes.header_size }
    ensures { result ≡ header_at bytes.now }
{
    Header {
        initial: bytes[sizes::INITIAL_PLACE],
        k: bytes[sizes::HEADER_K_PLACE],
        secret: word_at(bytes, sizes::HEADER_SECRET_PLACE),
        observable: half_at(bytes, sizes::OBSERVABLE_PLACE),
        symbols: array_at(bytes, sizes::SYMBOLS_PLACE),
    }
}

pub fn write_header(bytes: &mut [u8], header: Header)
    requires { length bytes.old ≡ sizes.header_size }
    ensures { bytes.new ≡ header_bytes header }
{
    put(bytes, sizes::INITIAL_PLACE, header.initial);
    put(bytes, sizes::HEADER_K_PLACE, header.k);
    store_number(
        bytes,
        sizes::HEADER_SECRET_PLACE,
        sizes::WORD_SIZE,
        header.secret,
    );
    store_number(
        bytes,
        sizes::OBSERVABLE_PLACE,
        sizes::HALF_SIZE,
        header.observable as u64,
    );
    store_bytes(bytes, sizes::SYMBOLS_PLACE, &header.symbols);
}

// ---- further secrets

fn read_secret(bytes: &[u8], at: usize) -> Secret
    requires { at + sizes.secret_size ≤ length bytes.now }
    ensures { result ≡ place_at bytes.now at }
{
    Secret {
        states: word_at(bytes, at),
        k: bytes[at + sizes::SECRET_K_PLACE],
    }
}

fn store_secret(bytes: &mut [u8], at: usize, secret: Secret)
    requires { at + sizes.secret_size ≤ length bytes.old }
    ensures { Stored bytes.old at (place_bytes secret) bytes.new }
{
    store_number(bytes, at, sizes::WORD_SIZE, secret.states);
    put(bytes, at + sizes::SECRET_K_PLACE, secret.k);
}

pub fn read_further(bytes: &[u8], at: usize) -> Further
    requires { at + sizes.further_size ≤ length bytes.now }
    ensures { result ≡ further_at bytes.now at }
{
    let first = read_secret(bytes, at + sizes::FIRST_SECRET_PLACE);
    let second = read_secret(bytes, at + sizes::SECOND_SECRET_PLACE);
    let third = read_secret(bytes, at + sizes::THIRD_SECRET_PLACE);
    Further {
        states: [first.states, second.states, third.states],
        k: [first.k, second.k, third.k],
        count: bytes[at],
    }
}

fn store_further(bytes: &mut [u8], at: usize, further: Further)
    requires { at + sizes.further_size ≤ length bytes.old }
    ensures { FurtherSized further × Stored bytes.old at (further_bytes further) bytes.new }
{
    put(bytes, at, further.count);
    store_secret(
        bytes,
        at + sizes::FIRST_SECRET_PLACE,
        Secret {
            states: further.states[0],
            k: further.k[0],
        },
    );
    store_secret(
        bytes,
        at + sizes::SECOND_SECRET_PLACE,
        Secret {
            states: further.states[1],
            k: further.k[1],
        },
    );
    store_secret(
        bytes,
        at + sizes::THIRD_SECRET_PLACE,
        Secret {
            states: further.states[2],
            k: further.k[2],
        },
    );
}

// ---- estimators

pub fn read_estimator(bytes: &[u8]) -> Estimator
    requires { sizes.estimator_size ≤ length bytes.now }
    ensures { result ≡ estimator_at bytes.now }
{
    let mut entries = [0u64; sizes::ENTRY_COUNT];
    load_words(bytes, sizes::ENTRIES_PLACE, &mut entries);
    Estimator {
        count: bytes[sizes::REMEMBERED_PLACE],
        symbols: array_at(bytes, sizes::REMEMBERED_SYMBOLS_PLACE),
        entries,
        further: read_further(bytes, sizes::FURTHER_PLACE),
    }
}

// At the front; what stands behind stays.
pub fn write_estimator(bytes: &mut [u8], estimator: Estimator)
    requires { sizes.estimator_size ≤ length bytes.old }
    ensures { EstimatorSized estimator × Stored bytes.old 0 (estimator_bytes estimator) bytes.new }
{
    put(bytes, sizes::REMEMBERED_PLACE, estimator.count);
    store_bytes(bytes, sizes::REMEMBERED_SYMBOLS_PLACE, &estimator.symbols);
    store_words(bytes, sizes::ENTRIES_PLACE, &estimator.entries);
    store_further(bytes, sizes::FURTHER_PLACE, estimator.further);
}

// ---- enforcers

// The bytes of notions and of verdicts. (No `From`: the types are those of `opacity`, where an `impl` would stand, and their bytes are the layout's alone.)
pub fn notion_of(byte: u8) -> Notion
    ensures { result ≡ notion_at byte }
{
    match byte {
        sizes::WEAK_BYTE => Notion::Weak,
        _ => Notion::Strong,
    }
}

fn notion_byte(notion: Notion) -> u8
    ensures { result ≡ notion_byte notion }
{
    match notion {
        Notion::Weak => sizes::WEAK_BYTE,
        Notion::Strong => sizes::STRONG_BYTE,
    }
}

pub fn read_enforcer(bytes: &[u8]) -> Enforcer
    requires { length bytes.now ≡ sizes.enforcer_size }
    ensures { result ≡ enforcer_at bytes.now }
{
    Enforcer {
        estimator: read_estimator(bytes),
        notion: notion_of(bytes[sizes::NOTION_PLACE]),
        count: bytes[sizes::PENDING_PLACE],
        pending: array_at(bytes, sizes::PENDING_SYMBOLS_PLACE),
        waits: array_at(bytes, sizes::WAITS_PLACE),
    }
}

pub fn write_enforcer(bytes: &mut [u8], enforcer: Enforcer)
    requires { length bytes.old ≡ sizes.enforcer_size }
    ensures { EnforcerSized enforcer × (bytes.new ≡ enforcer_bytes enforcer) }
{
    write_estimator(bytes, enforcer.estimator);
    put(bytes, sizes::NOTION_PLACE, notion_byte(enforcer.notion));
    put(bytes, sizes::PENDING_PLACE, enforcer.count);
    store_bytes(bytes, sizes::PENDING_SYMBOLS_PLACE, &enforcer.pending);
    store_bytes(bytes, sizes::WAITS_PLACE, &enforcer.waits);
}

// ---- judgements, releases, explorations, first leaks, written sizes and witnesses

fn verdict_byte(verdict: Verdict) -> u8
    ensures { result ≡ verdict_byte (steps_of verdict) }
{
    match verdict {
        Verdict::NoLeak => sizes::NO_LEAK_BYTE,
        Verdict::Leak(l) => l,
    }
}

fn store_verdicts(bytes: &mut [u8], at: usize, verdicts: Verdicts)
    requires { at + sizes.verdicts_size ≤ length bytes.old }
    ensures { Stored bytes.old at (told_bytes (told_of verdicts)) bytes.new }
{
    put(bytes, at, verdict_byte(verdicts.weak));
    put(
        bytes,
        at + sizes::STRONG_PLACE,
        verdict_byte(verdicts.strong),
    );
}

pub fn write_judgement(bytes: &mut [u8], judgement: Judgement<Verdicts>)
    requires { length bytes.old ≡ sizes.judgement_size }
    ensures { bytes.new ≡ judgement_bytes (all_findings judgement) }
{
    let verdicts = judgement.verdicts;
    store_verdicts(bytes, sizes::OWN_VERDICTS_PLACE, verdicts.own);
    store_verdicts(bytes, sizes::FIRST_VERDICTS_PLACE, verdicts.first);
    store_verdicts(bytes, sizes::SECOND_VERDICTS_PLACE, verdicts.second);
    store_verdicts(bytes, sizes::THIRD_VERDICTS_PLACE, verdicts.third);
    put(bytes, sizes::JUDGED_POSSIBLE_PLACE, judgement.size);
}

pub fn write_release(bytes: &mut [u8], release: Release)
    requires { length bytes.old ≡ sizes.release_size }
    ensures { bytes.new ≡ release_bytes release }
{
    put(bytes, sizes::RELEASED_PLACE, release.count);
    put(bytes, sizes::RELEASED_POSSIBLE_PLACE, release.size);
}

pub fn write_exploration(bytes: &mut [u8], exploration: Exploration)
    requires { length bytes.old ≡ sizes.exploration_size }
    ensures { bytes.new ≡ exploration_bytes exploration }
{
    store_number(
        bytes,
        sizes::EXPLORED_PLACE,
        sizes::EXPLORED_SIZE,
        exploration.number as u64,
    );
    put(bytes, sizes::WEAK_WAIT_PLACE, exploration.weak);
    put(bytes, sizes::STRONG_WAIT_PLACE, exploration.strong);
}

// A number of all the bytes: the place of the first leak, or 0 where there is none, or how many bytes were written. Both have the size of a word.
pub fn write_number(bytes: &mut [u8], number: u64)
    requires { length bytes.old ≡ sizes.word_size }
    ensures { bytes.new ≡ word_bytes number }
{
    store_number(bytes, 0, sizes::WORD_SIZE, number);
}

// The run of a witness: the state it starts in and the number of its pairs, of which there are 1,086 at most.
pub fn write_run(bytes: &mut [u8], start: u8, pairs: usize)
    requires { length bytes.old ≡ sizes.run_size }
    ensures { bytes.new ≡ run_bytes start pairs }
{
    put(bytes, sizes::RUN_START_PLACE, start);
    store_number(
        bytes,
        sizes::RUN_PAIRS_PLACE,
        sizes::RUN_PAIRS_SIZE,
        pairs as u64,
    );
}

// What the checker of witnesses says: 1 for yes, 0 for no.
pub fn write_valid(bytes: &mut [u8], valid: bool)
    requires { length bytes.old ≡ sizes.valid_size }
    ensures { bytes.new ≡ valid_bytes valid }
{
    put(bytes, sizes::VALID_PLACE, u8::from(valid));
}
