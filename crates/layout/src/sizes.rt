// Every place and every size of the layout that the code needs, by its name, once: specs/Sizes has each under the same name. (A contract cannot cite a
// constant; the proofs refuse one that differs.)

// A set of states is a word, a set of events half of one.
pub const WORD_SIZE: usize = 8;

pub const HALF_SIZE: usize = 4;

// A header: the initial state, K, the secret set, the observable set, the symbols of all events.
pub const EVENT_COUNT: usize = 32;

pub const INITIAL_PLACE: usize = 0;

pub const HEADER_K_PLACE: usize = 1;

pub const HEADER_SECRET_PLACE: usize = 2;

pub const OBSERVABLE_PLACE: usize = HEADER_SECRET_PLACE + WORD_SIZE;

pub const SYMBOLS_PLACE: usize = OBSERVABLE_PLACE + HALF_SIZE;

pub const HEADER_SIZE: usize = SYMBOLS_PLACE + EVENT_COUNT;

// A further secret: the set of its states, its K.
pub const SECRET_K_PLACE: usize = WORD_SIZE;

pub const SECRET_SIZE: usize = SECRET_K_PLACE + 1;

// Further secrets: how many are given, and three of them.
pub const FIRST_SECRET_PLACE: usize = 1;

pub const SECOND_SECRET_PLACE: usize = FIRST_SECRET_PLACE + SECRET_SIZE;

pub const THIRD_SECRET_PLACE: usize = SECOND_SECRET_PLACE + SECRET_SIZE;

pub const FURTHER_SIZE: usize = THIRD_SECRET_PLACE + SECRET_SIZE;

// An estimator: how many symbols are remembered, those symbols, a state set for each of them and one more, the further secrets.
pub const MOST_REMEMBERED: usize = 15;

pub const ENTRY_COUNT: usize = 16;

pub const REMEMBERED_PLACE: usize = 0;

pub const REMEMBERED_SYMBOLS_PLACE: usize = 1;

pub const ENTRIES_PLACE: usize = REMEMBERED_SYMBOLS_PLACE + MOST_REMEMBERED;

pub const FURTHER_PLACE: usize = ENTRIES_PLACE + WORD_SIZE * ENTRY_COUNT;

pub const ESTIMATOR_SIZE: usize = FURTHER_PLACE + FURTHER_SIZE;

// An enforcer: its estimator, its notion, how many symbols are pending, those symbols, their waits.
pub const MOST_PENDING: usize = 16;

pub const NOTION_PLACE: usize = ESTIMATOR_SIZE;

pub const PENDING_PLACE: usize = NOTION_PLACE + 1;

pub const PENDING_SYMBOLS_PLACE: usize = PENDING_PLACE + 1;

pub const WAITS_PLACE: usize = PENDING_SYMBOLS_PLACE + MOST_PENDING;

pub const ENFORCER_SIZE: usize = WAITS_PLACE + MOST_PENDING;

// The bytes of the two notions.
pub const WEAK_BYTE: u8 = 0;

pub const STRONG_BYTE: u8 = 1;

// The byte of a verdict that is no leak.
pub const NO_LEAK_BYTE: u8 = 255;

// The two verdicts of one secret.
pub const STRONG_PLACE: usize = 1;

pub const VERDICTS_SIZE: usize = 2;

// A judgement: the verdicts of the automaton's own secret and of three further ones, how many states are possible.
pub const OWN_VERDICTS_PLACE: usize = 0;

pub const FIRST_VERDICTS_PLACE: usize = OWN_VERDICTS_PLACE + VERDICTS_SIZE;

pub const SECOND_VERDICTS_PLACE: usize = FIRST_VERDICTS_PLACE + VERDICTS_SIZE;

pub const THIRD_VERDICTS_PLACE: usize = SECOND_VERDICTS_PLACE + VERDICTS_SIZE;

pub const JUDGED_POSSIBLE_PLACE: usize = THIRD_VERDICTS_PLACE + VERDICTS_SIZE;

pub const JUDGEMENT_SIZE: usize = JUDGED_POSSIBLE_PLACE + 1;

// A release: how many symbols were released, how many states are possible.
pub const RELEASED_PLACE: usize = 0;

pub const RELEASED_POSSIBLE_PLACE: usize = 1;

pub const RELEASE_SIZE: usize = RELEASED_POSSIBLE_PLACE + 1;

// An exploration: the number of configurations, the largest weak wait, the largest strong one.
pub const EXPLORED_PLACE: usize = 0;

pub const EXPLORED_SIZE: usize = 2;

pub const WEAK_WAIT_PLACE: usize = EXPLORED_PLACE + EXPLORED_SIZE;

pub const STRONG_WAIT_PLACE: usize = WEAK_WAIT_PLACE + 1;

pub const EXPLORATION_SIZE: usize = STRONG_WAIT_PLACE + 1;

// A first leak: the number of an accepted event, a word.
pub const FIRST_LEAK_SIZE: usize = WORD_SIZE;

// A written size: how many bytes were written, a word.
pub const WRITTEN_SIZE: usize = WORD_SIZE;

// The run of a witness: the state it starts in, the number of its pairs.
pub const RUN_START_PLACE: usize = 0;

pub const RUN_PAIRS_PLACE: usize = 1;

pub const RUN_PAIRS_SIZE: usize = 2;

pub const RUN_SIZE: usize = RUN_PAIRS_PLACE + RUN_PAIRS_SIZE;

// What the checker of witnesses says: one byte.
pub const INVALID_BYTE: u8 = 0;

pub const VALID_BYTE: u8 = 1;

pub const VALID_PLACE: usize = 0;

pub const VALID_SIZE: usize = VALID_PLACE + 1;
