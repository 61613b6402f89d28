//! The limits by which nodes and their clients wait, hold back and give up. Each name says what is limited, and in which unit.

/// After so many whole seconds a peer that still owes is absent.
pub const ABSENT_AFTER_SECONDS: u64 = 2;

/// An absent peer may keep so many posts from being dropped.
pub const KEPT_FOR_ABSENT_POSTS: u64 = 64;

/// For so many milliseconds no frame of a peer came that is silent. A node that runs sends one each second.
pub const SILENT_AFTER_MS: u64 = 3000;

/// Where nothing else calls for a snapshot, so many seconds pass between two.
pub const SNAPSHOT_PERIOD_SECONDS: u64 = 8;

/// After so many seconds an operation has been pending for long.
pub const SLOW_OPERATION_SECONDS: u64 = 8;

/// After so many seconds an ask is handed over, whatever room there is.
pub const HELD_ASK_SECONDS: u64 = 10;

/// After so many seconds a message that is held back is given up.
pub const HELD_MESSAGE_SECONDS: u64 = 5;

/// A peer may take nothing for so many milliseconds, and may leave a greeting unanswered for as long.
pub const PEER_ANSWER_MS: u64 = 1000;

/// A client may take nothing for so many milliseconds.
pub const CLIENT_WRITE_MS: u64 = 5000;

/// About so many bytes are put into one write.
pub const WRITE_BYTES: usize = 65_536;

/// The side in use is left for the other one where it holds more bytes than this.
pub const CHECKPOINT_BYTES: u64 = 4_194_304;

/// It is left only where it holds so many bytes more than when it was begun.
pub const CHECKPOINT_GROWTH_BYTES: u64 = 1_048_576;

/// So long a client of a load waits for its last answer once the time is over, in seconds.
pub const LAST_ANSWER_SECONDS: u64 = 10;

/// So long the operator waits for what a node answers, in seconds.
pub const OPERATOR_ANSWER_SECONDS: u64 = 10;

/// So long a status is read, in seconds.
pub const STATUS_SECONDS: u64 = 5;

/// So long a node's reason is read, in seconds.
pub const REASON_SECONDS: u64 = 1;
