//! How many rounds three threads that send make beside one that receives, and how many messages.

/// How many rounds a test makes, each over a channel of its own.
pub const ROUNDS: u64 = 10_000;

/// How many threads send.
pub const SENDERS: u64 = 3;

/// How many messages each of them sends in a round at most. They are numbers, which begin with the sender's place times this one.
pub const MESSAGES: u64 = 1000;

/// One in this many rounds has `MESSAGES` messages of each sender, the others have a few.
const MANY_EACH: u64 = 2000;

/// How many messages each thread sends in a round.
pub fn messages_of(round: u64) -> u64 {
    if round % MANY_EACH == 0 {
        MESSAGES
    } else {
        2 + round % 4
    }
}

/// How often a receiver takes in a round before it closes.
pub fn takes_of(round: u64) -> u64 {
    if round % MANY_EACH == 0 {
        round / 3 % MESSAGES
    } else {
        round / 3 % 5
    }
}
