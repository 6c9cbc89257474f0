//! What devices have counted.

use std::fmt;

/// What a network device has counted.
#[derive(Clone, Copy, Default, PartialEq, Eq, Debug)]
pub struct NetMetrics {
    /// The kicks of its queue that were served.
    pub kicks: u64,
    /// The tokens that its rate limiter was given.
    pub tokens: u64,
    /// The inputs of its tap that were served.
    pub inputs: u64,
}

/// What a block device has counted.
#[derive(Clone, Copy, PartialEq, Eq, Debug)]
pub struct BlockMetrics {
    /// The tokens that it has.
    pub tokens: u64,
    /// The requests that it has served, each for a token.
    pub served: u64,
    /// How often its bucket was filled.
    pub refills: u64,
}

/// What a device has counted.
#[derive(Clone, Copy, PartialEq, Eq, Debug)]
pub enum Statistics {
    /// The counts of a network device.
    Net(NetMetrics),
    /// The inputs that a console has served, and whether the other end hung up.
    Console { inputs: u64, hung_up: bool },
    /// The counts of a block device.
    Block(BlockMetrics),
}

impl fmt::Display for Statistics {
    fn fmt<W: fmt::Write>(&self, f: &mut fmt::Formatter<W>) -> fmt::Result {
        match self {
            Statistics::Net(
                NetMetrics {
                    kicks,
                    tokens,
                    inputs,
                },
            ) => { write!(f, "kicks {kicks}, tokens {tokens}, inputs {inputs}") }
            Statistics::Console { inputs, hung_up } => {
                let state = if *hung_up { "hung up" } else { "open" };
                write!(f, "inputs {inputs}, {state}")
            }
            Statistics::Block(
                BlockMetrics {
                    tokens,
                    served,
                    refills,
                },
            ) => { write!(f, "served {served}, tokens {tokens}, refills {refills}") }
        }
    }
}
