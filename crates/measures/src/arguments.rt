//! The words that a program is given: those that pick what is measured, or a number of rounds.

use anyhow::{Result, bail};
use std::env;
use std::rt::Env;

/// A family of measures, by the word that picks it.
#[derive(Clone, Copy, PartialEq, Eq)]
pub struct Family(pub &'static str);

/// The size of what stands beside the work: the first, second or third size of a family.
#[derive(Clone, Copy, PartialEq, Eq)]
pub enum Size {
    /// The first, and of the counters the second too.
    Small,
    /// The second last.
    Middle,
    /// The last but those that are huge.
    Large,
    /// A million, for deliveries, the table and counters; for deliveries 65,536 too. Measured only where it is picked.
    Huge,
}

/// What is measured, and how.
#[derive(Drop)]
pub struct Wanted {
    /// Whether the fixed poller is held in a box.
    pub boxed: bool,
    /// Whether rounds are few, and their counts are printed in place of times.
    pub checked: bool,
    families: Vec<Family>,
    sizes: Vec<Size>,
}

impl Wanted {
    fn pick(&mut self, word: &str, number: u64, families: &[Family]) -> Result<()> {
        match word {
            "boxed" => self.boxed = true,
            "plain" => self.boxed = false,
            "checked" => self.checked = true,
            "small" => self.sizes.push(Size::Small)?,
            "middle" => self.sizes.push(Size::Middle)?,
            "large" => self.sizes.push(Size::Large)?,
            "huge" => self.sizes.push(Size::Huge)?,
            _ => match families.iter().find(|family| family.0 == word) {
                Some(family) => self.families.push(*family)?,
                None => bail!("argument {number} is none of the words"),
            },
        }
        Ok(())
    }

    /// What the arguments pick: `boxed` or `plain`, `checked`, any number of families and sizes; of a kind that none picks, all
    /// but what is huge. Refused where they can't be read, where memory is, and, by its number, at the first other word.
    pub fn from_arguments<R: Env + AllocGlobal>(rt: &R, families: &[Family]) -> Result<Wanted> {
        let mut wanted = Wanted {
            boxed: false,
            checked: false,
            families: Vec::new(rt.alloc()),
            sizes: Vec::new(rt.alloc()),
        };
        let mut number = 0u64;
        for argument in env::args(rt)?.skip(1) {
            number = number.saturating_add(1);
            wanted.pick(argument.as_str(), number, families)?;
        }
        Ok(wanted)
    }

    /// Whether the family is wanted.
    pub fn has_family(&self, family: Family) -> bool {
        self.families.is_empty() || self.families.contains(&family)
    }

    /// Whether the size is wanted.
    pub fn has_size(&self, size: Size) -> bool {
        match size {
            Size::Huge => self.sizes.contains(&size),
            _ => self.sizes.is_empty() || self.sizes.contains(&size),
        }
    }
}

/// The first argument, a number of rounds; without one, `default`. Refused where it is no number, or can't be read.
pub fn rounds<R: Env + AllocGlobal>(rt: &R, default: u32) -> Result<u32> {
    match env::args(rt)?.nth(1) {
        Some(word) => Ok(word.parse()?),
        None => Ok(default),
    }
}
