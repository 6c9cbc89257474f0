//! Pictures of runs: the steps that one shows, and where each stands.
//!
//! Time goes from left to right, in slots. A wait opens a slot, and its events stand in it, each in the lane of its
//! descriptor; where the lane has an event there already, the next slot is opened. Each call opens a slot of its own. What
//! finds no room in a row begins the next, and a row has the lanes in which something happens, in ascending order.

ghost use Rattle.std.specs.Prelude.{◌≡◌, IfOk, map};

use std::alloc::{AllocError, Global};
use std::collections::BTreeMap;
use vmm_sys::epoll::RawFd;

/// How wide the names of the lanes are, in units of the picture: about pixels.
pub const LABELS: u64 = 104;
/// How high a lane is.
pub const LANE: u64 = 34;
/// How high the words of the waits above a row's lanes are.
pub const HEAD: u64 = 34;
/// What lies between two rows.
const GAP: u64 = 24;
/// How wide a row may be.
const WIDEST: u64 = 960;
/// The least width of a picture.
const LEAST: u64 = 320;
/// The least width of a slot.
const NARROWEST: u64 = 48;
/// How wide a character is.
const CHARACTER: u64 = 7;

/// What a lane is of.
#[derive(Clone, Copy, PartialEq, Eq, PartialOrd, Ord)]
pub enum Lane {
    /// The joins and leaves of subscribers.
    Subscribers,
    /// A descriptor.
    Descriptor(RawFd),
}

/// What a step is.
#[derive(Clone, Copy, PartialEq, Eq)]
pub enum Form {
    /// A wait of the poller.
    Wait,
    /// An event that the wait before it reported.
    Event(Lane),
    /// Any other call.
    Call(Lane),
}

/// How a step is coloured.
#[derive(Clone, Copy)]
pub enum Tone {
    /// As nothing in particular.
    Plain,
    /// As refused.
    Refused,
    /// As an event that went to nobody.
    Nobody,
    /// As of the subscriber that was the n-th to join, from 0.
    Owner(usize),
}

/// What a picture has one mark for: two lines of text, and what is told of it at the pointer.
#[derive(Drop)]
pub struct Step {
    pub form: Form,
    pub tone: Tone,
    pub first: String,
    pub second: String,
    pub told: String,
}

/// A step in its slot.
#[derive(Drop)]
pub struct Placed {
    pub step: Step,
    pub slot: usize,
}

/// A slot: its row, and how far from the left it begins there.
#[derive(Clone, Copy)]
pub struct Slot {
    pub row: usize,
    pub left: u64,
    pub width: u64,
}

/// A row: its lanes, the placed steps that stand in it, the wait of the row above that goes on in it, how wide it is, and how
/// far from the top it begins.
#[derive(Drop)]
pub struct Row {
    pub lanes: Vec<Lane>,
    pub first: usize,
    pub end: usize,
    pub wait: Option<usize>,
    pub width: u64,
    pub top: u64,
}

/// Where a replay left the run: the row, and how far from its left.
#[derive(Clone, Copy)]
pub struct Parting {
    pub row: usize,
    pub left: u64,
}

/// A picture.
#[derive(Drop)]
pub struct Picture {
    pub placed: Vec<Placed>,
    pub slots: Vec<Slot>,
    pub rows: Vec<Row>,
    pub parting: Option<Parting>,
}

/// What a wait says that was interrupted.
pub const INTERRUPTED: &str = "interrupted";

/// What a wait says that reported `count` events.
pub fn count_text(alloc: Global, count: usize) -> Result<String, AllocError> {
    match count {
        1 => String::from_str(alloc, "1 event"),
        _ => format!(in alloc; "{count} events"),
    }
}

impl Form {
    /// The lane of an event or a call.
    pub fn lane(&self) -> Option<Lane> {
        match *self {
            Form::Wait => None,
            Form::Event(lane) | Form::Call(lane) => Some(lane),
        }
    }
}

/// Gives each step its slot: the marks of the picture are these steps, in their order.
pub fn place(alloc: Global, steps: Vec<Step>) -> Result<Vec<Placed>, AllocError>
    ensures { IfOk result (λ placed. map (λ it. it.step) placed.items ≡ steps.items) }
{
    let mut placed = Vec::new(alloc);
    let mut last_of_lane = BTreeMap::new(alloc);
    let mut last: Option<usize> = None;
    for step in steps {
        let next = last.map_or(0, |slot| slot.saturating_add(1));
        let slot = match (step.form, last) {
            (Form::Event(lane), Some(slot)) if last_of_lane.get(&lane) != Some(&slot) => slot,
            _ => next,
        };
        if let Form::Event(lane) = step.form {
            last_of_lane.insert(lane, slot)?;
        }
        last = Some(slot);
        placed.push(Placed { step, slot })?;
    }
    Ok(placed)
}

/// How wide each slot is: its texts find room.
fn widths(alloc: Global, placed: &[Placed]) -> Result<Vec<u64>, AllocError> {
    let mut widths: Vec<u64> = Vec::new(alloc);
    for Placed { step, slot } in placed {
        let width = width_of(step.first.len().max(step.second.len()));
        if widths.len() <= *slot {
            widths.push(NARROWEST)?;
        }
        if let Some(before) = widths.get_mut(*slot) {
            *before = (*before).max(width);
        }
    }
    Ok(widths)
}

/// How wide a text of this many characters is, with a margin.
pub fn width_of(characters: usize) -> u64 {
    CHARACTER
        .saturating_mul(characters as u64)
        .saturating_add(2 * CHARACTER)
}

/// Slots of these widths, row by row.
fn slots(alloc: Global, widths: &[u64]) -> Result<Vec<Slot>, AllocError> {
    let mut slots = Vec::new(alloc);
    let (mut row, mut left) = (0usize, LABELS);
    for width in widths {
        let right = left.saturating_add(*width);
        if right > WIDEST && left > LABELS {
            row = row.saturating_add(1);
            left = LABELS;
        }
        slots.push(Slot {
            row,
            left,
            width: *width,
        })?;
        left = left.saturating_add(*width);
    }
    Ok(slots)
}

impl Row {
    // A row without steps, of which the first to come has this index, where this wait goes on.
    fn empty(alloc: Global, first: usize, wait: Option<usize>) -> Row {
        Row {
            lanes: Vec::new(alloc),
            first,
            end: first,
            wait,
            width: LABELS,
            top: 0,
        }
    }

    // Takes the step of this index in, which stands in this slot.
    fn take(&mut self, number: usize, slot: Slot, form: Form) -> Result<(), AllocError> {
        if let Some(lane) = form.lane() {
            self.lanes.push(lane)?;
        }
        self.end = number.saturating_add(1);
        self.width = self.width.max(slot.left.saturating_add(slot.width));
        Ok(())
    }

    /// How far below its top the row's lanes end.
    pub fn bottom(&self) -> u64 {
        LANE.saturating_mul(self.lanes.len() as u64)
            .saturating_add(HEAD)
    }

    /// How far below its top the row's marks of a lane begin.
    pub fn lane_top(&self, lane: Lane) -> u64 {
        let (Ok(place) | Err(place)) = self.lanes.binary_search(&lane);
        LANE.saturating_mul(place as u64).saturating_add(HEAD)
    }
}

/// The rows that the slots make, each below the one before it: at least one.
fn rows(alloc: Global, placed: &[Placed], slots: &[Slot]) -> Result<Vec<Row>, AllocError> {
    let mut rows = vec![in alloc; Row::empty(alloc, 0, None)]?;
    let mut wait = None;
    for (number, Placed { step, slot }) in placed.iter().enumerate() {
        let Some(slot) = slots.get(*slot) else {
            continue;
        };
        if step.form == Form::Wait {
            wait = Some(number);
        }
        if rows.len() <= slot.row {
            let goes_on = wait.filter(|wait| *wait != number);
            rows.push(Row::empty(alloc, number, goes_on))?;
        }
        if let Some(row) = rows.last_mut() {
            row.take(number, *slot, step.form)?;
        }
    }
    let mut top = 0u64;
    for row in &mut rows {
        row.lanes.sort_unstable();
        row.lanes.dedup();
        row.top = top;
        top = row.bottom().saturating_add(GAP).saturating_add(top);
    }
    Ok(rows)
}

// In front of the step of this index; behind the last where there is none.
fn parting_at(index: usize, placed: &[Placed], slots: &[Slot]) -> Parting {
    let slot = placed.get(index).and_then(|it| slots.get(it.slot));
    match (slot, slots.last()) {
        (Some(slot), _) => Parting {
            row: slot.row,
            left: slot.left,
        },
        (None, Some(last)) => Parting {
            row: last.row,
            left: last.left.saturating_add(last.width),
        },
        (None, None) => Parting {
            row: 0,
            left: LABELS,
        },
    }
}

impl Picture {
    /// The picture of steps, and of where a replay left them: in front of the step of this index, or behind the last.
    pub fn new(
        alloc: Global,
        steps: Vec<Step>,
        parting: Option<usize>,
    ) -> Result<Picture, AllocError>
        ensures { IfOk result (λ picture. map (λ it. it.step) picture.placed.items ≡ steps.items) }
    {
        let placed = place(alloc, steps)?;
        let slots = slots(alloc, &widths(alloc, &placed)?)?;
        let rows = rows(alloc, &placed, &slots)?;
        let parting = parting.map(|index| parting_at(index, &placed, &slots));
        Ok(Picture {
            placed,
            slots,
            rows,
            parting,
        })
    }

    /// How wide it is.
    pub fn width(&self) -> u64 {
        self.rows
            .iter()
            .map(|row| row.width)
            .max()
            .unwrap_or(0)
            .max(LEAST)
    }

    /// How high it is.
    pub fn height(&self) -> u64 {
        match self.rows.last() {
            Some(row) => row.top.saturating_add(row.bottom()).saturating_add(GAP),
            None => 0,
        }
    }
}
