//! A search through the assignments along the names of types, one after the other those that reach
//! one another. What it finds is checked by `recursion`; where that says no, `reach_sets` goes on.

use crate::names::place_of;
use crate::use_lists::UseLists;
use osi_base::NoMemory;
use std::alloc::Global;

/// Where an assignment stands among those that reach it and that it reaches.
#[derive(Clone, Copy)]
pub(crate) struct Standing {
    /// The number of those that reach one another and it; what they name has no greater one.
    pub component: u32,
    /// The one of them that was met first.
    pub root: u32,
    /// Whether it reaches itself.
    pub is_recursive: bool,
    /// By which of its names it reaches the root; that leads to one of a lower height, or the root.
    pub way: u32,
    pub height: u64,
    /// Which one names it on the way from the root, and by which name; that was met before.
    pub before: u32,
    pub branch: u32,
    /// When it was met, counted from 1; 0 where it wasn't yet.
    pub met: u32,
}

/// How far an assignment is searched.
#[derive(Clone, Copy)]
struct Mark {
    standing: Standing,
    /// When the first open one was met that it reaches.
    low: u32,
    /// The next of its names to go to.
    next: u32,
    /// Whether it is open: not all that it reaches was searched.
    is_open: bool,
}

const NEW: Mark = Mark {
    standing: Standing {
        component: 0,
        root: 0,
        is_recursive: false,
        way: 0,
        height: 0,
        before: 0,
        branch: 0,
        met: 0,
    },
    low: 0,
    next: 0,
    is_open: false,
};

#[derive(Drop)]
struct Search<'u> {
    uses: &'u UseLists,
    marks: Vec<Mark>,
    open: Vec<u32>,
    path: Vec<u32>,
    /// How many were met, left, and found to be whole components.
    met: u32,
    left: u32,
    closed: u32,
    /// The assignments, those that are named before those that name them.
    order: Vec<u32>,
}

/// The assignments of a module in an order in which those that are named come first, except among
/// those that reach one another; and how each of them stands.
#[derive(Drop)]
pub(crate) struct Survey {
    pub order: Vec<u32>,
    pub standings: Vec<Standing>,
}

impl<'u> Search<'u> {
    fn mark(&self, place: u32) -> Mark {
        *self.marks.get(place as usize).unwrap_or(&NEW)
    }

    fn set(&mut self, place: u32, mark: Mark) {
        if let Some(old) = self.marks.get_mut(place as usize) {
            *old = mark;
        }
    }

    /// Meets an assignment for the first time, by a name of another.
    fn meet(&mut self, place: u32, before: u32, branch: u32) -> Result<(), NoMemory> {
        self.met = self.met.saturating_add(1);
        let mut mark = NEW;
        mark.standing.met = self.met;
        mark.standing.before = before;
        mark.standing.branch = branch;
        mark.low = self.met;
        mark.is_open = true;
        self.set(place, mark);
        self.open.push(place)?;
        self.path.push(place)?;
        Ok(())
    }

    /// Goes along the next name of an assignment.
    fn advance(&mut self, place: u32, named: u32) -> Result<(), NoMemory> {
        let mut mark = self.mark(place);
        let branch = mark.next;
        mark.next = branch.saturating_add(1);
        if named == place {
            mark.standing.is_recursive = true;
        }
        let other = self.mark(named);
        if other.is_open && other.standing.met <= mark.low {
            mark.low = other.standing.met;
            mark.standing.way = branch;
        }
        self.set(place, mark);
        if other.standing.met == 0 {
            self.meet(named, place, branch)?;
        }
        Ok(())
    }

    /// Closes the component of an assignment, all of whose names were gone along.
    fn close(&mut self, place: u32) -> Result<(), NoMemory> {
        self.closed = self.closed.saturating_add(1);
        let mut is_single = true;
        for _ in 0..self.open.len() {
            let Some(last) = self.open.pop() else {
                break;
            };
            let mut mark = self.mark(last);
            mark.is_open = false;
            mark.standing.component = self.closed;
            mark.standing.root = place;
            if last != place {
                is_single = false;
            }
            if !is_single {
                mark.standing.is_recursive = true;
            }
            self.set(last, mark);
            self.order.push(last)?;
            if last == place {
                break;
            }
        }
        Ok(())
    }

    /// Leaves an assignment, all of whose names were gone along.
    fn leave(&mut self, place: u32) -> Result<(), NoMemory> {
        self.left = self.left.saturating_add(1);
        let mut mark = self.mark(place);
        mark.standing.height = u64::from(mark.low)
            .saturating_mul(4_294_967_296)
            .saturating_add(u64::from(self.left));
        self.set(place, mark);
        if mark.low == mark.standing.met {
            self.close(place)?;
        }
        if let Some(before) = self.path.last() {
            let before = *before;
            let mut other = self.mark(before);
            if mark.low <= other.low {
                other.low = mark.low;
                other.standing.way = mark.standing.branch;
            }
            self.set(before, other);
        }
        Ok(())
    }

    /// One step of the search; whether one was left.
    fn step(&mut self) -> Result<bool, NoMemory> {
        let Some(place) = self.path.pop() else {
            return Ok(false);
        };
        let mark = self.mark(place);
        if let Some(named) = self.uses.at(place as usize).get(mark.next as usize) {
            let named = *named;
            self.path.push(place)?;
            self.advance(place, named)?;
        } else {
            self.leave(place)?;
        }
        Ok(true)
    }
}

/// Surveys the assignments of a module.
pub(crate) fn surveyed(alloc: Global, uses: &UseLists) -> Result<Survey, NoMemory> {
    let count = uses.len();
    let mut search = Search {
        uses,
        marks: vec![in alloc; NEW; count]?,
        open: Vec::new(alloc),
        path: Vec::new(alloc),
        met: 0,
        left: 0,
        closed: 0,
        order: Vec::new(alloc),
    };
    for place in 0..count {
        let place = place_of(place)?;
        if search.mark(place).standing.met == 0 {
            search.meet(place, place, 0)?;
            for _ in 0..u64::MAX {
                if !search.step()? {
                    break;
                }
            }
        }
    }
    let mut standings = Vec::new(alloc);
    for mark in &search.marks {
        standings.push(mark.standing)?;
    }
    Ok(Survey {
        order: search.order,
        standings,
    })
}
