//! Schedules of several workers, forced by gates. That workers run at the same time is shown here and nowhere else.

use crate::answers::Outcome;
use race_workers::{Gate, Moment};
use std::alloc::AllocError;
use std::sync::atomic::{AtomicU64, Ordering};

/// How often a gate looks before it gives up.
const TURNS: u64 = 1_000_000_000;

/// A count of workers that have come to a moment, for which others wait.
#[derive(Drop)]
struct Arrivals {
    count: AtomicU64,
    gave_up: AtomicU64,
}

impl Arrivals {
    fn new() -> Self {
        Arrivals {
            count: AtomicU64::new(0),
            gave_up: AtomicU64::new(0),
        }
    }

    fn add(&self) {
        self.count.fetch_add(1, Ordering::SeqCst);
    }

    /// Waits until so many have come.
    fn wait_for(&self, number: u64) {
        for _ in 0..TURNS {
            if self.so_far() >= number {
                return;
            }
        }
        self.gave_up.fetch_add(1, Ordering::SeqCst);
    }

    fn so_far(&self) -> u64 {
        self.count.load(Ordering::SeqCst)
    }

    /// How many have come, unless a worker gave up waiting for more.
    fn all(&self) -> Option<u64> {
        match self.gave_up.load(Ordering::SeqCst) {
            0 => Some(self.so_far()),
            _ => None,
        }
    }
}

/// The moments of one worker, a digit for each, as far as eighteen of them.
#[derive(Drop)]
pub(crate) struct Record {
    digits: AtomicU64,
}

impl Record {
    fn new() -> Self {
        Record {
            digits: AtomicU64::new(0),
        }
    }

    fn add(&self, moment: Moment) {
        let digit = match moment {
            Moment::Reading => 1,
            Moment::Built => 2,
            Moment::Publishing => 3,
            Moment::Published => 4,
            Moment::Stale => 5,
            Moment::Finishing => 6,
        };
        let digits = self.digits.load(Ordering::SeqCst);
        if digits < 100_000_000_000_000_000 {
            let more = digits.wrapping_mul(10).wrapping_add(digit);
            self.digits.store(more, Ordering::SeqCst);
        }
    }

    fn digits(&self) -> u64 {
        self.digits.load(Ordering::SeqCst)
    }
}

impl Gate for Record {
    fn at(&self, _worker: u32, moment: Moment) {
        self.add(moment);
    }
}

/// Nobody passes a moment of this kind before so many workers have come to it.
#[derive(Drop)]
pub(crate) struct AllAt {
    moment: Moment,
    workers: u64,
    there: Arrivals,
}

impl AllAt {
    fn new(moment: Moment, workers: u64) -> Self {
        AllAt {
            moment,
            workers,
            there: Arrivals::new(),
        }
    }

    /// Whether a worker comes to the moment once.
    fn is_once(&self) -> bool {
        self.moment == Moment::Finishing
    }
}

impl Gate for AllAt {
    fn at(&self, _worker: u32, moment: Moment) {
        if moment == self.moment {
            self.there.add();
            self.there.wait_for(self.workers);
        }
    }
}

/// Holds worker 1 at Publishing until worker 0 is there, worker 0 there until worker 1 has published, and worker 1 at Published until
/// worker 0 has published too. So worker 0 is refused as stale.
#[derive(Drop)]
pub(crate) struct FirstIsStale {
    first_publishes: Arrivals,
    first_published: Arrivals,
    second_published: Arrivals,
    first_moments: Record,
}

impl FirstIsStale {
    fn new() -> Self {
        FirstIsStale {
            first_publishes: Arrivals::new(),
            first_published: Arrivals::new(),
            second_published: Arrivals::new(),
            first_moments: Record::new(),
        }
    }
}

impl Gate for FirstIsStale {
    fn at(&self, worker: u32, moment: Moment) {
        // (what follows its publication goes by the schedule)
        if worker == 0 && self.first_published.so_far() == 0 {
            self.first_moments.add(moment);
        }
        match (worker, moment) {
            (0, Moment::Publishing) => {
                self.first_publishes.add();
                self.second_published.wait_for(1);
            }
            (_, Moment::Publishing) => self.first_publishes.wait_for(1),
            (0, Moment::Published) => self.first_published.add(),
            (_, Moment::Published) => {
                self.second_published.add();
                self.first_published.wait_for(1);
            }
            (_, Moment::Reading | Moment::Built | Moment::Stale | Moment::Finishing) => {}
        }
    }
}

/// Nobody passes Publishing before two workers are there, and the one that then publishes is held until the other is about to finish.
#[derive(Drop)]
pub(crate) struct OtherIsFull {
    publishing: Arrivals,
    finishing: Arrivals,
}

impl OtherIsFull {
    fn new() -> Self {
        OtherIsFull {
            publishing: Arrivals::new(),
            finishing: Arrivals::new(),
        }
    }
}

impl Gate for OtherIsFull {
    fn at(&self, _worker: u32, moment: Moment) {
        match moment {
            Moment::Publishing => {
                self.publishing.add();
                self.publishing.wait_for(2);
            }
            Moment::Published => self.finishing.wait_for(1),
            Moment::Finishing => self.finishing.add(),
            Moment::Reading | Moment::Built | Moment::Stale => {}
        }
    }
}

/// Two workers take turns: a worker that has come to a moment goes on when the other has come to its next one. So only one of them is at
/// work at any time, and their moments come in one order. At their ends both go on when both are there.
#[derive(Drop)]
pub(crate) struct InTurns {
    come: Arrivals,
    ending: Arrivals,
    first_moments: Record,
    second_moments: Record,
}

impl InTurns {
    fn new() -> Self {
        InTurns {
            come: Arrivals::new(),
            ending: Arrivals::new(),
            first_moments: Record::new(),
            second_moments: Record::new(),
        }
    }

    fn add(&self, worker: u32, moment: Moment) {
        match worker {
            0 => self.first_moments.add(moment),
            _ => self.second_moments.add(moment),
        }
        self.come.add();
    }
}

impl Gate for InTurns {
    fn at(&self, worker: u32, moment: Moment) {
        // Worker 1 begins when worker 0 has come to its first moment. From then on nobody else comes until this worker waits.
        self.come.wait_for(u64::from(worker));
        let before = self.come.so_far();
        self.add(worker, moment);
        if moment == Moment::Finishing {
            self.ending.add();
            self.ending.wait_for(2);
        } else {
            self.come.wait_for(before.saturating_add(2));
        }
    }
}

/// What forces a schedule, and tells of it.
#[derive(Drop)]
pub(crate) enum Schedule {
    Free,
    Moments(Record),
    Together(AllAt),
    Stale(FirstIsStale),
    Full(OtherIsFull),
    Turns(InTurns),
}

impl Schedule {
    /// The schedule of that name.
    pub(crate) fn named(name: &str) -> Option<Schedule> {
        match name {
            "moments" => Some(Schedule::Moments(Record::new())),
            "four build" => Some(Schedule::Together(AllAt::new(Moment::Built, 4))),
            "two finish" => Some(Schedule::Together(AllAt::new(Moment::Finishing, 2))),
            "first is stale" => Some(Schedule::Stale(FirstIsStale::new())),
            "other is full" => Some(Schedule::Full(OtherIsFull::new())),
            "in turns" => Some(Schedule::Turns(InTurns::new())),
            _ => None,
        }
    }

    /// Puts what the gate saw behind a text, and how many entries the closed history has, and how many states what it keeps.
    pub(crate) fn push_seen(&self, shown: &mut String, outcome: Outcome) -> Result<(), AllocError> {
        match self {
            Schedule::Free => return Ok(()),
            Schedule::Moments(record) => push_moments(shown, record.digits())?,
            Schedule::Together(all) => push_arrivals(shown, all.there.all(), all.is_once())?,
            Schedule::Stale(stale) => {
                push_moments(shown, stale.first_moments.digits())?;
                push_arrivals(shown, stale.second_published.all(), true)?;
            }
            Schedule::Full(full) => {
                push_arrivals(shown, full.publishing.all(), true)?;
                push_arrivals(shown, full.finishing.all(), false)?;
            }
            Schedule::Turns(turns) => {
                push_moments(shown, turns.first_moments.digits())?;
                push_moments(shown, turns.second_moments.digits())?;
                push_arrivals(shown, turns.come.all(), true)?;
                push_arrivals(shown, turns.ending.all(), true)?;
            }
        }
        let entries = outcome.entries;
        let kept = outcome.kept;
        writeln!(shown, "entries {entries}, kept states {kept}")
    }
}

impl Gate for Schedule {
    fn at(&self, worker: u32, moment: Moment) {
        match self {
            Schedule::Free => {}
            Schedule::Moments(record) => record.at(worker, moment),
            Schedule::Together(all) => all.at(worker, moment),
            Schedule::Stale(stale) => stale.at(worker, moment),
            Schedule::Full(full) => full.at(worker, moment),
            Schedule::Turns(turns) => turns.at(worker, moment),
        }
    }
}

fn push_moments(shown: &mut String, digits: u64) -> Result<(), AllocError> {
    writeln!(shown, "moments {digits}")
}

/// How many came, where they are counted, unless one gave up waiting for more.
fn push_arrivals(
    shown: &mut String,
    came: Option<u64>,
    is_counted: bool,
) -> Result<(), AllocError> {
    match came {
        None => shown.push_str("gave up\n"),
        Some(count) if is_counted => writeln!(shown, "came {count}"),
        Some(_) => shown.push_str("came\n"),
    }
}
