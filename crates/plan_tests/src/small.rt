//! Small problems, and the best plan of each found by trying all of them, from the definitions alone.
ghost use Rattle.std.specs.Prelude.{◌<◌};

use crate::random::Random;

/// A worker of a small problem. One past the last is dead.
#[derive(Clone, Copy, Default)]
pub struct Worker {
    pub rack: u16,
    pub live: bool,
    pub free: u8,
}

/// A split of a small problem. One past the last is not pending.
#[derive(Clone, Copy, Default)]
pub struct Split {
    pub bytes: u64,
    pub pending: bool,
    pub held_by: [bool; 4],
    pub barred_on: [bool; 4],
}

/// The prices of a worker's places, so many, rising. A place past the last price costs as much as that.
#[derive(Clone, Copy, Default)]
pub struct Places {
    pub count: usize,
    pub price: [u64; 3],
}

/// A problem with at most four splits and workers, in three racks of so many data centres, at least one. The
/// places on workers have no prices, or these.
#[derive(Clone, Copy, Default)]
pub struct Small {
    pub splits: usize,
    pub workers: usize,
    pub centres: u8,
    pub centre_of: [u8; 3],
    pub split: [Split; 4],
    pub worker: [Worker; 4],
    pub places: [Places; 4],
}

/// No worker.
pub const NONE: usize = 4;

/// One data centre of three racks.
pub const ONE_CENTRE: (u8, [u8; 3]) = (1, [0, 0, 0]);

/// A small problem: the live workers (rack, free slots), the pending splits (bytes, holder, barred worker),
/// and the number of data centres with the centre of each rack.
#[derive(Clone, Copy)]
pub struct Row {
    pub workers: &'static [(u16, u8)],
    pub splits: &'static [(u64, usize, usize)],
    pub centres: (u8, [u8; 3]),
}

/// How many splits start, and what they are charged: their byte-distance and the prices of their places.
#[derive(Clone, Copy, Debug, Default, PartialEq, Eq)]
pub struct Value {
    pub count: usize,
    pub cost: u64,
}

fn random_worker(random: &mut Random) -> Worker {
    Worker {
        rack: random.one_of(&[0, 1, 2]),
        live: !random.once_in(5),
        free: random.one_of(&[0, 1, 1, 2]),
    }
}

fn random_split(random: &mut Random, workers: usize) -> Split {
    let mut split = Split {
        bytes: random.one_of(&[0, 1, 2, 3, 7, 10, 20, 100]),
        pending: !random.once_in(6),
        ..Split::default()
    };
    for _ in 0..random.below(4) {
        let holder = random.below(workers as u64) as usize;
        if let Some(holds) = split.held_by.get_mut(holder) {
            *holds = workers > 0;
        }
    }
    for w in 0..4usize {
        split.barred_on[w] = random.once_in(6);
    }
    split
}

fn random_places(random: &mut Random) -> Places {
    let mut places = Places {
        count: random.below(4) as usize,
        ..Places::default()
    };
    let mut price: u64 = 0;
    for k in 0..3usize {
        price = price.wrapping_add(random.one_of(&[0, 0, 1, 2, 6, 20, 90, 17_179_869_184]));
        places.price[k] = price;
    }
    places
}

impl Places {
    // The price of a place, the first being 0.
    fn of(&self, place: usize) -> u64 {
        match self.count.checked_sub(1) {
            Some(last) => self.price.get(place.min(last)).copied().unwrap_or(0),
            None => 0,
        }
    }
}

// One of four, or none.
fn only(place: usize) -> [bool; 4] {
    let mut only = [false; 4];
    if place < 4 {
        only[place] = true;
    }
    only
}

impl Small {
    /// A problem made by chance.
    pub fn random(random: &mut Random) -> Small {
        let mut small = Small {
            splits: random.below(5) as usize,
            workers: random.below(5) as usize,
            centres: random.one_of(&[1, 2, 3]),
            ..Small::default()
        };
        for rack in 0..3usize {
            let centre: u8 = random.one_of(&[0, 1, 2]);
            small.centre_of[rack] = centre.checked_rem(small.centres).unwrap_or(0);
        }
        for i in 0..4usize {
            if i < small.workers {
                small.worker[i] = random_worker(random);
            }
            if i < small.splits {
                small.split[i] = random_split(random, small.workers);
            }
        }
        small
    }

    /// A problem made by chance, in which places have prices.
    pub fn priced(random: &mut Random) -> Small {
        let mut small = Small::random(random);
        for i in 0..4usize {
            if i < small.workers {
                small.worker[i].free = random.one_of(&[0, 1, 2, 4]);
                small.places[i] = random_places(random);
            }
        }
        small
    }

    // Adds a live worker in a rack, with so many free slots.
    fn add_worker(&mut self, rack: u16, free: u8) {
        let place = self.workers;
        if place < 4 {
            self.worker[place] = Worker {
                rack,
                live: true,
                free,
            };
            self.workers += 1;
        }
    }

    // Adds a pending split on a worker, barred on another.
    fn add_split(&mut self, bytes: u64, holder: usize, barred: usize) {
        let place = self.splits;
        if place < 4 {
            self.split[place] = Split {
                bytes,
                pending: true,
                held_by: only(holder),
                barred_on: only(barred),
            };
            self.splits += 1;
        }
    }

    /// The problem of a row.
    pub fn of(row: &Row) -> Small {
        let mut small = Small::default();
        (small.centres, small.centre_of) = row.centres;
        for (rack, free) in row.workers {
            small.add_worker(*rack, *free);
        }
        for (bytes, holder, barred) in row.splits {
            small.add_split(*bytes, *holder, *barred);
        }
        small
    }

    fn distance(&self, a: usize, b: usize) -> u64
        requires a { a < 4 }
        requires b { b < 4 }
    {
        let (rack, other) = (self.worker[a].rack, self.worker[b].rack);
        if a == b {
            0
        } else if rack == other {
            2
        } else if self.centre_at(rack) == self.centre_at(other) {
            4
        } else {
            6
        }
    }

    fn centre_at(&self, rack: u16) -> Option<u8> {
        self.centre_of.get(usize::from(rack)).copied()
    }

    fn least_distance(&self, s: usize, w: usize) -> Option<u64>
        requires s { s < 4 }
        requires w { w < 4 }
    {
        let mut least = None;
        for h in 0..4usize {
            if self.split[s].held_by[h] && self.worker[h].live {
                let steps = self.distance(h, w);
                if least.is_none_or(|least| steps < least) {
                    least = Some(steps);
                }
            }
        }
        least
    }

    // The cost of a start, where it may be made.
    fn cost(&self, s: usize, w: usize) -> Option<u64>
        requires s { s < 4 }
        requires w { w < 4 }
    {
        let split = self.split[s];
        let worker = self.worker[w];
        if !split.pending || !worker.live || split.barred_on[w] {
            return None;
        }
        let steps = self.least_distance(s, w)?;
        Some(split.bytes.wrapping_mul(steps))
    }

    /// What a start of a split on a worker costs, where it may be made.
    pub fn start_cost(&self, s: usize, w: usize) -> Option<u64> {
        if s < 4 && w < 4 {
            return self.cost(s, w);
        }
        None
    }

    // What a choice is worth that gives each split a worker's place, or 4 for none; none if it is not
    // admissible.
    fn value(&self, choice: [usize; 4]) -> Option<Value> {
        let mut value = Value::default();
        let mut taken = [0usize; 4];
        for s in 0..4usize {
            let w = choice[s];
            if w < 4 {
                let cost = self.cost(s, w)?.wrapping_add(self.places[w].of(taken[w]));
                if taken[w] >= usize::from(self.worker[w].free) {
                    return None;
                }
                taken[w] += 1;
                value.count = value.count.wrapping_add(1);
                value.cost = value.cost.wrapping_add(cost);
            }
        }
        Some(value)
    }

    /// The greatest count of all choices, and the least cost with that count.
    pub fn best(&self) -> Value {
        let mut best = Value::default();
        for code in 0..625usize {
            let choice = [code % 5, code / 5 % 5, code / 25 % 5, code / 125];
            if let Some(value) = self.value(choice) {
                if value.count > best.count
                    || (value.count == best.count && value.cost < best.cost)
                {
                    best = value;
                }
            }
        }
        best
    }
}
