//! Failures that are built into a store in memory.
ghost use Rattle.std.specs.Prelude.{◌≡◌};
ghost use Rattle.std.specs.List.{list_any, filter_map};
ghost use Rattle.sx_edge.specs.Trips.{bars_start, bars_read, distance, least};

/// A failure that is built into a [`Shelf`](crate::Shelf). Its files are numbered from 0.
#[derive(Clone, Copy, Debug, PartialEq, Eq)]
pub enum Trip {
    /// Each start of the file of this number fails.
    Start(u32),
    /// Reads of the file of this number give the bytes before this place, counted in bytes from its start, and each read
    /// that stands at this place fails.
    Read(u32, u64),
}

impl Trip {
    // Whether a start of the file of this number fails.
    fn bars_start(&self, number: usize) -> bool
        ensures { result ≡ bars_start number self.now }
    {
        match *self {
            Trip::Start(file) => file as usize == number,
            Trip::Read(_, _) => false,
        }
    }

    // Whether a read of the started file fails at this place.
    fn bars_read(&self, started: Option<usize>, at: usize) -> bool
        ensures { result ≡ bars_read started at self.now }
    {
        match (started, *self) {
            (Some(number), Trip::Read(file, place)) => file as usize == number
                && place as usize == at,
            _ => false,
        }
    }

    // How far ahead of this place a read of the started file fails.
    fn distance(&self, started: Option<usize>, at: usize) -> Option<usize>
        ensures { result ≡ distance started at self.now }
    {
        match (started, *self) {
            (Some(number), Trip::Read(file, place))
                if file as usize == number && at <= place as usize => { Some(place as usize - at) }
            _ => None,
        }
    }
}

// Whether a start of the file of this number fails.
pub(crate) fn any_bars_start(trips: &[Trip], number: usize) -> bool
    ensures { result ≡ list_any (bars_start number) trips.now }
{
    trips.iter().any(|trip| trip.bars_start(number))
}

// Whether a read of the started file fails at this place.
pub(crate) fn any_bars_read(trips: &[Trip], started: Option<usize>, at: usize) -> bool
    ensures { result ≡ list_any (bars_read started at) trips.now }
{
    trips.iter().any(|trip| trip.bars_read(started, at))
}

// How many of `most` bytes stand before the next place at which a read of the started file fails.
#[tactic(auto, unfolding(crate::specs::Trips::least))]
pub(crate) fn nearest(trips: &[Trip], started: Option<usize>, at: usize, most: usize) -> usize
    ensures { result ≡ least most (filter_map (distance started at) trips.now) }
{
    trips
        .iter()
        .filter_map(|trip| trip.distance(started, at))
        .fold(most, |nearest, distance| nearest.min(distance))
}
