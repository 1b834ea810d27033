// Where the tables of a build stand in work, behind the sets.
ghost use Rattle.std.specs.Prelude.{◌≡◌, ◌+◌, ◌-◌, ◌*◌, ◌≤◌};
ghost use Rattle.limits.specs.Limits.{most_records, max_regions, max_shapes};
ghost use Rattle.encoder.specs.LentPlaces.{room_for, PlacesAt};

use limits::Limits;

// Of so many sets and regions, in this order. `line`, `first`, `ids` and `kinds` have a word for each set: set numbers in the order of the
// sets, the first like of each, its id, the slot of its shape. Then the shapes, a word a region in each of room + 1 slots, and tables of room
// words: `order` (the slot of each group), `counts` (sets by slot), `place` (two such tables), `costs` and `columns` (by slot), `into` (two).
// After merging, the places of some serve again, each use by a name of its own: `homes`, where `counts` stood, has the final group of each
// slot; `living`, where `costs` stood, the slots of the final groups in order; `spots`, where `columns` stood, a slot's place in that order;
// and then `finals`, where `columns` and `into` stood, three words a final group. Then the log, and a word for each set from `rows` on.
// Behind the rows, from `rows + sets` on, stand four tables of a word a region, while a store is planned and written: which regions it keeps,
// their new numbers, and for each final group in turn its columns and their places. Until groups are merged nothing else stands from `rows`
// on, and there is room for the planes of bits of the slots, three of (regions + 31) / 32 words in each.
// (Places and not slices: `PackedAt`, `Arranged` and the theorems above them say what stands at each, and most words serve twice.)
#[derive(Clone, Copy)]
pub struct Places {
    pub sets: usize,
    pub regions: usize,
    pub room: usize,
    pub line: usize,
    pub first: usize,
    pub ids: usize,
    pub kinds: usize,
    pub slots: usize,
    pub order: usize,
    pub counts: usize,
    pub homes: usize,
    pub place: usize,
    pub costs: usize,
    pub living: usize,
    pub columns: usize,
    pub spots: usize,
    pub finals: usize,
    pub into: usize,
    pub log: usize,
    pub rows: usize,
}

// How many groups there may be: no more than sets, and at most 1,024; one, where no region is in use, since all sets are empty then.
fn room_for(sets: usize, regions: usize) -> usize
    requires { regions ≤ max_regions }
    ensures is { result ≡ room_for sets regions }
    ensures most { (result ≤ sets) × (result ≤ max_shapes) }
    ensures few { (result + 1) * regions ≤ (max_shapes + 1) * max_regions }
{
    if regions == 0 {
        return sets.min(1);
    }
    sets.min(Limits::SHAPES)
}

// Three words for each merge that so many groups can have. Where there are no groups there is no log.
pub fn log_words(groups: usize) -> usize
    requires { groups ≤ max_shapes }
    ensures { result ≡ 3 * (groups - 1) }
{
    3 * groups.saturating_sub(1)
}

// The tables of so many sets and regions, from `base` on.
pub fn lay_out(base: usize, sets: usize, regions: usize) -> Places
    requires base_bound { base ≤ 5242880 }
    requires sets_le_most_records { sets ≤ most_records }
    requires regions_le_max_regions { regions ≤ max_regions }
    ensures { PlacesAt base sets regions result }
{
    let room = room_for(sets, regions);
    let slots = base + 4 * sets;
    let order = slots + (room + 1) * regions;
    let counts = order + room;
    let place = counts + room;
    let costs = place + 2 * room;
    let columns = costs + room;
    let into = columns + room;
    let log = into + 2 * room;
    let rows = log + log_words(room);
    Places {
        sets,
        regions,
        room,
        line: base,
        first: base + sets,
        ids: base + 2 * sets,
        kinds: base + 3 * sets,
        slots,
        order,
        counts,
        homes: counts,
        place,
        costs,
        living: costs,
        columns,
        spots: columns,
        finals: columns,
        into,
        log,
        rows,
    }
}
