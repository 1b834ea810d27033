// Where everything of a merge lies in work.
ghost use Rattle.std.specs.Prelude.{◌≡◌, ◌+◌, ◌*◌, ◌≤◌, ◌<◌};
ghost use Rattle.planes.specs.Plane.{plane_length, plane_words};

// Slot s is the `regions` words from slots + s * regions on; its set count, and what its shape costs, are word s of `counts`, `costs` and
// `columns`. Starting group i lies in slot work[order + i]. Number c lives in slot work[place + c] - 1, or is dead where that word is 0, and then
// it was joined into number work[into + c]. A log entry is three words. From planes on each slot has its shape once more, as planes of bits, by which
// two are weighed.
#[derive(Clone, Copy)]
pub struct MergeTables {
    pub regions: usize,
    pub groups: usize,
    pub slots: usize,
    pub order: usize,
    pub counts: usize,
    pub place: usize,
    pub costs: usize,
    pub columns: usize,
    pub into: usize,
    pub log: usize,
    pub planes: usize,
}

impl MergeTables {
    // Where slot s starts.
    pub fn slot(self, s: usize) -> usize
        requires s_lt_groups { s < self.groups }
        requires regions_bound { self.slots + self.groups * self.regions < 18446744073709551616 }
        ensures { result ≡ self.slots + s * self.regions }
    {
        self.slots + s * self.regions
    }

    // How many words each plane of a shape takes.
    pub fn plane_long(self) -> usize
        requires { self.regions ≤ 65536 }
        ensures { result ≡ plane_length self.regions }
    {
        (self.regions + 31) / 32
    }

    // Where the planes of slot s start.
    pub fn plane(self, s: usize) -> usize
        requires s_lt_groups { s < self.groups }
        requires regions_bound { self.regions ≤ 65536 }
        requires regions_bound_2 { self.planes + self.groups * plane_words self.regions < 18446744073709551616 }
        ensures { result ≡ self.planes + s * plane_words self.regions }
    {
        let long = 3 * self.plane_long();
        self.planes + s * long
    }
}
