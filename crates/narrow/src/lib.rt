// The subtables that the panel's reader takes: those of few columns. Looked at before anything is written, group by group, since each run of a group has
// the columns of its group.
#![tactic(auto)]

ghost use Rattle.std.specs.Prelude.{◌≡◌, ℕ, ◌+◌, ◌*◌, ◌≤◌, ◌<◌, length};
ghost use Rattle.store.specs.Lent.{Handed, finals_at};
ghost use Rattle.limits.specs.Limits.{max_regions};
ghost use Rattle.narrow.specs.Columns.{is_some_wide, is_too_wide};

use panel::Profile;
use planning::form_of;
use store::Finals;

// The most columns of a subtable.
const COLUMNS: usize = 32;

// Some group has more columns than the panel's reader takes.
fn some_wide(work: &[u32], t: Finals) -> bool
    requires regions_le_max_regions { t.regions ≤ max_regions }
    requires count_in_bounds { t.groups + 3 * t.count ≤ length work.now }
    requires by_index { (g : ℕ) → g < t.count → Handed t.regions t.index work.now (t.groups + 3 * g) }
    ensures { result ≡ is_some_wide (finals_at t.regions t.groups t.count work.now) }
{
    for g in 0..t.count {
        let form = form_of(work, t, t.groups + 3 * g);
        if COLUMNS < form.count {
            return true;
        }
    }
    false
}

// Some group has more columns than the profile takes.
#[tactic(auto, unfolding(crate::specs::Columns::is_too_wide))]
pub fn too_wide(profile: Profile, work: &[u32], t: Finals) -> bool
    requires regions_le_max_regions { t.regions ≤ max_regions }
    requires count_in_bounds { t.groups + 3 * t.count ≤ length work.now }
    requires by_index { (g : ℕ) → g < t.count → Handed t.regions t.index work.now (t.groups + 3 * g) }
    ensures { result ≡ is_too_wide profile (finals_at t.regions t.groups t.count work.now) }
{
    match profile {
        Profile::Plain => false,
        Profile::Panel => some_wide(work, t),
    }
}
